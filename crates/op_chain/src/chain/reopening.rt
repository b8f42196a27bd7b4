//! A node that failed begins anew, but for who waits.
ghost use Rattle.std.specs.Prelude.{◌≡◌, OnOk, OnErr};
ghost use Rattle.op_runs.specs.World.{state_after_reopening};
ghost use Rattle.op_chain.specs.Chains.{state_of, IsSoundChain, CanOpen};

use super::Chain;
use op_types::{Durable, NoMemory};
use std::mem::swap;

impl Chain {
    /// Opens the node again in place, which has stored this: all that it keeps in memory begins anew, but for
    /// the clients that wait, which wait still. Without memory it stays as it is.
    pub fn reopen(&mut self, durable: Durable) -> Result<(), NoMemory>
        requires { CanOpen self.old.me durable }
        ensures me { self.new.me ≡ self.old.me }
        ensures state { OnOk result (state_of self.new
            ≡ state_after_reopening self.old.me (state_of self.old) durable) }
        ensures sound { OnOk result (IsSoundChain self.new) }
        ensures unchanged { OnErr result (self.new ≡ self.old) }
    {
        let mut again = Chain::again(self.alloc, self.me, durable)?;
        swap(&mut self.durable, &mut again.durable);
        swap(&mut self.volatile, &mut again.volatile);
        swap(&mut self.service, &mut again.service);
        Ok(())
    }
}
