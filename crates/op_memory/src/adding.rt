ghost use Rattle.std.specs.Prelude.{ℕ, OnOk, OnErr};
ghost use Rattle.op_outside.specs.Disks.{GoesOn};
ghost use Rattle.op_outside.specs.Disks.Edit.{Nothing};
ghost use Rattle.op_memory.specs.declared.call.Call.TheVariants.{Sync};
ghost use Rattle.op_memory.specs.Images.{edit_of, IsWithin};
ghost use Rattle.op_memory.specs.Histories.{known_of, Adds, IsSame};

use crate::call::Call;
use crate::disk_history::DiskHistory;
use crate::replaced::Replaced;
use crate::replay::run;
use std::alloc::{AllocError, Global};

impl DiskHistory {
    /// Makes a call. One that finds no memory changes nothing.
    pub fn add(&mut self, alloc: Global, call: Call) -> Result<(), AllocError>
        requires { IsWithin call self.old.bytes.items }
        ensures added { OnOk result (Adds call self.old self.new) }
        ensures err { OnErr result (IsSame self.old self.new) }
        ensures goes_on { (f i g j : ℕ) →
            GoesOn (edit_of call) (known_of self.old f i) (known_of self.new g j) }
    {
        self.calls.reserve(1)?;
        self.replaced.reserve(1)?;
        let replaced = Replaced::by(&call, &self.bytes, alloc)?;
        run(&mut self.bytes, &call)?;
        self.calls.push_reserved(call);
        self.replaced.push_reserved(replaced);
        Ok(())
    }

    /// Makes a sync. One that finds no memory changes nothing.
    pub fn sync(&mut self) -> Result<(), AllocError>
        ensures added { OnOk result (Adds Sync self.old self.new) }
        ensures err { OnErr result (IsSame self.old self.new) }
        ensures goes_on { (f i g j : ℕ) → GoesOn Nothing (known_of self.old f i) (known_of self.new g j) }
    {
        self.calls.reserve(1)?;
        self.replaced.reserve(1)?;
        self.calls.push_reserved(Call::Sync);
        self.replaced.push_reserved(Replaced::nothing(&self.bytes));
        Ok(())
    }
}
