ghost use Rattle.std.specs.Prelude.{◌≡◌, IfOk};

use op_types::{NoMemory, Read, Seq};
use std::alloc::Global;

/// A read that a leader was asked.
#[derive(Debug, PartialEq, Eq, Drop)]
pub struct AskedRead {
    /// Its number in the leader's ballot, from 1.
    pub number: u64,
    /// What is read, and for whom.
    pub read: Read,
}

/// Reads by rising number.
pub type Asked = Seq<AskedRead>;

impl AskedRead {
    /// An equal value.
    pub fn copy(&self, alloc: Global) -> Result<AskedRead, NoMemory>
        ensures { IfOk result (λ asked. asked ≡ self.now) }
    {
        Ok(AskedRead {
            number: self.number,
            read: self.read.copy()?,
        })
    }
}
