ghost use Rattle.std.specs.Prelude.{◌≡◌, [], IfOk};

use crate::Donors;
use std::alloc::{AllocError as NoMemory, Global};
use std::marker::Model;

/// The length of a closed list that a node begins to join, with the memory for the list's donors: so joining
/// begins without taking any. Contracts see the length alone.
#[derive(Drop)]
pub struct ListLen {
    len: u64,
    // None are there yet.
    donors: Donors,
}

impl Model for ListLen {
    ghost use Rattle.std.specs.Prelude.{◌≡◌, ◌<◌, ◌^◌, ℕ, []};

    ghost Value = { ℕ };

    ghost view = { λ l. l.len };

    ghost invariant = { λ l. (l.donors ≡ []) × (l.len < 2 ^ 64) };
}

impl ListLen {
    /// This length, with memory for donors.
    pub fn new(alloc: Global, len: u64) -> Result<Self, NoMemory>
        ensures { IfOk result (λ l. l ≡ len) }
    {
        Ok(ListLen {
            len,
            donors: Donors::new(alloc)?,
        })
    }

    /// The length.
    pub fn get(&self) -> u64
        ensures { result ≡ self.now }
    {
        self.len
    }

    /// An equal length, with memory of its own.
    pub fn copy(&self, alloc: Global) -> Result<Self, NoMemory>
        ensures { IfOk result (λ l. l ≡ self.now) }
    {
        ListLen::new(alloc, self.len)
    }

    /// The length, and no donors in the memory for them.
    pub(crate) fn into_parts(self) -> (u64, Donors)
        ensures len { result.0 ≡ self }
        ensures donors { result.1 ≡ [] }
    {
        let ListLen { len, donors } = self;
        (len, donors)
    }
}
