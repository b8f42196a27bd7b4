ghost use Rattle.std.specs.Prelude.{◌≡◌, ◌≤◌, length, IfOk};
ghost use Rattle.op_types.specs.Limits.{most_writes};

use crate::{Blob, Seq, Shared};
use std::alloc::{AllocError as NoMemory, Global};
use std::marker::Model;

/// One of several writes of a command.
#[derive(Drop)]
pub enum Write {
    /// The key gets the value.
    Put(Blob, Blob),
    /// The key is taken out, if it is there.
    Del(Blob),
}

/// The writes of a command, at most 16, from the left. They lie apart, so that other commands take less room,
/// and copies share them.
#[derive(Drop)]
pub struct Writes {
    items: Shared<Seq<Write>>,
}

impl Model for Writes {
    ghost use Rattle.std.specs.Prelude.{List, length, ◌≤◌};
    ghost use Rattle.op_types.specs.declared.writes.Write.{Write};
    ghost use Rattle.op_types.specs.Limits.{most_writes};

    ghost Value = { List Write };

    ghost view = { λ w. w.items };

    ghost invariant = { λ w. length w.items ≤ most_writes };
}

impl Writes {
    /// These writes, with no copy.
    pub fn from_vec(alloc: Global, items: Vec<Write>) -> Result<Self, NoMemory>
        requires { length items.items ≤ most_writes }
        ensures { IfOk result (λ writes. writes ≡ items.items) }
    {
        Ok(Writes {
            items: Shared::new(alloc, Seq::from_vec(items))?,
        })
    }

    /// The writes, from the left.
    pub fn as_slice(&self) -> &[Write]
        ensures items { result.now ≡ self.now }
        ensures few { length result.now ≤ most_writes }
    {
        self.items.get().as_slice()
    }

    /// Equal writes, in the same place.
    pub fn copy(&self) -> Result<Self, NoMemory>
        ensures { IfOk result (λ writes. writes ≡ self.now) }
    {
        Ok(Writes {
            items: self.items.copy()?,
        })
    }
}
