ghost use Rattle.std.specs.Prelude.{◌≡◌, ◌==◌, ◌<◌, ◌≤◌, ◌∷◌, ◌++◌, [], ℕ, length, None, IfOk, OnOk, OnErr, insert};
ghost use Rattle.std.specs.Ordering.{nat_cmp};
ghost use Rattle.std.specs.Map.{lookup};
ghost use Rattle.std.specs.BTreeMap.{insert_entry, is_at};

use crate::Pid;
use arrayvec::ArrayVec;
use std::alloc::{AllocError as NoMemory, Global};
use std::marker::Model;

/// How many donors a joining node keeps at most.
pub const MOST_DONORS: usize = 255;

/// Nodes that have a closed list, each with how much of it is trimmed there, rising by id. There is memory
/// for all that a node keeps from the start, so that one more takes none.
#[derive(Drop)]
pub struct Donors {
    items: Box<ArrayVec<(Pid, u64), MOST_DONORS>>,
}

impl Model for Donors {
    ghost use Rattle.std.specs.Prelude.{List, ℕ};

    ghost Value = { List (ℕ × ℕ) };

    ghost view = { λ d. d.items.value.items };
}

impl Donors {
    /// No donors, with memory for all that a node keeps.
    pub fn new(alloc: Global) -> Result<Self, NoMemory>
        ensures { IfOk result (λ donors. donors ≡ []) }
    {
        Ok(Donors {
            items: Box::new(alloc, ArrayVec::new())?,
        })
    }

    /// Equal donors.
    pub fn copy(&self, alloc: Global) -> Result<Self, NoMemory>
        ensures { IfOk result (λ donors. donors ≡ self.now) }
    {
        let mut donors = Donors::new(alloc)?;
        for (pid, trimmed) in self.as_slice() {
            donors.push(*pid, *trimmed)?;
        }
        Ok(donors)
    }

    /// How many donors there are.
    pub fn len(&self) -> usize
        ensures len { result ≡ length self.now }
        ensures few { result ≤ 255 }
    {
        self.items.len()
    }

    /// The donors, in order.
    pub fn as_slice(&self) -> &[(Pid, u64)]
        ensures { result.now ≡ self.now }
    {
        self.items.as_slice()
    }

    /// Adds a donor at the end. There is no memory for more than a node keeps.
    pub fn push(&mut self, pid: Pid, trimmed: u64) -> Result<(), NoMemory>
        ensures ok { OnOk result (self.new ≡ self.old ++ (pid, trimmed) ∷ []) }
        ensures err { OnErr result (self.new ≡ self.old) }
    {
        match self.items.try_push((pid, trimmed)) {
            Ok(()) => Ok(()),
            Err(_) => Err(NoMemory),
        }
    }

    /// Adds a donor that is none yet, at its place. This takes no memory.
    pub fn add(&mut self, pid: Pid, trimmed: u64)
        requires none { lookup (is_at (nat_cmp pid)) self.old ≡ None }
        requires few { length self.old < 255 }
        ensures { self.new ≡ insert_entry nat_cmp self.old pid trimmed }
    {
        let index = first_above(self.items.as_slice(), pid);
        self.items.insert(index, (pid, trimmed));
    }
}

/// How many donors stand before a new one.
fn first_above(donors: &[(Pid, u64)], pid: Pid) -> usize
    ensures within { result ≤ length donors.now }
    ensures place { (trimmed : ℕ) → lookup (is_at (nat_cmp pid)) donors.now ≡ None
        → insert_entry nat_cmp donors.now pid trimmed ≡ insert donors.now result (pid, trimmed) }
{
    match donors {
        [] => 0,
        [first, rest @ ..] => {
            if pid < first.0 {
                0
            } else {
                first_above(rest, pid) + 1
            }
        }
    }
}
