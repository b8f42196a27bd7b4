//! The record of steps that are stored together, as it grows.
ghost use Rattle.std.specs.Prelude.{◌≡◌, ◌≤◌, ◌++◌, ◌↔◌, ℕ, List, [], length, IsTrue, IfOk, OnOk, OnErr};
ghost use Rattle.op_types.specs.declared.changes.Change.{Change};
ghost use Rattle.op_record.specs.Ranges.{BatchInRange};
ghost use Rattle.op_record.specs.declared.body.Rec.TheVariants.{Step};
ghost use Rattle.op_store.specs.Records.{IsBodyOf};
ghost use Rattle.op_node.specs.Taking.{LaysOut, most_before_step};

use op_journal::Framed;
use op_record::{begin_step, put_changes, set_count};
use op_types::{Batch, NoMemory};
use std::alloc::Global;

/// So many bytes stand before the body.
const SPACE: usize = 25;

/// A record with no more changes than this has room for those of any step.
const MOST_BEFORE_STEP: u8 = 223;

/// The changes of steps that were taken and are to be stored together.
#[derive(Drop)]
pub struct Record {
    pub(crate) bytes: Vec<u8>,
    pub(crate) count: u8,
    /// The changes of one step, before they are added.
    pub(crate) added: Vec<u8>,
}

impl Record {
    /// The record of no step.
    pub fn new(alloc: Global) -> Result<Record, NoMemory>
        ensures { IfOk result (LaysOut []) }
    {
        let mut bytes = Framed::start(alloc)?;
        begin_step(&mut bytes)?;
        bytes.reserve(1)?;
        Ok(Record {
            bytes,
            count: 0,
            added: Vec::new(alloc),
        })
    }

    /// Adds the changes of a step. It takes all the memory that storing them needs. Where there is none, or
    /// where they would be more than a record has, nothing is added.
    pub(crate) fn add(&mut self, batch: &Batch) -> Result<(), NoMemory>
        requires { BatchInRange batch.now }
        ensures added { (changes : List Change) → LaysOut changes self.old →
            OnOk result (LaysOut (changes ++ batch.now) self.new) }
        ensures kept { (changes : List Change) → LaysOut changes self.old →
            OnErr result (LaysOut changes self.new) }
    {
        let count = self.count as usize + batch.len();
        if count > u8::MAX as usize {
            return Err(NoMemory);
        }
        self.added.clear();
        put_changes(&mut self.added, batch)?;
        self.bytes.reserve(self.added.len() + 1)?;
        self.bytes.extend_from_slice(&self.added)?;
        self.count = count as u8;
        Ok(())
    }

    /// Whether the changes of one more step surely have room.
    pub fn is_roomy(&self) -> bool
        ensures { (changes : List Change) → LaysOut changes self.now →
            IsTrue result ↔ (length changes ≤ most_before_step) }
    {
        self.count <= MOST_BEFORE_STEP
    }

    /// Whether there is nothing to store.
    pub(crate) fn is_empty(&self) -> bool
        ensures { (changes : List Change) → LaysOut changes self.now → IsTrue result ↔ (changes ≡ []) }
    {
        self.count == 0
    }

    /// The record, to be written. It takes no memory.
    pub(crate) fn into_framed(self) -> Framed
        requires { (changes : List Change) × LaysOut changes self }
        ensures { (changes : List Change) → LaysOut changes self → IsBodyOf (Step changes) result }
    {
        let Record {
            mut bytes,
            count,
            ..
        } = self;
        set_count(&mut bytes, SPACE, count);
        Framed::close(bytes)
    }
}
