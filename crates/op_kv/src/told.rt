ghost use Rattle.std.specs.Prelude.{◌≡◌, IfOk};
ghost use Rattle.op_kv.specs.Looked.{told_answer};

use op_types::{Answer, Blob, NoMemory};
use std::alloc::Global;

/// An answer whose bytes were looked at, and not copied.
#[derive(Clone, Copy)]
pub enum Told<'a> {
    /// The command took effect.
    Done,
    /// The key's value.
    Value(&'a [u8]),
    /// The key has no value.
    Absent,
}

impl Told<'_> {
    /// The answer.
    pub(crate) fn to_answer(self, alloc: Global) -> Result<Answer, NoMemory>
        ensures { IfOk result (λ a. a ≡ told_answer self.entry) }
    {
        Ok(match self {
            Told::Done => Answer::Done,
            Told::Value(bytes) => Answer::Value(Blob::from_slice(alloc, bytes)?),
            Told::Absent => Answer::Absent,
        })
    }
}

/// A client and its last command, whose bytes were looked at.
#[derive(Clone, Copy)]
pub struct LastCommand<'a> {
    /// The client's id.
    pub(crate) client: u64,
    /// The command's number.
    pub(crate) seq: u64,
    /// Its answer.
    pub(crate) told: Told<'a>,
}
