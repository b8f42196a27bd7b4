//! What comes of reads in a step.
ghost use Rattle.std.specs.Prelude.{◌≡◌, ◌≢◌, ◌≤◌, ◌++◌, [], Some, None, length, is_some, IfOk};

use op_reads::Reads;
use op_types::{Msg, NoMemory, Outcome, Pid, Replies, Reserved, Sends};
use std::alloc::Global;
use std::marker::Model;

/// What comes of reads in a step, with its room made.
#[derive(Drop)]
pub(crate) struct Reading {
    /// The reads that wait then.
    pub(crate) reads: Option<Reads>,
    /// What is asked of other members. Where it is anything, there is room behind it for what the rest of the
    /// step sends.
    pub(crate) asked: Reserved<(Pid, Msg)>,
    /// The answers, each to whoever asked it.
    pub(crate) replies: Replies,
    /// What a read is answered at once.
    pub(crate) outcome: Option<Outcome>,
}

/// What comes of reads, if anything does. It lies on the heap, so that the plans without reads stay small.
#[derive(Drop)]
pub(crate) struct Besides {
    reading: Option<Box<Reading>>,
}

impl Model for Besides {
    ghost use Rattle.std.specs.Prelude.{Option, option_map};
    ghost use Rattle.op_server.specs.declared.reading.Reading.{Reading};

    ghost Value = { Option Reading };

    ghost view = { λ a. option_map (λ b. b.value) a.reading };
}

impl Besides {
    /// Nothing comes of reads: none wait.
    pub(crate) fn nothing() -> Besides
        ensures { result ≡ None }
    {
        Besides { reading: None }
    }

    /// This comes of them.
    pub(crate) fn from_reading(alloc: Global, reading: Reading) -> Result<Besides, NoMemory>
        ensures { IfOk result (λ b. b ≡ Some reading) }
    {
        let reading = Box::new(alloc, reading)?;
        Ok(Besides {
            reading: Some(reading),
        })
    }

    /// Whether something comes of them.
    pub(crate) fn is_some(&self) -> bool
        ensures { result ≡ is_some self.now }
    {
        self.reading.is_some()
    }

    /// What comes of them.
    pub(crate) fn into_reading(self) -> Option<Reading>
        ensures { result ≡ self }
    {
        let boxed = self.reading?;
        Some(Box::into_inner(boxed))
    }
}

/// What is asked of other members, with room behind it for so many messages, where it is anything.
pub(crate) fn with_room(asked: Sends, more: usize) -> Result<Reserved<(Pid, Msg)>, NoMemory>
    ensures items { IfOk result (λ r. r.items ≡ asked) }
    ensures room { IfOk result (λ r. r.items ≢ [] → more ≤ r.room) }
{
    let mut asked = Reserved::from_seq(asked);
    if asked.len() > 0 {
        asked.make_room(more)?;
    }
    Ok(asked)
}

/// The messages that were asked, and behind them the others, in the room that was made.
pub(crate) fn asked_then(mut asked: Reserved<(Pid, Msg)>, sends: Sends) -> Sends
    requires { asked.items ≢ [] → length sends ≤ asked.room }
    ensures { result ≡ asked.items ++ sends }
{
    if asked.len() == 0 {
        return sends;
    }
    asked.add_all(sends);
    asked.into_seq()
}
