//! What proposals and commands were answered, as text.
ghost use Rattle.std.specs.Prelude.{◌≡◌, ◌++◌, OnOk};
ghost use Rattle.op_text.specs.Answers.{answer_text, cause_text, outcome_text};

use crate::ballot::put_ballot;
use crate::percent::put_encoded;
use crate::put::put_named;
use crate::row::Row;
use op_types::{Answer, Cause, NoMemory, Outcome};

/// Appends what a proposal was answered.
pub fn put_outcome(text: &mut Vec<u8>, outcome: &Outcome) -> Result<(), NoMemory>
    ensures { OnOk result (text.new.items ≡ text.old.items ++ outcome_text outcome.now) }
{
    let mut row = Row::new();
    row.outcome(outcome);
    text.extend_from_slice(row.as_slice())
}

/// Appends what a command was answered.
pub fn put_answer(text: &mut Vec<u8>, answer: &Answer) -> Result<(), NoMemory>
    ensures { OnOk result (text.new.items ≡ text.old.items ++ answer_text answer.now) }
{
    match answer {
        Answer::Done => text.extend_from_slice(b"done"),
        Answer::Value(value) => {
            text.extend_from_slice(b"value ")?;
            put_encoded(text, value.as_slice())
        }
        Answer::Absent => text.extend_from_slice(b"absent"),
        Answer::Stale => text.extend_from_slice(b"stale"),
        Answer::Dropped(cause) => {
            text.extend_from_slice(b"dropped ")?;
            put_cause(text, cause)
        }
    }
}

/// Appends why a buffered proposal was given up.
pub fn put_cause(text: &mut Vec<u8>, cause: &Cause) -> Result<(), NoMemory>
    ensures { OnOk result (text.new.items ≡ text.old.items ++ cause_text cause.now) }
{
    match cause {
        Cause::Ballot(ballot) => {
            text.extend_from_slice(b"ballot ")?;
            put_ballot(text, ballot)
        }
        Cause::Stop(pos) => put_named(text, b"stop ", *pos),
        Cause::End => text.extend_from_slice(b"end"),
    }
}
