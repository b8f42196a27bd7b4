//! Ballots, as text.
ghost use Rattle.std.specs.Prelude.{◌≡◌, ◌++◌, OnOk};
ghost use Rattle.op_text.specs.Answers.{ballot_text};

use crate::put::{put_number, put_spaced};
use op_types::{Ballot, NoMemory};

/// Appends a ballot: its number, and its owner.
pub fn put_ballot(text: &mut Vec<u8>, ballot: &Ballot) -> Result<(), NoMemory>
    ensures { OnOk result (text.new.items ≡ text.old.items ++ ballot_text ballot.now) }
{
    put_spaced(text, ballot.number)?;
    put_number(text, u64::from(ballot.pid))
}
