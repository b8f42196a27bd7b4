ghost use Rattle.std.specs.Prelude.{◌≡◌, ◌++◌, OnOk, OnErr};
ghost use Rattle.op_types.specs.Ranges.{BallotInRange, IsNumber};
ghost use Rattle.op_fields.specs.Prefixes.{KeepsPrefix};
ghost use Rattle.op_fields.specs.Taken.{Gives};
ghost use Rattle.op_msg.specs.Forms.{read_in, body_options};

use op_entry::{ballot_at, put_ballot};
use op_fields::{NoMemory, TakeFail, put_u64, u64_in};
use op_types::{Ballot, Body, GREATEST_NUMBER};

/// Appends a ballot and the number of a read.
#[tactic(auto, using(op_fields::proofs::Prefixes::kept_through))]
pub fn put_read_in(out: &mut Vec<u8>, ballot: Ballot, number: u64) -> Result<(), NoMemory>
    requires { BallotInRange ballot × IsNumber number }
    ensures ok { OnOk result (out.new.items ≡ out.old.items ++ read_in.text (ballot, number)) }
    ensures err { OnErr result (KeepsPrefix out.old.items out.new.items) }
{
    put_ballot(out, ballot)?;
    put_u64(out, number)
}

/// A ballot and the number of a read, at a byte offset, and the offset after them.
fn read_in_at(bytes: &[u8], at: usize) -> Result<((Ballot, u64), usize), TakeFail>
    ensures { Gives result (read_in.read bytes.now at) }
{
    let (ballot, at) = ballot_at(bytes, at)?;
    let (number, at) = u64_in(bytes, at, 1, GREATEST_NUMBER)?;
    Ok(((ballot, number), at))
}

/// What the question of a leader that is read from says, at a byte offset, and the offset after it.
pub fn confirm_at(bytes: &[u8], at: usize) -> Result<(Body, usize), TakeFail>
    ensures { Gives result (body_options 23 bytes.now at) }
{
    let ((ballot, number), at) = read_in_at(bytes, at)?;
    Ok((Body::Confirm(ballot, number), at))
}

/// What the answer to it says, at a byte offset, and the offset after it.
pub fn confirmed_at(bytes: &[u8], at: usize) -> Result<(Body, usize), TakeFail>
    ensures { Gives result (body_options 24 bytes.now at) }
{
    let ((ballot, number), at) = read_in_at(bytes, at)?;
    Ok((Body::Confirmed(ballot, number), at))
}
