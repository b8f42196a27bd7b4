//! Parts of messages that are too long for one.
ghost use Rattle.std.specs.Prelude.{◌≡◌, ◌++◌, OnOk, OnErr};
ghost use Rattle.op_fields.specs.Prefixes.{KeepsPrefix};
ghost use Rattle.op_fields.specs.Taken.{Gives};
ghost use Rattle.op_msg.specs.Ranges.{PromisedRunInRange, SyncRunInRange};
ghost use Rattle.op_msg.specs.Forms.{told_run, promised_run, promise_part, sync_run, sync_part, piece, body_options};

use op_entry::{ballot_at, blob_of, entries_at, put_ballot, put_entries};
use op_fields::{NoMemory, TakeFail, bytes_after_u64, put_counted, put_u64, u64_in};
use op_types::{Ballot, Body, MOST_PART_BYTES, POSITIONS_END, Piece, PromisedRun, SyncRun};
use std::alloc::Global;

/// Appends a part of a promise. Without memory a part of it may be appended.
#[tactic(auto, using(op_fields::proofs::Prefixes::kept_through))]
pub fn put_promise_part(
    out: &mut Vec<u8>,
    ballot: Ballot,
    part: &PromisedRun,
) -> Result<(), NoMemory>
    requires { PromisedRunInRange part.now }
    ensures ok { OnOk result (out.new.items ≡ out.old.items ++ promise_part.text (ballot, part.now)) }
    ensures err { OnErr result (KeepsPrefix out.old.items out.new.items) }
{
    put_ballot(out, ballot)?;
    put_ballot(out, part.accepted)?;
    put_told(out, part)
}

#[tactic(auto, using(op_fields::proofs::Prefixes::kept_through))]
fn put_told(out: &mut Vec<u8>, part: &PromisedRun) -> Result<(), NoMemory>
    requires { PromisedRunInRange part.now }
    ensures ok { OnOk result (out.new.items ≡ out.old.items
        ++ told_run.text (part.now.len, (part.now.decided, (part.now.start, (part.now.at, part.now.run))))) }
    ensures err { OnErr result (KeepsPrefix out.old.items out.new.items) }
{
    put_u64(out, part.len)?;
    put_u64(out, part.decided)?;
    put_u64(out, part.start)?;
    put_u64(out, part.at)?;
    put_entries(out, part.run.as_slice())
}

/// Appends a part of an accept sync. Without memory a part of it may be appended.
#[tactic(auto, using(op_fields::proofs::Prefixes::kept_through))]
pub fn put_sync_part(out: &mut Vec<u8>, ballot: Ballot, part: &SyncRun) -> Result<(), NoMemory>
    requires { SyncRunInRange part.now }
    ensures ok { OnOk result (out.new.items ≡ out.old.items ++ sync_part.text (ballot, part.now)) }
    ensures err { OnErr result (KeepsPrefix out.old.items out.new.items) }
{
    put_ballot(out, ballot)?;
    put_u64(out, part.start)?;
    put_u64(out, part.end)?;
    put_u64(out, part.at)?;
    put_entries(out, part.run.as_slice())
}

/// Appends a piece of a base. Without memory a part of it may be appended.
#[tactic(auto, using(op_fields::proofs::Prefixes::kept_through))]
pub fn put_piece(out: &mut Vec<u8>, p: &Piece) -> Result<(), NoMemory>
    ensures ok { OnOk result (out.new.items ≡ out.old.items ++ piece.text p.now) }
    ensures err { OnErr result (KeepsPrefix out.old.items out.new.items) }
{
    put_u64(out, p.at)?;
    put_u64(out, p.total)?;
    put_u64(out, p.from)?;
    put_counted(out, 8, p.bytes.as_slice())
}

/// A part of a promise, at a byte offset, and the offset after it.
pub fn promise_part_at(alloc: Global, bytes: &[u8], at: usize) -> Result<(Body, usize), TakeFail>
    ensures { Gives result (body_options 20 bytes.now at) }
{
    let (ballot, at) = ballot_at(bytes, at)?;
    let (part, at) = promised_run_at(alloc, bytes, at)?;
    Ok((Body::PromisePart(ballot, part), at))
}

fn promised_run_at(alloc: Global, bytes: &[u8], at: usize) -> Result<(PromisedRun, usize), TakeFail>
    ensures { Gives result (promised_run.read bytes.now at) }
{
    let (accepted, at) = ballot_at(bytes, at)?;
    let (len, at) = u64_in(bytes, at, 0, POSITIONS_END)?;
    let (decided, at) = u64_in(bytes, at, 0, POSITIONS_END)?;
    let (start, at) = u64_in(bytes, at, 0, POSITIONS_END)?;
    let (place, at) = u64_in(bytes, at, 0, POSITIONS_END)?;
    let (run, at) = entries_at(alloc, bytes, at)?;
    let part = PromisedRun {
        accepted,
        len,
        decided,
        start,
        at: place,
        run,
    };
    Ok((part, at))
}

/// A part of an accept sync, at a byte offset, and the offset after it.
pub fn sync_part_at(alloc: Global, bytes: &[u8], at: usize) -> Result<(Body, usize), TakeFail>
    ensures { Gives result (body_options 21 bytes.now at) }
{
    let (ballot, at) = ballot_at(bytes, at)?;
    let (part, at) = sync_run_at(alloc, bytes, at)?;
    Ok((Body::AcceptSyncPart(ballot, part), at))
}

fn sync_run_at(alloc: Global, bytes: &[u8], at: usize) -> Result<(SyncRun, usize), TakeFail>
    ensures { Gives result (sync_run.read bytes.now at) }
{
    let (start, at) = u64_in(bytes, at, 0, POSITIONS_END)?;
    let (end, at) = u64_in(bytes, at, 0, POSITIONS_END)?;
    let (place, at) = u64_in(bytes, at, 0, POSITIONS_END)?;
    let (run, at) = entries_at(alloc, bytes, at)?;
    let part = SyncRun {
        start,
        end,
        at: place,
        run,
    };
    Ok((part, at))
}

/// A piece of a closed list's base, at a byte offset, and the offset after it.
pub fn base_piece_at(alloc: Global, bytes: &[u8], at: usize) -> Result<(Body, usize), TakeFail>
    ensures { Gives result (body_options 22 bytes.now at) }
{
    let (piece, at) = piece_at(alloc, bytes, at)?;
    Ok((Body::BasePiece(piece), at))
}

/// A piece of a base, at a byte offset, and the offset after it.
pub fn piece_at(alloc: Global, bytes: &[u8], at: usize) -> Result<(Piece, usize), TakeFail>
    ensures { Gives result (piece.read bytes.now at) }
{
    let (place, at) = u64_in(bytes, at, 0, POSITIONS_END)?;
    let (total, at) = u64_in(bytes, at, 0, u64::MAX)?;
    let (from, at) = u64_in(bytes, at, 0, u64::MAX)?;
    let (piece, at) = bytes_after_u64(bytes, at, 1, MOST_PART_BYTES as u64)?;
    let piece = Piece {
        at: place,
        total,
        from,
        bytes: blob_of(alloc, piece)?,
    };
    Ok((piece, at))
}
