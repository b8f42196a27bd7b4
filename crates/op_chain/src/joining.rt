//! A node that joins holds what is brought of the closed list, and goes on once it has all.
ghost use Rattle.std.specs.Prelude.{◌≡◌, Some, ℕ, true, IsTrue, IfOk, IfSome};
ghost use Rattle.op_types.specs.Rooms.{joining_with_room};
ghost use Rattle.op_kv.specs.Bases.{IsBase};
ghost use Rattle.op_protocol.specs.Joining.{takes_base, takes_entries};
ghost use Rattle.op_segments.specs.Brought.{held_base, held_entries};
ghost use Rattle.op_chain.specs.Bringing.{Brings, BringsOf, nothing_of, IsCompleted, IsHeld, IsBrought, IfJoined, joining_after, HasBase};
ghost use Rattle.op_chain.specs.Bringing.{is_join_base, has_base, turn_holding};

use crate::brought::Brought;
use op_deciding::{is_base, service_from};
use op_kv::Map;
use op_segments::{WholeFail, completed, take_base, take_entries, whole};
use op_types::{
    Batch, Blob, Body, Change, ConfNo, Durable, Entries, Input, Joining, Msg, NoMemory, Pid, Piece,
    Pieces, Turn, copy_batch,
};
use std::alloc::Global;

/// What an input brings to a node that joins, with so much of a base as came in pieces. It takes a base where
/// it holds none, and entries; both have to stand in the closed list, and to be of the configuration that it
/// joins.
pub(crate) fn bringing(
    alloc: Global,
    latest: ConfNo,
    joining: &Option<Joining>,
    pieces: &Option<Pieces>,
    input: Input,
) -> Result<Brought, NoMemory>
    requires { IfSome joining.now HasBase }
    ensures { IfOk result (Brings latest joining.now pieces.now input) }
{
    let Some(joining) = joining else {
        return Ok(Brought::Nothing(input));
    };
    match input {
        Input::Deliver(from, message) => {
            if latest <= message.conf {
                bring(alloc, from, message, joining, pieces)
            } else {
                Ok(Brought::Nothing(Input::Deliver(from, message)))
            }
        }
        input => Ok(Brought::Nothing(input)),
    }
}

/// What a message brings that the node takes: a base, also one that a piece completes, or entries.
fn bring(
    alloc: Global,
    from: Pid,
    message: Msg,
    joining: &Joining,
    pieces: &Option<Pieces>,
) -> Result<Brought, NoMemory>
    requires { HasBase joining.now }
    ensures { IfOk result (BringsOf joining.now pieces.now from message) }
{
    let Msg { conf, body } = message;
    match body {
        Body::BasePart(at, base) => {
            if takes_base(joining, conf, at, &base) {
                return hold_base(alloc, joining, at, base);
            }
            Ok(nothing(from, conf, Body::BasePart(at, base)))
        }
        Body::BasePiece(piece) => {
            match completed_base(alloc, conf, &piece, joining, pieces)? {
                Some(base) => hold_base(alloc, joining, piece.at, base),
                None => Ok(nothing(from, conf, Body::BasePiece(piece))),
            }
        }
        Body::Segment(at, entries) => {
            if takes_entries(joining, conf, at, &entries) {
                return hold_entries(alloc, joining, at, entries);
            }
            Ok(nothing(from, conf, Body::Segment(at, entries)))
        }
        body => Ok(nothing(from, conf, body)),
    }
}

/// A message brings nothing.
fn nothing(from: Pid, conf: ConfNo, body: Body) -> Brought
    ensures { result ≡ nothing_of from conf body }
{
    Brought::Nothing(Input::Deliver(from, Msg { conf, body }))
}

/// Whether the node takes a base.
fn takes_base(joining: &Joining, conf: ConfNo, at: u64, base: &Blob) -> bool
    ensures base { IsTrue result → IsBase base.now }
    ensures takes { result ≡ takes_base joining.now conf at base.now }
{
    joining.conf == conf && joining.base.is_none() && at <= joining.len && is_base(base.as_slice())
}

/// Whether it takes entries.
fn takes_entries(joining: &Joining, conf: ConfNo, at: u64, entries: &Entries) -> bool
    ensures { result ≡ takes_entries joining.now conf at entries.now }
{
    joining.conf == conf
        && !entries.is_empty()
        && at as u128 + entries.len() as u128 <= joining.len as u128
}

/// The base that a piece completes, if the node takes it.
fn completed_base(
    alloc: Global,
    conf: ConfNo,
    piece: &Piece,
    joining: &Joining,
    pieces: &Option<Pieces>,
) -> Result<Option<Blob>, NoMemory>
    ensures { IfOk result (IsCompleted joining.now pieces.now conf piece.now) }
{
    match completed(alloc, joining, pieces, conf, piece)? {
        Some(base) if takes_base(joining, conf, piece.at, &base) => Ok(Some(base)),
        _ => Ok(None),
    }
}

/// A base is held that the node takes.
fn hold_base(alloc: Global, joining: &Joining, at: u64, base: Blob) -> Result<Brought, NoMemory>
    requires held { HasBase joining.now }
    requires base { IsBase base }
    requires takes { (c : ℕ) × (takes_base joining.now c at base ≡ true) }
    ensures { IfOk result (IsHeld joining.now (held_base joining.now at base)) }
{
    let batch = take_base(alloc, joining, at, base)?;
    hold(alloc, joining, batch)
}

/// Entries are held that it takes.
fn hold_entries(
    alloc: Global,
    joining: &Joining,
    at: u64,
    entries: Entries,
) -> Result<Brought, NoMemory>
    requires held { HasBase joining.now }
    requires takes { (c : ℕ) × (takes_entries joining.now c at entries ≡ true) }
    ensures { IfOk result (IsHeld joining.now (held_entries joining.now at entries)) }
{
    let batch = take_entries(alloc, joining, at, entries)?;
    hold(alloc, joining, batch)
}

/// Changes are held, with the service after the closed list, if the node has all of it then.
fn hold(alloc: Global, joining: &Joining, batch: Batch) -> Result<Brought, NoMemory>
    requires brought { IsBrought joining.now batch }
    requires base { HasBase (joining_after joining.now batch) }
    ensures { IfOk result (IsHeld joining.now batch) }
{
    let service = joined_service(alloc, joining, &batch)?;
    Ok(Brought::Changes(batch, service))
}

/// The service after the closed list, if base and entries cover it once these changes are made.
fn joined_service(alloc: Global, joining: &Joining, batch: &Batch) -> Result<Option<Map>, NoMemory>
    requires brought { IsBrought joining.now batch.now }
    requires base { HasBase (joining_after joining.now batch.now) }
    ensures { IfOk result (IfJoined joining.now batch.now) }
{
    let Some(after) = holding(alloc, joining, batch)? else {
        return Ok(None);
    };
    let Some((_, base)) = &after.base else {
        return Ok(None);
    };
    match whole(alloc, &after) {
        Ok(entries) => Ok(Some(service_from(alloc, base.as_slice(), entries.as_slice())?)),
        Err(WholeFail::NotYet { .. }) => Ok(None),
        Err(WholeFail::NoMemory) => Err(NoMemory),
    }
}

/// A copy of what a node holds once these changes are made.
fn holding(alloc: Global, joining: &Joining, batch: &Batch) -> Result<Option<Joining>, NoMemory>
    requires { IsBrought joining.now batch.now }
    ensures { IfOk result (λ j. j ≡ Some (joining_with_room 0 (joining_after joining.now batch.now))) }
{
    let durable = Durable {
        part: None,
        closed: None,
        joining: Some(joining.copy(alloc)?),
    };
    match durable.after(copy_batch(alloc, batch.as_slice())?)? {
        Some(after) => Ok(after.joining),
        None => Ok(None),
    }
}

#[tactic(auto, using(crate::proofs::Beside::drops_still, crate::proofs::Beside::drops_then, crate::proofs::Beside::stays_then))]
/// The turn of a step by which a node that joins holds these changes: no piece of a base stays staged beside
/// a base.
pub(crate) fn turn_holding(joining: &Option<Joining>, batch: &[Change]) -> Turn
    ensures { result ≡ turn_holding joining.now batch.now }
{
    let Some(joining) = joining else {
        return Turn::Stay;
    };
    if joining.base.is_some() || has_base(batch) {
        return Turn::DropPieces;
    }
    Turn::Stay
}

/// Whether these changes bring a base.
fn has_base(batch: &[Change]) -> bool
    ensures { result ≡ has_base batch.now }
{
    match batch {
        [] => false,
        [first, rest @ ..] => is_join_base(first) || has_base(rest),
    }
}

/// Whether a change brings a base.
fn is_join_base(change: &Change) -> bool
    ensures { result ≡ is_join_base change.now }
{
    match change {
        Change::JoinBase(_, _) => true,
        _ => false,
    }
}
