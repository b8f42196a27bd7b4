//! A base comes to an observer in pieces.
ghost use Rattle.std.specs.Prelude.{◌≡◌, ◌≤◌, ◌+◌, length, IfOk, IfSome};
ghost use Rattle.op_kv.specs.Bases.{IsBase};
ghost use Rattle.op_protocol.specs.Watching.{is_ahead_of, takes_base_piece};
ghost use Rattle.op_plans.specs.Positions.{FitsPositions};
ghost use Rattle.op_segments.specs.Staging.{PieceHasRoom};
ghost use Rattle.op_watch.specs.Basing as basing;
ghost use Rattle.op_watch.specs.Basing.{staged_for, base_with, rebased_plan, IsStaged};

use crate::stage::BaseStage;
use op_deciding::is_base;
use op_plans::Member;
use op_segments::{fresh_pieces, whole_with};
use op_types::{Blob, Change, ConfNo, Members, NoMemory, Piece, Pieces, Plan, Shared, Turn};
use std::alloc::Global;

/// The base that a piece of a base of a configuration completes, if the observer takes it: the base is ahead
/// of what it has, all bytes are there, and they are a base.
pub fn completed(
    member: &Member,
    stage: &BaseStage,
    conf: ConfNo,
    piece: &Piece,
) -> Result<Option<Blob>, NoMemory>
    requires { FitsPositions member.now.part.now }
    ensures same { IfOk result (λ base. base
        ≡ basing.completed member.now.part.now (staged_for stage.now conf) conf piece.now) }
    ensures base { IfOk result (λ base. IfSome base IsBase) }
{
    if !takes_base_piece(member, conf, piece) {
        return Ok(None);
    }
    if stage.conf == conf {
        return base_with(member.alloc, &stage.pieces, piece);
    }
    let none: Option<Pieces> = None;
    base_with(member.alloc, &none, piece)
}

/// The base that a piece completes with these, if it is one.
fn base_with(
    alloc: Global,
    pieces: &Option<Pieces>,
    piece: &Piece,
) -> Result<Option<Blob>, NoMemory>
    requires { piece.now.from + length piece.now.bytes ≤ piece.now.total }
    ensures same { IfOk result (λ base. base ≡ base_with pieces.now piece.now) }
    ensures base { IfOk result (λ base. IfSome base IsBase) }
{
    match whole_with(alloc, pieces, piece)? {
        Some(bytes) if is_base(bytes.as_slice()) => Ok(Some(bytes)),
        _ => Ok(None),
    }
}

/// The piece is staged beside those of its configuration, if the observer takes it.
pub fn staged(
    member: &Member,
    stage: &BaseStage,
    conf: ConfNo,
    piece: Piece,
) -> Result<Plan, NoMemory>
    requires { FitsPositions member.now.part.now }
    ensures { IfOk result (IsStaged (takes_base_piece member.now.part.now conf piece)
        (staged_for stage.now conf) conf piece) }
{
    if !takes_base_piece(member, conf, &piece) {
        return Ok(member.nothing());
    }
    let fresh = fresh_for(member.alloc, stage, conf, &piece)?;
    Ok(Plan::nothing(member.alloc).with_turn(Turn::StageBase(conf, piece, fresh)))
}

/// Pieces of the piece's base of which none came yet, unless some are staged.
fn fresh_for(
    alloc: Global,
    stage: &BaseStage,
    conf: ConfNo,
    piece: &Piece,
) -> Result<Option<Pieces>, NoMemory>
    requires { piece.now.from + length piece.now.bytes ≤ piece.now.total }
    ensures { IfOk result (λ fresh. PieceHasRoom piece.now fresh (staged_for stage.now conf)) }
{
    if stage.conf == conf {
        return fresh_pieces(alloc, &stage.pieces, piece);
    }
    let none: Option<Pieces> = None;
    fresh_pieces(alloc, &none, piece)
}

/// Whether a piece is of a base that is ahead, and stands inside that one's bytes.
fn takes_base_piece(member: &Member, conf: ConfNo, piece: &Piece) -> bool
    requires { FitsPositions member.now.part.now }
    ensures { result ≡ takes_base_piece member.now.part.now conf piece.now }
{
    is_ahead_of(member, conf, piece.at)
        && piece.from as u128 + piece.bytes.as_slice().len() as u128 <= piece.total as u128
}

/// Whether a position of a configuration is above what the observer has.
fn is_ahead_of(member: &Member, conf: ConfNo, at: u64) -> bool
    requires { FitsPositions member.now.part.now }
    ensures { result ≡ is_ahead_of member.now.part.now conf at }
{
    let own = member.part.conf;
    let len = member.log_len();
    own < conf || own == conf && len < at
}

/// The part begins there, and all that is kept in memory begins anew.
pub fn rebased(
    alloc: Global,
    conf: ConfNo,
    members: Shared<Members>,
    at: u64,
    base: Blob,
) -> Result<Plan, NoMemory>
    ensures { IfOk result (λ plan. plan ≡ rebased_plan conf members at base) }
{
    let mut plan = Plan::nothing(alloc);
    plan.batch.push(Change::Rebase(conf, members, at, base))?;
    plan.set_turn(Turn::Renew);
    Ok(plan)
}
