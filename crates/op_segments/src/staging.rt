//! A base that comes in pieces is staged until all of its bytes are there.
ghost use Rattle.std.specs.Prelude.{◌≡◌, ◌≤◌, ◌+◌, length, false, Some, is_some, IfOk};
ghost use Rattle.op_types.specs.Stages.{with_piece};
ghost use Rattle.op_protocol.specs.Joining.{takes_piece, on_base_piece};
ghost use Rattle.op_segments.specs.Staging.{whole_with, completed, are_of, none_came, StagesAs, PieceHasRoom, HasRoomToPiece};

use op_types::{Blob, ConfNo, Joining, Piece, Pieces, Turn};
use std::alloc::{AllocError as NoMemory, Global};

/// What a piece does that doesn't complete a base: it is staged, in room that is made where no piece of its
/// base is. Pieces that come to all bytes, but to no base, are let go of, and a piece that the node doesn't
/// take does nothing.
pub fn stage_piece(
    alloc: Global,
    joining: &Joining,
    pieces: &Option<Pieces>,
    conf: ConfNo,
    piece: Piece,
) -> Result<Turn, NoMemory>
    ensures step { IfOk result (λ turn. StagesAs pieces.now turn
        (λ v. on_base_piece (Some joining.now) v conf piece)) }
    ensures room { IfOk result (λ turn. HasRoomToPiece turn pieces.now) }
{
    if !takes_piece(joining, conf, &piece) {
        return Ok(Turn::Stay);
    }
    if completes(pieces, &piece) {
        return Ok(Turn::DropPieces);
    }
    let fresh = fresh_pieces(alloc, pieces, &piece)?;
    Ok(Turn::StagePiece(piece, fresh))
}

/// The bytes of the base that a piece completes, if the node takes the piece. They are copied only once all
/// of them are there, which is told without memory.
pub fn completed(
    alloc: Global,
    joining: &Joining,
    pieces: &Option<Pieces>,
    conf: ConfNo,
    piece: &Piece,
) -> Result<Option<Blob>, NoMemory>
    ensures { IfOk result (λ base. base ≡ completed joining.now pieces.now conf piece.now) }
{
    if !takes_piece(joining, conf, piece) {
        return Ok(None);
    }
    whole_with(alloc, pieces, piece)
}

/// Whether the node takes a piece: it holds no base, and the piece stands in the closed list and inside its
/// base.
fn takes_piece(joining: &Joining, conf: ConfNo, piece: &Piece) -> bool
    ensures { result ≡ takes_piece joining.now conf piece.now }
{
    joining.conf == conf
        && joining.base.is_none()
        && piece.at <= joining.len
        && piece.from as u128 + piece.bytes.as_slice().len() as u128 <= piece.total as u128
}

/// A piece comes to those of its base that are staged, or else to these. It takes no memory.
pub fn add_piece(staged: &mut Option<Pieces>, piece: Piece, fresh: Option<Pieces>)
    requires { PieceHasRoom piece fresh staged.old }
    ensures { staged.new ≡ Some (with_piece staged.old piece) }
{
    if !are_of(&piece, staged) {
        *staged = fresh;
    }
    if let Some(pieces) = staged {
        pieces.fill(piece.from as usize, piece.bytes.as_slice());
    }
}

/// Whether these pieces are of a piece's base.
fn are_of(piece: &Piece, pieces: &Option<Pieces>) -> bool
    ensures { result ≡ are_of piece.now pieces.now }
{
    match pieces {
        Some(pieces) => pieces.is_of(piece.at, piece.total),
        None => false,
    }
}

/// Room for a piece's base, where no piece of it is staged.
pub fn fresh_pieces(
    alloc: Global,
    pieces: &Option<Pieces>,
    piece: &Piece,
) -> Result<Option<Pieces>, NoMemory>
    ensures { IfOk result (λ fresh. are_of piece.now pieces.now ≡ false
        → fresh ≡ Some (none_came piece.now)) }
{
    if are_of(piece, pieces) {
        return Ok(None);
    }
    let fresh = Pieces::new(alloc, piece.at, piece.total as usize)?;
    Ok(Some(fresh))
}

#[tactic(auto, using(crate::proofs::Completing::with_staged, crate::proofs::Completing::fresh_is))]
/// Whether all bytes of a piece's base are there with it. It takes no memory.
fn completes(pieces: &Option<Pieces>, piece: &Piece) -> bool
    requires { piece.now.from + length piece.now.bytes ≤ piece.now.total }
    ensures { result ≡ is_some (whole_with pieces.now piece.now) }
{
    let bytes = piece.bytes.as_slice();
    if !are_of(piece, pieces) {
        return bytes.len() as u64 == piece.total;
    }
    match pieces {
        Some(pieces) => pieces.are_whole_with(piece.from as usize, bytes),
        None => false,
    }
}

#[tactic(auto, using(crate::proofs::Completing::with_staged, crate::proofs::Completing::with_fresh, crate::proofs::Completing::with_lack))]
/// The bytes of a piece's base, if all of them are there with it.
pub fn whole_with(
    alloc: Global,
    pieces: &Option<Pieces>,
    piece: &Piece,
) -> Result<Option<Blob>, NoMemory>
    requires { piece.now.from + length piece.now.bytes ≤ piece.now.total }
    ensures { IfOk result (λ base. base ≡ whole_with pieces.now piece.now) }
{
    let bytes = piece.bytes.as_slice();
    if !are_of(piece, pieces) {
        if bytes.len() as u64 == piece.total {
            return Ok(Some(piece.bytes.copy()?));
        }
        return Ok(None);
    }
    match pieces {
        Some(pieces) => pieces.whole_with(alloc, piece.from as usize, bytes),
        None => Ok(None),
    }
}
