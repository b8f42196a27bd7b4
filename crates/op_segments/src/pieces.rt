//! A base goes in pieces.
ghost use Rattle.std.specs.Prelude.{◌≡◌, ◌≤◌, length, take, drop, IfOk};
ghost use Rattle.op_types.specs.Limits.{most_part_bytes};
ghost use Rattle.op_protocol.specs.Joining.{piece_count};
ghost use Rattle.op_segments.specs.Staging.{piece_of};

use op_types::{Blob, MOST_PART_BYTES, Piece};
use std::alloc::{AllocError as NoMemory, Global};

/// How many pieces so many bytes make.
pub fn piece_count(total: usize) -> usize
    ensures { result ≡ piece_count total }
{
    total.div_ceil(MOST_PART_BYTES)
}

/// The piece of the base at a position, from a place among its bytes on: as many bytes as go into one, or as
/// there are.
pub fn piece_of(alloc: Global, at: u64, bytes: &[u8], from: usize) -> Result<Piece, NoMemory>
    requires { from ≤ length bytes.now }
    ensures { IfOk result (λ piece. piece ≡ piece_of at bytes.now from) }
{
    Ok(Piece {
        at,
        total: bytes.len() as u64,
        from: from as u64,
        bytes: Blob::from_slice(alloc, piece_at(bytes, from))?,
    })
}

/// As many bytes as go into a piece, or as there are, from a place on.
fn piece_at(bytes: &[u8], from: usize) -> &[u8]
    requires { from ≤ length bytes.now }
    ensures { result.now ≡ take most_part_bytes (drop from bytes.now) }
{
    let rest = bytes_from(bytes, from);
    let count = rest.len().min(MOST_PART_BYTES);
    &rest[..count]
}

/// The bytes from a place on.
fn bytes_from(bytes: &[u8], from: usize) -> &[u8]
    requires { from ≤ length bytes.now }
    ensures { result.now ≡ drop from bytes.now }
{
    &bytes[from..]
}
