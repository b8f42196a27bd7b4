ghost use Rattle.std.specs.Prelude.{◌≡◌, [], length, IfOk};

use crate::edits::copy_of;
use std::alloc::{AllocError, Global};
use std::marker::Model;

/// So many bytes lie in a piece itself.
const SHORT: usize = 16;

/// Bytes of a call of a disk in memory. A few lie in the piece itself, so that most calls take no memory for
/// them.
#[derive(Drop)]
pub struct Piece {
    kept: Kept,
}

/// Where the bytes of a piece lie.
#[derive(Drop)]
enum Kept {
    /// In the piece: so many bytes, from the first on.
    Short([u8; SHORT], usize),
    /// In a vector.
    Long(Vec<u8>),
}

impl Model for Piece {
    ghost use Rattle.op_memory.specs.Pieces.{Bytes, bytes_of, IsSoundPiece};

    ghost Value = { Bytes };

    ghost view = { λ p. bytes_of p.kept };

    ghost invariant = { λ p. IsSoundPiece p.kept };
}

impl Piece {
    /// A copy of these bytes.
    pub fn of(alloc: Global, bytes: &[u8]) -> Result<Piece, AllocError>
        ensures { IfOk result (λ piece. piece.items ≡ bytes.now) }
    {
        let len = bytes.len();
        if len > SHORT {
            return Ok(Piece {
                kept: Kept::Long(copy_of(alloc, bytes)?),
            });
        }
        let mut short = [0; SHORT];
        short[..len].copy_from_slice(bytes);
        Ok(Piece {
            kept: Kept::Short(short, len),
        })
    }

    /// No bytes.
    pub fn empty() -> Piece
        ensures { result.items ≡ [] }
    {
        Piece {
            kept: Kept::Short([0; SHORT], 0),
        }
    }

    /// The bytes.
    pub fn as_slice(&self) -> &[u8]
        ensures { result.now ≡ self.now.items }
    {
        match &self.kept {
            Kept::Short(bytes, len) => &bytes[..*len],
            Kept::Long(bytes) => bytes.as_slice(),
        }
    }

    /// How many there are.
    pub fn len(&self) -> usize
        ensures { result ≡ length self.now.items }
    {
        self.as_slice().len()
    }
}
