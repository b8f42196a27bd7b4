ghost use Rattle.std.specs.Prelude.{◌≡◌, ◌≤◌, length, IfOk, OnOk};
ghost use Rattle.op_memory.specs.Images.{after, fresh, IsWithin};
ghost use Rattle.op_memory.specs.Undoing.{before, undone, IsRestored};

use crate::call::Call;
use crate::edits::lay;
use crate::piece::Piece;
use crate::replay::place;
use std::alloc::{AllocError, Global};

/// What a call of a disk in memory replaced: the disk had so many bytes before it, and these from a place on.
#[derive(Drop)]
pub struct Replaced {
    /// How long the disk was, in bytes.
    pub len: usize,
    /// Where these bytes stood.
    pub at: usize,
    /// The bytes that the call wrote over or cut off.
    pub bytes: Piece,
}

impl Replaced {
    /// What this call will replace of these bytes.
    pub fn by(call: &Call, bytes: &[u8], alloc: Global) -> Result<Replaced, AllocError>
        requires { IsWithin call.now bytes.now }
        ensures { IfOk result (λ r. before r (after call.now (fresh bytes.now)).content ≡ bytes.now) }
    {
        let (at, count) = range_of(call, bytes);
        let (_, rest) = bytes.split_at(at);
        let (old, _) = rest.split_at(rest.len().min(count));
        Ok(Replaced {
            len: bytes.len(),
            at,
            bytes: Piece::of(alloc, old)?,
        })
    }

    /// What a call replaces that changes none of these bytes.
    pub fn nothing(bytes: &[u8]) -> Replaced
        ensures { before result bytes.now ≡ bytes.now }
    {
        Replaced {
            len: bytes.len(),
            at: bytes.len(),
            bytes: Piece::empty(),
        }
    }

    /// Undoes that call, which was the last one.
    fn undo(&self, bytes: &mut Vec<u8>) -> Result<(), AllocError>
        ensures { OnOk result (bytes.new.items ≡ before self.now bytes.old.items) }
    {
        let within = self.at.min(bytes.len());
        lay(bytes, within, self.bytes.as_slice())?;
        bytes.truncate(self.len);
        Ok(())
    }
}

/// From where on a call changes these bytes, and how many of them at most.
fn range_of(call: &Call, bytes: &[u8]) -> (usize, usize)
    requires { IsWithin call.now bytes.now }
    ensures within { result.0 ≤ length bytes.now }
    ensures restored { IsRestored call.now bytes.now result.0 result.1 }
{
    match call {
        Call::Write(at, piece) => (place(bytes, *at), piece.len()),
        Call::Cut(len) => (place(bytes, *len), bytes.len()),
        Call::StoppedWrite(_, _) | Call::StoppedCut(_) | Call::Sync => (bytes.len(), 0),
    }
}

/// What a read gave before the calls that replaced these: the last one is undone first.
pub fn undone(mut bytes: Vec<u8>, replaced: &[Replaced]) -> Result<Vec<u8>, AllocError>
    ensures { IfOk result (λ x. x.items ≡ undone replaced.now bytes.items) }
{
    let mut count = replaced.len();
    'calls: while count > 0 {
        count -= 1;
        replaced[count].undo(&mut bytes)?;
    }
    Ok(bytes)
}
