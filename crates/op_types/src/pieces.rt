ghost use Rattle.std.specs.Prelude.{◌≡◌, ◌==◌, ◌&&◌, ◌≤◌, ◌+◌, length, replicate, is_some, false, None, IsTrue, IfOk};
ghost use Rattle.op_types.specs.Stages.{kept_or, bytes_with_at, whole_bytes};

use crate::Blob;
use std::alloc::{AllocError as NoMemory, Global};
use std::marker::Model;

/// What came so far of a base that comes in pieces.
#[derive(Drop)]
pub struct Pieces {
    at: u64,
    bytes: Vec<Option<u8>>,
}

impl Model for Pieces {
    ghost use Rattle.op_types.specs.Stages as stages;

    ghost Value = { stages.Pieces };

    ghost view = { λ p. record { at = p.at; bytes = p.bytes.items } };
}

impl Pieces {
    /// Nothing yet of a base at a position, with so many bytes.
    pub fn new(alloc: Global, at: u64, total: usize) -> Result<Pieces, NoMemory>
        ensures { IfOk result (λ p. p ≡ record { at = at; bytes = replicate total None }) }
    {
        Ok(Pieces {
            at,
            bytes: vec![in alloc; None; total]?,
        })
    }

    /// Whether this is of a base at that position, with so many bytes.
    pub fn is_of(&self, at: u64, total: u64) -> bool
        ensures { result ≡ (self.now.at == at && length self.now.bytes == total) }
    {
        self.at == at && self.bytes.len() as u64 == total
    }

    /// Bytes come to the places from this one on. A place that has its byte keeps it. It takes no memory.
    pub fn fill(&mut self, from: usize, bytes: &[u8])
        requires { from + length bytes.now ≤ length self.old.bytes }
        ensures { self.new ≡ record self.old { bytes = bytes_with_at self.old.bytes from bytes.now } }
    {
        for (i, byte) in bytes.iter().enumerate() {
            let place = from + i;
            self.bytes[place] = kept_or(self.bytes[place], *byte);
        }
    }

    /// Whether all bytes came. Pieces mostly come in order: while the last byte is missing, this looks at no
    /// other.
    pub fn are_whole(&self) -> bool
        ensures { result ≡ is_some (whole_bytes self.now.bytes) }
    {
        are_there(self.bytes.as_slice())
    }

    /// Whether all bytes are there once these come to the places from this one on. It changes nothing, and
    /// takes no memory.
    pub fn are_whole_with(&self, from: usize, bytes: &[u8]) -> bool
        requires { from + length bytes.now ≤ length self.now.bytes }
        ensures { result ≡ is_some (whole_bytes (bytes_with_at self.now.bytes from bytes.now)) }
    {
        let places = self.bytes.as_slice();
        let end = from + bytes.len();
        are_there(&places[end..]) && are_there(&places[..from])
    }

    /// The bytes, if all came.
    pub fn whole(&self, alloc: Global) -> Result<Option<Blob>, NoMemory>
        ensures { IfOk result (λ o. o ≡ whole_bytes self.now.bytes) }
    {
        if !self.are_whole() {
            return Ok(None);
        }
        let mut bytes = Vec::with_capacity(alloc, self.bytes.len())?;
        for byte in self.bytes.iter() {
            let Some(byte) = byte else {
                return Ok(None);
            };
            bytes.push(*byte)?;
        }
        Ok(Some(Blob::from_vec(bytes)?))
    }

    /// The bytes once these come to the places from this one on, if all are there then. They are copied only
    /// then.
    pub fn whole_with(
        &self,
        alloc: Global,
        from: usize,
        bytes: &[u8],
    ) -> Result<Option<Blob>, NoMemory>
        requires { from + length bytes.now ≤ length self.now.bytes }
        ensures { IfOk result (λ o. o ≡ whole_bytes (bytes_with_at self.now.bytes from bytes.now)) }
    {
        if !self.are_whole_with(from, bytes) {
            return Ok(None);
        }
        let mut all = self.copy(alloc)?;
        all.fill(from, bytes);
        all.whole(alloc)
    }

    /// An equal value.
    fn copy(&self, alloc: Global) -> Result<Pieces, NoMemory>
        ensures { IfOk result (λ p. p ≡ self.now) }
    {
        Ok(Pieces {
            at: self.at,
            bytes: Vec::from_slice(alloc, self.bytes.as_slice())?,
        })
    }
}

/// Whether all of these places have their bytes. The last one is looked at first.
fn are_there(places: &[Option<u8>]) -> bool
    ensures { result ≡ is_some (whole_bytes places.now) }
{
    if lacks_last(places) {
        return false;
    }
    for byte in places {
        if byte.is_none() {
            return false;
        }
    }
    true
}

/// Whether the last of these places has no byte.
fn lacks_last(places: &[Option<u8>]) -> bool
    ensures { IsTrue result → is_some (whole_bytes places.now) ≡ false }
{
    let len = places.len();
    len > 0 && places[len - 1].is_none()
}

/// The byte that a place has, or else this one.
fn kept_or(held: Option<u8>, byte: u8) -> Option<u8>
    ensures { result ≡ kept_or held byte }
{
    match held {
        Some(kept) => Some(kept),
        None => Some(byte),
    }
}
