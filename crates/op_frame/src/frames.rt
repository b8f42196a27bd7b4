ghost use Rattle.std.specs.Prelude.{◌≡◌, ◌<◌, ◌≤◌, ◌+◌, [], length, drop, IfOk, IfErr, IfSome, None, OnOk, OnErr};
ghost use Rattle.op_frame.specs.Framing.{stream_of, IsHead, BeginsWith, Stops, Tells, IsWhole, fed, left};

use bytes::BytesMut;
use op_conns::drop_front;
use op_fields::{NoMemory, take_u32, take_u64};
use std::alloc::{AllocError, Global};
use std::marker::Model;

/// How many bytes of room a buffer keeps once it holds none.
const ROOM_KEPT: usize = 4096;

/// Why no body is given.
#[derive(Clone, Copy, Debug, PartialEq, Eq)]
pub enum NextFail {
    /// The bytes held are no whole frame yet.
    NotYet,
    /// The head tells a body of this many bytes, more than the limit. It stays so, whatever is fed later.
    TooLong { len: u64 },
    /// No memory for the body; the frame is whole, and stays.
    NoMemory,
}

impl From<AllocError> for NextFail {
    ghost use Rattle.op_frame.specs.declared.frames.NextFail.TheVariants.{NoMemory};

    ghost from_gives = { λ _ e. e ≡ NoMemory };

    fn from(_e: AllocError) -> NextFail {
        NextFail::NoMemory
    }
}

/// The bytes of a stream that were fed and not given yet.
#[derive(Drop)]
pub struct Frames {
    head: u8,
    limit: u64,
    held: BytesMut,
}

impl Model for Frames {
    ghost use Rattle.op_frame.specs.Framing.{Stream, IsHead};

    ghost Value = { Stream };

    ghost view = { λ f. record { head = f.head; limit = f.limit; held = f.held.items } };

    ghost invariant = { λ f. IsHead f.head };
}

impl Frames {
    /// Nothing yet of a stream whose heads have 4 or 8 bytes, and whose bodies have up to `limit` bytes.
    pub fn new(alloc: Global, head: u8, limit: u64) -> Frames
        requires { IsHead head }
        ensures { result ≡ stream_of head limit [] }
    {
        Frames {
            head,
            limit,
            held: BytesMut::new(alloc),
        }
    }

    /// Adds the next piece of the stream. Without memory nothing changes.
    pub fn feed(&mut self, piece: &[u8]) -> Result<(), NoMemory>
        ensures ok { OnOk result (self.new ≡ fed self.old piece.now) }
        ensures err { OnErr result (self.new ≡ self.old) }
    {
        self.held.extend_from_slice(piece)?;
        Ok(())
    }

    /// The body of the next frame, which is let go of. After an error nothing changes.
    pub fn next(&mut self) -> Result<Vec<u8>, NextFail>
        ensures body { IfOk result (λ body. BeginsWith self.old body.items self.new.held) }
        ensures same { OnOk result (self.new ≡ left self.old self.new.held) }
        ensures err { IfErr result (λ e. Stops self.old e) }
        ensures kept { OnErr result (self.new ≡ self.old) }
        ensures head { IsHead self.old.head }
    {
        let len = self.body_len()?;
        let head = self.head as usize;
        let alloc = *self.held.allocator();
        let body = Vec::from_slice(alloc, &self.held()[head..head + len])?;
        self.skip(head + len);
        Ok(body)
    }

    /// The body of the next frame, which stays. This takes no memory.
    pub fn peek(&self) -> Result<&[u8], NextFail>
        ensures body { IfOk result (λ body. BeginsWith self.now body.now
            (drop (self.now.head + length body.now) self.now.held)) }
        ensures err { IfErr result (λ e. Stops self.now e) }
        ensures head { IsHead self.now.head }
    {
        let head = self.head as usize;
        let len = self.body_len()?;
        Ok(&self.held()[head..head + len])
    }

    /// Lets go of the next frame, whose body has so many bytes.
    pub fn pass(&mut self, len: usize)
        requires { self.old.head + len ≤ length self.old.held }
        ensures { self.new ≡ left self.old (drop (self.old.head + len) self.old.held) }
    {
        self.skip(self.head as usize);
        self.skip(len);
    }

    /// Goes on after so many bytes, as a stream whose heads have 4 or 8 bytes, and whose bodies have up to
    /// `limit` bytes.
    pub fn begin(&mut self, head: u8, limit: u64, count: usize)
        requires head { IsHead head }
        requires count { count ≤ length self.old.held }
        ensures { self.new ≡ stream_of head limit (drop count self.old.held) }
    {
        self.head = head;
        self.limit = limit;
        self.skip(count);
    }

    /// The bytes that were fed and not given yet.
    pub fn held(&self) -> &[u8]
        ensures { result.now ≡ self.now.held }
    {
        self.held.as_slice()
    }

    /// How many bytes the body of the first frame has, if the frame is whole.
    fn body_len(&self) -> Result<usize, NextFail>
        ensures whole { IfOk result (λ len. IsWhole self.now len) }
        ensures err { IfErr result (λ e. Stops self.now e) }
    {
        let head = self.head as usize;
        let held = self.held();
        let Some(len) = told_len(held, self.head) else {
            return Err(NextFail::NotYet);
        };
        if self.limit < len {
            return Err(NextFail::TooLong { len });
        }
        if ((held.len() - head) as u64) < len {
            return Err(NextFail::NotYet);
        }
        Ok(len as usize)
    }

    /// Goes on after so many bytes.
    fn skip(&mut self, count: usize)
        requires { count ≤ length self.old.held }
        ensures { self.new ≡ left self.old (drop count self.old.held) }
    {
        drop_front(&mut self.held, count, ROOM_KEPT);
    }
}

/// The length that the head tells, or None where there are fewer bytes than a head's.
fn told_len(held: &[u8], head: u8) -> Option<u64>
    requires { IsHead head }
    ensures some { IfSome result (λ len. Tells head held.now len) }
    ensures none { result ≡ None → length held.now < head }
{
    if head == 4 {
        match take_u32(held, 0) {
            Ok(len) => Some(u64::from(len)),
            Err(_) => None,
        }
    } else {
        match take_u64(held, 0) {
            Ok(len) => Some(len),
            Err(_) => None,
        }
    }
}
