ghost use Rattle.std.specs.Prelude.{◌≡◌, ◌≤◌, ◌+◌, ◌++◌, take, drop, length, nat_le, IsTrue, IfOk, OnOk, OnErr};
ghost use Rattle.op_fields.specs.Prefixes.{KeepsPrefix};
ghost use Rattle.op_types.specs.Limits.{most_part_bytes};
ghost use Rattle.op_types.specs.Ranges.{IsPid};
ghost use Rattle.op_frame.specs.Framing.{frame_of};
ghost use Rattle.op_msg.specs.Sizes.{carried_size, shown_size};
ghost use Rattle.op_msg.specs.Ranges.{greatest_length, CountsAreShort, MsgInRange};
ghost use Rattle.op_command.specs.Ranges.{ReplyInRange};
ghost use Rattle.op_serving.specs.Wire.{fits_peer, peer_frame, client_frame, peer_head, client_head};

use op_command::ClientReply;
use op_fields::{NoMemory, put_u32, put_u64};
use op_serving::{CLIENT_HEAD, PEER_HEAD};
use op_types::{Body, MOST_PART_BYTES, MOST_PEER_BODY, Msg, Pid, Watch, fits_part};
use std::alloc::Global;

/// Appends a message as a frame. Without memory nothing is appended.
pub fn put_message(out: &mut Vec<u8>, from: Pid, to: Pid, m: &Msg) -> Result<(), NoMemory>
    requires from { IsPid from }
    requires to { IsPid to }
    requires message { MsgInRange m.now }
    ensures ok { OnOk result (out.new.items ≡ out.old.items ++ peer_frame from to m.now) }
    ensures err { OnErr result (out.new.items ≡ out.old.items) }
{
    let start = out.len();
    put_u64(out, 0)?;
    let Ok(()) = op_msg::put(out, from, to, m) else {
        out.truncate(start);
        return Err(NoMemory);
    };
    lay_long(out.as_mut_slice(), start);
    Ok(())
}

/// Whether its peer takes a message. It is encoded to see that.
pub fn fits_peer(alloc: Global, from: Pid, to: Pid, m: &Msg) -> Result<bool, NoMemory>
    requires from { IsPid from }
    requires to { IsPid to }
    requires message { MsgInRange m.now }
    ensures { IfOk result (λ fits. fits ≡ fits_peer from to m.now) }
{
    let mut body = Vec::new(alloc);
    op_msg::put(&mut body, from, to, m)?;
    read_counts(&m.body);
    Ok(body.len() <= MOST_PEER_BODY)
}

/// Whether the entries of a message, or its bytes of a base, take no more bytes than a part of a long
/// message: then its peer takes it. This encodes nothing.
pub fn is_short(from: Pid, to: Pid, m: &Msg) -> bool
    requires from { IsPid from }
    requires to { IsPid to }
    requires message { MsgInRange m.now }
    ensures short { result ≡ nat_le (carried_size m.now.body) most_part_bytes }
    ensures fits { IsTrue result → IsTrue (fits_peer from to m.now) }
{
    read_counts(&m.body);
    carries_part(&m.body)
}

/// Whether the entries that a message carries, or its bytes of a base, take no more bytes than a part of a
/// long message.
fn carries_part(body: &Body) -> bool
    ensures { result ≡ nat_le (carried_size body.now) most_part_bytes }
{
    match body {
        Body::Promise(_, _, _, _, _, entries)
        | Body::AcceptSync(_, _, entries)
        | Body::Accept(_, _, entries)
        | Body::Forwards(entries)
        | Body::Segment(_, entries) => fits_part(entries.as_slice()),
        Body::PromisePart(_, part) => fits_part(part.run.as_slice()),
        Body::AcceptSyncPart(_, part) => fits_part(part.run.as_slice()),
        Body::Forward(entry) => entry.size() <= MOST_PART_BYTES as u128,
        Body::BasePart(_, base) => base.as_slice().len() <= MOST_PART_BYTES,
        Body::BasePiece(piece) => piece.bytes.as_slice().len() <= MOST_PART_BYTES,
        Body::Watch(watch) => shows_part(watch),
        _ => true,
    }
}

/// The same, of what a member shows an observer.
fn shows_part(watch: &Watch) -> bool
    ensures { result ≡ nat_le (shown_size watch.now) most_part_bytes }
{
    match watch {
        Watch::Ask(_) => true,
        Watch::Shown(_, entries) => fits_part(entries.as_slice()),
        Watch::Base(_, piece) => piece.bytes.as_slice().len() <= MOST_PART_BYTES,
    }
}

/// Eight bytes can tell each number of bytes that a message names, since it has no more of them here.
fn read_counts(body: &Body)
    ensures { CountsAreShort body.now }
{
    match body {
        Body::BasePiece(piece) => {
            read_count(piece.total);
            read_count(piece.from);
        }
        Body::Watch(Watch::Base(_, piece)) => {
            read_count(piece.total);
            read_count(piece.from);
        }
        _ => {}
    }
}

/// Eight bytes can tell a number of bytes.
fn read_count(count: u64)
    ensures { count ≤ greatest_length }
{
    let _ = count;
}

/// Appends a reply as a frame. Without memory nothing is appended.
pub fn put_reply(out: &mut Vec<u8>, reply: &ClientReply) -> Result<(), NoMemory>
    requires { ReplyInRange reply.now }
    ensures ok { OnOk result (out.new.items ≡ out.old.items ++ client_frame reply.now) }
    ensures err { OnErr result (out.new.items ≡ out.old.items) }
{
    let start = out.len();
    let Ok(()) = put_short(out, reply) else {
        out.truncate(start);
        return Err(NoMemory);
    };
    Ok(())
}

/// Appends a reply as a frame. Without memory some of it is appended.
fn put_short(out: &mut Vec<u8>, reply: &ClientReply) -> Result<(), NoMemory>
    requires { ReplyInRange reply.now }
    ensures ok { OnOk result (out.new.items ≡ out.old.items ++ client_frame reply.now) }
    ensures err { OnErr result (KeepsPrefix out.old.items out.new.items) }
{
    let start = out.len();
    put_u32(out, 0)?;
    op_command::put_reply(out, reply)?;
    let Ok(len) = u32::try_from(out.len() - start - CLIENT_HEAD as usize) else {
        return Err(NoMemory);
    };
    lay_short(out.as_mut_slice(), start, len);
    Ok(())
}

/// Lays the length of a peer's body, behind the room at this place, into that room.
fn lay_long(bytes: &mut [u8], start: usize)
    requires { start + peer_head ≤ length bytes.old }
    ensures { bytes.new ≡ take start bytes.old ++ frame_of peer_head (drop (start + peer_head) bytes.old) }
{
    let body = start + PEER_HEAD as usize;
    let len = (bytes.len() - body) as u64;
    bytes[start..body].copy_from_slice(&len.to_be_bytes());
}

/// Lays the length of a client's body, behind the room at this place, into that room.
fn lay_short(bytes: &mut [u8], start: usize, len: u32)
    requires { length bytes.old ≡ start + client_head + len }
    ensures { bytes.new ≡
        take start bytes.old ++ frame_of client_head (drop (start + client_head) bytes.old) }
{
    bytes[start..start + CLIENT_HEAD as usize].copy_from_slice(&len.to_be_bytes());
}
