ghost use Rattle.std.specs.Prelude.{◌≡◌, ◌++◌, OnOk, OnErr};
ghost use Rattle.op_fields.specs.Prefixes.{KeepsPrefix};
ghost use Rattle.op_fields.specs.Taken.{Gives};
ghost use Rattle.op_msg.specs.Ranges.{BodyInRange};
ghost use Rattle.op_msg.specs.Forms.{body_tag, body_text, body_options};

use crate::accepting::{
    accept_at, accept_sync_at, accepted_at, decide_at, put_entries_from, put_length_in,
};
use crate::closed::{
    ask_segment_at, base_part_at, next_conf_at, put_ask_segment, put_base_part, put_next_conf,
    put_segment, segment_at,
};
use crate::confirming::{confirm_at, confirmed_at, put_read_in};
use crate::forwards::{forwards_at, put_forwards};
use crate::heartbeats::{heartbeat_reply_at, heartbeat_request_at, put_heartbeat_reply};
use crate::parts::{
    base_piece_at, promise_part_at, put_piece, put_promise_part, put_sync_part, sync_part_at,
};
use crate::preparing::{prepare_at, promise_at, put_prepare, put_promise, put_refuse, refuse_at};
use crate::trimming::{progress_at, trim_ask_at, trim_at};
use crate::watching::{put_watch, watch_ask_at, watch_base_at, watch_shown_at, watch_tag_of};
use op_entry::{entry_at, put as put_entry, put_ballot};
use op_fields::{NoMemory, TakeFail, put_u64};
use op_types::Body;
use std::alloc::Global;

/// The tags of messages, from the least to the greatest.
pub const HEARTBEAT_REQUEST: u8 = 1;

const HEARTBEAT_REPLY: u8 = 2;

const PREPARE: u8 = 3;

const PROMISE: u8 = 4;

const ACCEPT_SYNC: u8 = 5;

const ACCEPT: u8 = 6;

const ACCEPTED: u8 = 7;

const DECIDE: u8 = 8;

const PREPARE_REQ: u8 = 9;

const REFUSE: u8 = 10;

const FORWARD: u8 = 11;

const TRIM_ASK: u8 = 12;

const PROGRESS: u8 = 13;

const TRIM: u8 = 14;

/// The tag of the news of the next configuration.
pub const NEXT_CONF: u8 = 15;

const ASK_BASE: u8 = 16;

const BASE_PART: u8 = 17;

const ASK_SEGMENT: u8 = 18;

const SEGMENT: u8 = 19;

const PROMISE_PART: u8 = 20;

const ACCEPT_SYNC_PART: u8 = 21;

const BASE_PIECE: u8 = 22;

const CONFIRM: u8 = 23;

const CONFIRMED: u8 = 24;

/// The tag of what an observer asks.
pub const WATCH_ASK: u8 = 25;

/// The tag of decided entries that it is shown.
pub const WATCH_SHOWN: u8 = 26;

/// The tag of a piece of a base that it is shown.
pub const WATCH_BASE: u8 = 27;

/// The greatest tag of a message.
pub const FORWARDS: u8 = 28;

/// The tag of what a message says.
pub fn tag_of(body: &Body) -> u8
    ensures { result ≡ body_tag body.now }
{
    match body {
        Body::HeartbeatRequest(_) => HEARTBEAT_REQUEST,
        Body::HeartbeatReply(_, _, _) => HEARTBEAT_REPLY,
        Body::Prepare(_, _, _, _) => PREPARE,
        Body::Promise(_, _, _, _, _, _) => PROMISE,
        Body::AcceptSync(_, _, _) => ACCEPT_SYNC,
        Body::Accept(_, _, _) => ACCEPT,
        Body::Accepted(_, _) => ACCEPTED,
        Body::Decide(_, _) => DECIDE,
        Body::PrepareReq => PREPARE_REQ,
        Body::Refuse(_, _) => REFUSE,
        Body::Forward(_) => FORWARD,
        Body::TrimAsk(_) => TRIM_ASK,
        Body::Progress(_, _) => PROGRESS,
        Body::Trim(_) => TRIM,
        Body::NextConf(_, _, _, _) => NEXT_CONF,
        Body::AskBase => ASK_BASE,
        Body::BasePart(_, _) => BASE_PART,
        Body::AskSegment(_, _) => ASK_SEGMENT,
        Body::Segment(_, _) => SEGMENT,
        Body::PromisePart(_, _) => PROMISE_PART,
        Body::AcceptSyncPart(_, _) => ACCEPT_SYNC_PART,
        Body::BasePiece(_) => BASE_PIECE,
        Body::Confirm(_, _) => CONFIRM,
        Body::Confirmed(_, _) => CONFIRMED,
        Body::Watch(watch) => watch_tag_of(watch),
        Body::Forwards(_) => FORWARDS,
    }
}

/// Appends what a message says, without its tag. Without memory a part of it may be appended.
pub fn put_body(out: &mut Vec<u8>, body: &Body) -> Result<(), NoMemory>
    requires { BodyInRange body.now }
    ensures ok { OnOk result (out.new.items ≡ out.old.items ++ body_text body.now) }
    ensures err { OnErr result (KeepsPrefix out.old.items out.new.items) }
{
    match body {
        Body::HeartbeatRequest(number) => put_u64(out, *number),
        Body::HeartbeatReply(number, own, heard) => put_heartbeat_reply(out, *number, *own, *heard),
        Body::Prepare(ballot, accepted, len, decided) => {
            put_prepare(out, *ballot, *accepted, *len, *decided)
        }
        Body::Promise(ballot, accepted, len, decided, start, entries) => {
            put_promise(
                out,
                *ballot,
                *accepted,
                *len,
                *decided,
                *start,
                entries.as_slice(),
            )
        }
        Body::AcceptSync(ballot, start, entries) => {
            put_entries_from(out, *ballot, *start, entries.as_slice())
        }
        Body::Accept(ballot, start, entries) => {
            put_entries_from(out, *ballot, *start, entries.as_slice())
        }
        Body::Accepted(ballot, len) => put_length_in(out, *ballot, *len),
        Body::Decide(ballot, len) => put_length_in(out, *ballot, *len),
        Body::PrepareReq | Body::AskBase => Ok(()),
        Body::Refuse(refused, promised) => put_refuse(out, *refused, *promised),
        Body::Forward(entry) => put_entry(out, entry),
        Body::TrimAsk(ballot) => put_ballot(out, *ballot),
        Body::Progress(ballot, decided) => put_length_in(out, *ballot, *decided),
        Body::Trim(place) => put_u64(out, *place),
        Body::NextConf(members, olds, len, trimmed) => {
            put_next_conf(out, members.get(), olds.get(), *len, *trimmed)
        }
        Body::BasePart(place, base) => put_base_part(out, *place, base),
        Body::AskSegment(from, to) => put_ask_segment(out, *from, *to),
        Body::Segment(start, entries) => put_segment(out, *start, entries.as_slice()),
        Body::PromisePart(ballot, part) => put_promise_part(out, *ballot, part),
        Body::AcceptSyncPart(ballot, part) => put_sync_part(out, *ballot, part),
        Body::BasePiece(piece) => put_piece(out, piece),
        Body::Confirm(ballot, number) => put_read_in(out, *ballot, *number),
        Body::Confirmed(ballot, number) => put_read_in(out, *ballot, *number),
        Body::Watch(watch) => put_watch(out, watch),
        Body::Forwards(entries) => put_forwards(out, entries.as_slice()),
    }
}

/// What a message with this tag says, at a byte offset, and the offset after it.
pub fn body_at(alloc: Global, bytes: &[u8], at: usize, tag: u8) -> Result<(Body, usize), TakeFail>
    ensures { Gives result (body_options tag bytes.now at) }
{
    match tag {
        HEARTBEAT_REQUEST => heartbeat_request_at(bytes, at),
        HEARTBEAT_REPLY => heartbeat_reply_at(bytes, at),
        PREPARE => prepare_at(bytes, at),
        PROMISE => promise_at(alloc, bytes, at),
        ACCEPT_SYNC => accept_sync_at(alloc, bytes, at),
        ACCEPT => accept_at(alloc, bytes, at),
        ACCEPTED => accepted_at(bytes, at),
        DECIDE => decide_at(bytes, at),
        PREPARE_REQ => Ok((Body::PrepareReq, at)),
        REFUSE => refuse_at(bytes, at),
        FORWARD => {
            let (entry, at) = entry_at(alloc, bytes, at)?;
            Ok((Body::Forward(entry), at))
        }
        TRIM_ASK => trim_ask_at(bytes, at),
        PROGRESS => progress_at(bytes, at),
        TRIM => trim_at(bytes, at),
        NEXT_CONF => next_conf_at(alloc, bytes, at),
        ASK_BASE => Ok((Body::AskBase, at)),
        BASE_PART => base_part_at(alloc, bytes, at),
        ASK_SEGMENT => ask_segment_at(bytes, at),
        SEGMENT => segment_at(alloc, bytes, at),
        PROMISE_PART => promise_part_at(alloc, bytes, at),
        ACCEPT_SYNC_PART => sync_part_at(alloc, bytes, at),
        BASE_PIECE => base_piece_at(alloc, bytes, at),
        CONFIRM => confirm_at(bytes, at),
        CONFIRMED => confirmed_at(bytes, at),
        WATCH_ASK => watch_ask_at(bytes, at),
        WATCH_SHOWN => watch_shown_at(alloc, bytes, at),
        WATCH_BASE => watch_base_at(alloc, bytes, at),
        FORWARDS => forwards_at(alloc, bytes, at),
        _ => Err(TakeFail::Bad { at }),
    }
}
