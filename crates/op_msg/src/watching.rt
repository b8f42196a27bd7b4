//! What observers ask, and what members show them.
ghost use Rattle.std.specs.Prelude.{◌≡◌, ◌++◌, OnOk, OnErr};
ghost use Rattle.op_types.specs.Ranges.{MembersInRange};
ghost use Rattle.op_fields.specs.Prefixes.{KeepsPrefix};
ghost use Rattle.op_fields.specs.Taken.{Gives};
ghost use Rattle.op_msg.specs.Ranges.{WatchInRange};
ghost use Rattle.op_msg.specs.Forms.{watch_base, watch_tag, watch_text, body_options};

use crate::body::{WATCH_ASK, WATCH_BASE, WATCH_SHOWN};
use crate::closed::put_segment;
use crate::parts::{piece_at, put_piece};
use op_entry::{entries_at, members_at, put_members};
use op_fields::{NoMemory, TakeFail, put_u64, u64_in};
use op_types::{Body, Members, POSITIONS_END, Piece, Shared, Watch};
use std::alloc::Global;

/// The tag of what an observer and a member say to one another.
pub fn watch_tag_of(watch: &Watch) -> u8
    ensures { result ≡ watch_tag watch.now }
{
    match watch {
        Watch::Ask(_) => WATCH_ASK,
        Watch::Shown(_, _) => WATCH_SHOWN,
        Watch::Base(_, _) => WATCH_BASE,
    }
}

/// Appends what an observer and a member say to one another. Without memory a part of it may be appended.
pub fn put_watch(out: &mut Vec<u8>, watch: &Watch) -> Result<(), NoMemory>
    requires { WatchInRange watch.now }
    ensures ok { OnOk result (out.new.items ≡ out.old.items ++ watch_text watch.now) }
    ensures err { OnErr result (KeepsPrefix out.old.items out.new.items) }
{
    match watch {
        Watch::Ask(from) => put_u64(out, *from),
        Watch::Shown(start, entries) => put_segment(out, *start, entries.as_slice()),
        Watch::Base(members, piece) => put_watch_base(out, members.get(), piece),
    }
}

#[tactic(auto, using(op_fields::proofs::Prefixes::kept_through))]
fn put_watch_base(out: &mut Vec<u8>, members: &Members, piece: &Piece) -> Result<(), NoMemory>
    requires { MembersInRange members.now }
    ensures ok { OnOk result (out.new.items ≡ out.old.items ++ watch_base.text (members.now, piece.now)) }
    ensures err { OnErr result (KeepsPrefix out.old.items out.new.items) }
{
    put_members(out, members)?;
    put_piece(out, piece)
}

/// What an observer asks, at a byte offset, and the offset after it.
pub fn watch_ask_at(bytes: &[u8], at: usize) -> Result<(Body, usize), TakeFail>
    ensures { Gives result (body_options 25 bytes.now at) }
{
    let (from, at) = u64_in(bytes, at, 0, POSITIONS_END)?;
    Ok((Body::Watch(Watch::Ask(from)), at))
}

/// Decided entries that an observer is shown, at a byte offset, and the offset after them.
pub fn watch_shown_at(alloc: Global, bytes: &[u8], at: usize) -> Result<(Body, usize), TakeFail>
    ensures { Gives result (body_options 26 bytes.now at) }
{
    let (start, at) = u64_in(bytes, at, 0, POSITIONS_END)?;
    let (entries, at) = entries_at(alloc, bytes, at)?;
    Ok((Body::Watch(Watch::Shown(start, entries)), at))
}

/// A piece of a base that an observer is shown, at a byte offset, and the offset after it.
pub fn watch_base_at(alloc: Global, bytes: &[u8], at: usize) -> Result<(Body, usize), TakeFail>
    ensures { Gives result (body_options 27 bytes.now at) }
{
    let (members, at) = members_at(alloc, bytes, at)?;
    let (piece, at) = piece_at(alloc, bytes, at)?;
    let members = Shared::new(alloc, members)?;
    Ok((Body::Watch(Watch::Base(members, piece)), at))
}
