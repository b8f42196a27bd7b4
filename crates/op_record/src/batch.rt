ghost use Rattle.std.specs.Prelude.{◌≡◌, ◌++◌, OnOk, OnErr};
ghost use Rattle.op_types.specs.Ranges.{MembersInRange};
ghost use Rattle.op_fields.specs.Prefixes.{KeepsPrefix};
ghost use Rattle.op_fields.specs.Form.{items_read};
ghost use Rattle.op_fields.specs.Items.{GivesItem};
ghost use Rattle.op_fields.specs.Taken.{Gives, GivesVec};
ghost use Rattle.op_record.specs.Ranges.{ChangeInRange, BatchInRange};
ghost use Rattle.op_record.specs.Forms.{flag, place_base, begun, rebased, change_options, change, batch};

use crate::base::{base_at, put_base};
use crate::growing::put_changes;
use crate::part::place_at;
use op_entry::{ballot_at, entries_at, members_at, put_ballot, put_entries, put_members};
use op_fields::{NoMemory, TakeFail, items_at, put_u8, put_u32, put_u64, u8_in, u32_in, u64_in};
use op_types::{
    Batch, Blob, Change, ConfNo, GREATEST_PID, LAST_CONF, ListLen, Members, POSITIONS_END, Seq,
    Shared,
};
use std::alloc::Global;

/// How many changes a batch has at most: their count is one byte.
const MOST_CHANGES: u8 = u8::MAX;

/// The tags of changes.
const PROMISE: u8 = 1;

const ACCEPT: u8 = 2;

const CUT_TO: u8 = 3;

const APPEND: u8 = 4;

const DECIDED: u8 = 5;

const TRIM: u8 = 6;

const CLOSE: u8 = 7;

const JOIN_BEGIN: u8 = 8;

const JOIN_DONOR: u8 = 9;

const JOIN_BASE: u8 = 10;

const JOIN_PART: u8 = 11;

const JOIN_DONE: u8 = 12;

const REBASE: u8 = 13;

/// Appends a batch. Without memory a part of it may be appended.
#[tactic(auto, using(op_fields::proofs::Prefixes::kept_through))]
pub fn put_batch(out: &mut Vec<u8>, changes: &Batch) -> Result<(), NoMemory>
    requires { BatchInRange changes.now }
    ensures ok { OnOk result (out.new.items ≡ out.old.items ++ batch.text changes.now) }
    ensures err { OnErr result (KeepsPrefix out.old.items out.new.items) }
{
    put_u8(out, changes.len() as u8)?;
    put_changes(out, changes)
}

#[tactic(auto, using(op_fields::proofs::Prefixes::kept_through))]
pub fn put_change(out: &mut Vec<u8>, c: &Change) -> Result<(), NoMemory>
    requires { ChangeInRange c.now }
    ensures ok { OnOk result (out.new.items ≡ out.old.items ++ change.text c.now) }
    ensures err { OnErr result (KeepsPrefix out.old.items out.new.items) }
{
    match c {
        Change::Promise(ballot) => {
            put_u8(out, PROMISE)?;
            put_ballot(out, *ballot)
        }
        Change::Accept(ballot) => {
            put_u8(out, ACCEPT)?;
            put_ballot(out, *ballot)
        }
        Change::CutTo(len) => {
            put_u8(out, CUT_TO)?;
            put_u64(out, *len)
        }
        Change::Append(entries) => {
            put_u8(out, APPEND)?;
            put_entries(out, entries.as_slice())
        }
        Change::Decided(len) => {
            put_u8(out, DECIDED)?;
            put_u64(out, *len)
        }
        Change::Trim(len, base) => {
            put_u8(out, TRIM)?;
            put_place_base(out, *len, base)
        }
        Change::Close(named, base) => {
            put_u8(out, CLOSE)?;
            put_flag(out, *named)?;
            put_base(out, base)
        }
        Change::JoinBegin(conf, members, olds, len) => {
            put_u8(out, JOIN_BEGIN)?;
            put_begun(out, *conf, members.get(), olds.get(), len.get())
        }
        Change::JoinDonor(donor, trimmed) => {
            put_u8(out, JOIN_DONOR)?;
            put_u32(out, *donor)?;
            put_u64(out, *trimmed)
        }
        Change::JoinBase(place, base) => {
            put_u8(out, JOIN_BASE)?;
            put_place_base(out, *place, base)
        }
        Change::JoinPart(place, entries) => {
            put_u8(out, JOIN_PART)?;
            put_u64(out, *place)?;
            put_entries(out, entries.as_slice())
        }
        Change::JoinDone(base) => {
            put_u8(out, JOIN_DONE)?;
            put_base(out, base)
        }
        Change::Rebase(conf, members, place, base) => {
            put_u8(out, REBASE)?;
            put_rebased(out, *conf, members.get(), *place, base)
        }
    }
}

/// A configuration, its members, those before, and the closed list's length.
#[tactic(auto, using(op_fields::proofs::Prefixes::kept_through))]
fn put_begun(
    out: &mut Vec<u8>,
    conf: ConfNo,
    members: &Members,
    olds: &Members,
    len: u64,
) -> Result<(), NoMemory>
    requires members { MembersInRange members.now }
    requires olds { MembersInRange olds.now }
    ensures ok { OnOk result (out.new.items
        ≡ out.old.items ++ begun.text (conf, (members.now, (olds.now, len)))) }
    ensures err { OnErr result (KeepsPrefix out.old.items out.new.items) }
{
    put_u32(out, conf)?;
    put_members(out, members)?;
    put_members(out, olds)?;
    put_u64(out, len)
}

/// A configuration, its members, a position of its list and the base there.
#[tactic(auto, using(op_fields::proofs::Prefixes::kept_through))]
fn put_rebased(
    out: &mut Vec<u8>,
    conf: ConfNo,
    members: &Members,
    place: u64,
    base: &Blob,
) -> Result<(), NoMemory>
    requires { MembersInRange members.now }
    ensures ok { OnOk result (out.new.items
        ≡ out.old.items ++ rebased.text (conf, (members.now, (place, base.now)))) }
    ensures err { OnErr result (KeepsPrefix out.old.items out.new.items) }
{
    put_u32(out, conf)?;
    put_members(out, members)?;
    put_place_base(out, place, base)
}

/// A position and the base there.
#[tactic(auto, using(op_fields::proofs::Prefixes::kept_through))]
fn put_place_base(out: &mut Vec<u8>, place: u64, base: &Blob) -> Result<(), NoMemory>
    ensures ok { OnOk result (out.new.items
        ≡ out.old.items ++ place_base.text (place, base.now)) }
    ensures err { OnErr result (KeepsPrefix out.old.items out.new.items) }
{
    put_u64(out, place)?;
    put_base(out, base)
}

fn put_flag(out: &mut Vec<u8>, yes: bool) -> Result<(), NoMemory>
    ensures ok { OnOk result (out.new.items ≡ out.old.items ++ flag.text yes) }
    ensures err { OnErr result (KeepsPrefix out.old.items out.new.items) }
{
    put_u8(out, if yes { 1 } else { 0 })
}

/// The batch at a byte offset, and the offset after it.
pub fn batch_at(alloc: Global, bytes: &[u8], at: usize) -> Result<(Batch, usize), TakeFail>
    ensures { Gives result (batch.read bytes.now at) }
{
    let (count, at) = u8_in(bytes, at, 0, MOST_CHANGES)?;
    let (changes, at) = change_items_at(alloc, count, bytes, at)?;
    Ok((Seq::from_vec(changes), at))
}

fn change_items_at(
    alloc: Global,
    count: u8,
    bytes: &[u8],
    first: usize,
) -> Result<(Vec<Change>, usize), TakeFail>
    ensures { GivesVec result (items_read (λ _. change) (λ _. 0) count 0 bytes.now first) }
{
    items_at(
        alloc,
        count as u64,
        first,
        |at, _|
            ensures { GivesItem (λ _. 0) result (change.read bytes.entry.now at) }
        {
            let (change, next) = change_at(alloc, bytes, at)?;
            Ok((change, 0, next))
        },
    )
}

fn change_at(alloc: Global, bytes: &[u8], at: usize) -> Result<(Change, usize), TakeFail>
    ensures { Gives result (change.read bytes.now at) }
{
    let (tag, at) = u8_in(bytes, at, PROMISE, REBASE)?;
    match tag {
        PROMISE => {
            let (ballot, at) = ballot_at(bytes, at)?;
            Ok((Change::Promise(ballot), at))
        }
        ACCEPT => {
            let (ballot, at) = ballot_at(bytes, at)?;
            Ok((Change::Accept(ballot), at))
        }
        CUT_TO => {
            let (len, at) = u64_in(bytes, at, 0, POSITIONS_END)?;
            Ok((Change::CutTo(len), at))
        }
        APPEND => {
            let (entries, at) = entries_at(alloc, bytes, at)?;
            Ok((Change::Append(entries), at))
        }
        DECIDED => {
            let (len, at) = u64_in(bytes, at, 0, POSITIONS_END)?;
            Ok((Change::Decided(len), at))
        }
        TRIM => trim_at(alloc, bytes, at),
        CLOSE => close_at(alloc, bytes, at),
        JOIN_BEGIN => begin_at(alloc, bytes, at),
        JOIN_DONOR => new_donor_at(bytes, at),
        JOIN_BASE => place_base_at(alloc, bytes, at),
        JOIN_PART => place_entries_at(alloc, bytes, at),
        JOIN_DONE => {
            let (base, at) = base_at(alloc, bytes, at)?;
            Ok((Change::JoinDone(base), at))
        }
        REBASE => rebase_at(alloc, bytes, at),
        _ => Err(TakeFail::Bad { at }),
    }
}

fn trim_at(alloc: Global, bytes: &[u8], at: usize) -> Result<(Change, usize), TakeFail>
    ensures { Gives result (change_options 6 bytes.now at) }
{
    let (place, at) = place_at(bytes, at)?;
    let (base, at) = base_at(alloc, bytes, at)?;
    Ok((Change::Trim(place, base), at))
}

fn close_at(alloc: Global, bytes: &[u8], at: usize) -> Result<(Change, usize), TakeFail>
    ensures { Gives result (change_options 7 bytes.now at) }
{
    let (named, at) = flag_at(bytes, at)?;
    let (base, at) = base_at(alloc, bytes, at)?;
    Ok((Change::Close(named, base), at))
}

fn flag_at(bytes: &[u8], at: usize) -> Result<(bool, usize), TakeFail>
    ensures { Gives result (flag.read bytes.now at) }
{
    let (yes, at) = u8_in(bytes, at, 0, 1)?;
    Ok((yes == 1, at))
}

fn begin_at(alloc: Global, bytes: &[u8], at: usize) -> Result<(Change, usize), TakeFail>
    ensures { Gives result (change_options 8 bytes.now at) }
{
    let (conf, at) = u32_in(bytes, at, 2, LAST_CONF)?;
    let (members, at) = members_at(alloc, bytes, at)?;
    let (olds, at) = members_at(alloc, bytes, at)?;
    let (len, at) = u64_in(bytes, at, 1, POSITIONS_END)?;
    let len = ListLen::new(alloc, len)?;
    let (members, olds) = (Shared::new(alloc, members)?, Shared::new(alloc, olds)?);
    Ok((Change::JoinBegin(conf, members, olds, len), at))
}

fn new_donor_at(bytes: &[u8], at: usize) -> Result<(Change, usize), TakeFail>
    ensures { Gives result (change_options 9 bytes.now at) }
{
    let (donor, at) = u32_in(bytes, at, 1, GREATEST_PID)?;
    let (trimmed, at) = place_at(bytes, at)?;
    Ok((Change::JoinDonor(donor, trimmed), at))
}

fn place_base_at(alloc: Global, bytes: &[u8], at: usize) -> Result<(Change, usize), TakeFail>
    ensures { Gives result (change_options 10 bytes.now at) }
{
    let (place, at) = place_at(bytes, at)?;
    let (base, at) = base_at(alloc, bytes, at)?;
    Ok((Change::JoinBase(place, base), at))
}

fn place_entries_at(alloc: Global, bytes: &[u8], at: usize) -> Result<(Change, usize), TakeFail>
    ensures { Gives result (change_options 11 bytes.now at) }
{
    let (place, at) = place_at(bytes, at)?;
    let (entries, at) = entries_at(alloc, bytes, at)?;
    Ok((Change::JoinPart(place, entries), at))
}

fn rebase_at(alloc: Global, bytes: &[u8], at: usize) -> Result<(Change, usize), TakeFail>
    ensures { Gives result (change_options 13 bytes.now at) }
{
    let (conf, at) = u32_in(bytes, at, 1, LAST_CONF)?;
    let (members, at) = members_at(alloc, bytes, at)?;
    let (place, at) = place_at(bytes, at)?;
    let (base, at) = base_at(alloc, bytes, at)?;
    let members = Shared::new(alloc, members)?;
    Ok((Change::Rebase(conf, members, place, base), at))
}
