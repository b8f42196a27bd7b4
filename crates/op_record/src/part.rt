ghost use Rattle.std.specs.Prelude.{◌≡◌, ◌≤◌, ◌^◌, ◌++◌, length, OnOk, OnErr, IfOk};
ghost use Rattle.op_fields.specs.Prefixes.{KeepsPrefix};
ghost use Rattle.op_fields.specs.Form.{items_read};
ghost use Rattle.op_fields.specs.Items.{GivesItem};
ghost use Rattle.op_fields.specs.Taken.{Gives, GivesVec};
ghost use Rattle.op_types.specs.Rooms.{part_with_room};
ghost use Rattle.op_record.specs.Behind.{decided_behind, part_behind};
ghost use Rattle.op_record.specs.Ranges.{PartInRange};
ghost use Rattle.op_record.specs.Forms.{may_stand, entry_in, entries_in, place, log, log_of_part, part};

use crate::base::{base_at, put_base};
use crate::entries::put_joined;
use op_entry::{ballot_at, entry_at, members_at, put_ballot, put_members};
use op_fields::{NoMemory, TakeFail, items_at, put_u32, put_u64, u32_in, u64_in};
use op_types::{ConfNo, Entries, Entry, LAST_CONF, POSITIONS_END, Part, Reserved, Seq};
use std::alloc::Global;

/// Appends a part with these entries behind its log, and so much decided, if that is named. The room that is
/// reserved in it is no matter. Without memory a part of its bytes may be appended.
#[tactic(auto, using(op_fields::proofs::Prefixes::kept_through))]
pub fn put_part(
    out: &mut Vec<u8>,
    p: &Part,
    added: &[Entry],
    decided: Option<u64>,
) -> Result<(), NoMemory>
    requires { PartInRange (part_behind (part_with_room 0 p.now) added.now decided) }
    ensures ok { OnOk result (out.new.items ≡ out.old.items
        ++ part.text (part_behind (part_with_room 0 p.now) added.now decided)) }
    ensures err { OnErr result (KeepsPrefix out.old.items out.new.items) }
{
    put_u32(out, p.conf)?;
    put_members(out, &p.members)?;
    put_ballot(out, p.promised)?;
    put_ballot(out, p.accepted)?;
    put_base(out, &p.base)?;
    put_log(out, p, added, decided)
}

#[tactic(auto, using(op_fields::proofs::Prefixes::kept_through))]
fn put_log(
    out: &mut Vec<u8>,
    p: &Part,
    added: &[Entry],
    decided: Option<u64>,
) -> Result<(), NoMemory>
    requires { PartInRange (part_behind (part_with_room 0 p.now) added.now decided) }
    ensures ok { OnOk result (out.new.items ≡ out.old.items
        ++ (log p.now.conf).text (log_of_part (part_behind p.now added.now decided))) }
    ensures err { OnErr result (KeepsPrefix out.old.items out.new.items) }
{
    put_u64(out, p.trimmed)?;
    put_joined(out, p.tail.as_slice(), added)?;
    put_u64(out, decided_behind(p, decided))
}

/// How much is decided: as much as is named, or else as much as there was.
fn decided_behind(p: &Part, decided: Option<u64>) -> u64
    ensures { result ≡ decided_behind p.now decided }
{
    match decided {
        Some(len) => len,
        None => p.decided,
    }
}

/// The part at a byte offset, with no room reserved in its tail, and the offset after it.
pub fn part_at(alloc: Global, bytes: &[u8], at: usize) -> Result<(Part, usize), TakeFail>
    ensures { Gives result (part.read bytes.now at) }
{
    let (conf, at) = u32_in(bytes, at, 1, LAST_CONF)?;
    let (members, at) = members_at(alloc, bytes, at)?;
    let (promised, at) = ballot_at(bytes, at)?;
    let (accepted, at) = ballot_at(bytes, at)?;
    let (base, at) = base_at(alloc, bytes, at)?;
    let ((trimmed, (tail, decided)), at) = log_at(alloc, bytes, at, conf)?;
    let part = Part {
        conf,
        members,
        promised,
        accepted,
        base,
        trimmed,
        tail: Reserved::from_seq(tail),
        decided,
    };
    Ok((part, at))
}

/// How much is trimmed, the entries after it, and how much is decided.
type Log = (u64, (Entries, u64));

fn log_at(alloc: Global, bytes: &[u8], at: usize, conf: ConfNo) -> Result<(Log, usize), TakeFail>
    ensures { Gives result ((log conf).read bytes.now at) }
{
    let (trimmed, at) = place_at(bytes, at)?;
    let (tail, at) = entries_in_at(alloc, bytes, at, conf, POSITIONS_END - trimmed)?;
    let end = trimmed + tail.len() as u64;
    let (decided, at) = u64_in(bytes, at, trimmed, end)?;
    Ok(((trimmed, (tail, decided)), at))
}

/// The position at a byte offset, and the offset after it.
pub fn place_at(bytes: &[u8], at: usize) -> Result<(u64, usize), TakeFail>
    ensures read { Gives result (place.read bytes.now at) }
    ensures range { IfOk result (λ x. x.0 ≤ 2 ^ 62) }
{
    u64_in(bytes, at, 0, POSITIONS_END)
}

/// The entries of a configuration at a byte offset, if there are at most `most`, and the offset after them.
fn entries_in_at(
    alloc: Global,
    bytes: &[u8],
    at: usize,
    conf: ConfNo,
    most: u64,
) -> Result<(Entries, usize), TakeFail>
    ensures read { Gives result ((entries_in conf most).read bytes.now at) }
    ensures range { IfOk result (λ x. length x.0 ≤ most) }
{
    let (count, at) = u64_in(bytes, at, 0, most)?;
    let (items, at) = entry_items_in_at(alloc, conf, count, bytes, at)?;
    Ok((Seq::from_vec(items), at))
}

fn entry_items_in_at(
    alloc: Global,
    conf: ConfNo,
    count: u64,
    bytes: &[u8],
    first: usize,
) -> Result<(Vec<Entry>, usize), TakeFail>
    ensures { GivesVec result (items_read (λ _. entry_in conf) (λ _. 0) count 0 bytes.now first) }
{
    items_at(
        alloc,
        count,
        first,
        |at, _|
            ensures { GivesItem (λ _. 0) result ((entry_in conf).read bytes.entry.now at) }
        {
            let (entry, next) = entry_in_at(alloc, bytes, at, conf)?;
            Ok((entry, 0, next))
        },
    )
}

/// The entry of a configuration at a byte offset, and the offset after it.
fn entry_in_at(
    alloc: Global,
    bytes: &[u8],
    at: usize,
    conf: ConfNo,
) -> Result<(Entry, usize), TakeFail>
    ensures { Gives result ((entry_in conf).read bytes.now at) }
{
    let (entry, next) = entry_at(alloc, bytes, at)?;
    if may_stand(conf, &entry) {
        Ok((entry, next))
    } else {
        Err(TakeFail::Bad { at })
    }
}

/// Whether an entry may stand in a configuration: the last one has no stop-sign.
fn may_stand(conf: ConfNo, entry: &Entry) -> bool
    ensures { result ≡ may_stand conf entry.now }
{
    match entry {
        Entry::Command(_) => true,
        Entry::Stop(_) => conf != LAST_CONF,
    }
}
