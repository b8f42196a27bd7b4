ghost use Rattle.std.specs.Prelude.{◌≡◌, ◌≤◌, ◌+◌, ◌-◌, ◌++◌, OnOk, OnErr, IfOk};
ghost use Rattle.op_fields.specs.Prefixes.{KeepsPrefix};
ghost use Rattle.op_fields.specs.Form.{items_read};
ghost use Rattle.op_fields.specs.Items.{GivesItem};
ghost use Rattle.op_fields.specs.Taken.{Gives, GivesVec};
ghost use Rattle.op_types.specs.Ranges.{EntryInRange};
ghost use Rattle.op_types.specs.Rises.{Rises};
ghost use Rattle.op_types.specs.Rooms.{joining_with_room};
ghost use Rattle.op_record.specs.Ranges.{JoiningInRange};
ghost use Rattle.op_record.specs.Forms.{donor, donors, held_base, held_entry, held, pieces, pieces_of, joining};

use crate::base::{base_at, put_base};
use op_entry::{entry_at, members_at, put as put_entry, put_members};
use op_fields::{NoMemory, TakeFail, items_at, put_u8, put_u32, put_u64, u8_in, u32_in, u64_in};
use op_types::{
    Blob, Donors, Entry, GREATEST_PID, Held, Joining, LAST_CONF, MOST_DONORS, POSITIONS_END, Pid,
};
use std::alloc::Global;

/// Appends what is held while joining. Without memory a part of its bytes may be appended.
#[tactic(auto, using(op_fields::proofs::Prefixes::kept_through))]
pub fn put_joining(out: &mut Vec<u8>, j: &Joining) -> Result<(), NoMemory>
    requires { JoiningInRange (joining_with_room 0 j.now) }
    ensures ok { OnOk result (out.new.items ≡ out.old.items ++ joining.text (joining_with_room 0 j.now)) }
    ensures err { OnErr result (KeepsPrefix out.old.items out.new.items) }
{
    put_u32(out, j.conf)?;
    put_members(out, &j.members)?;
    put_members(out, &j.olds)?;
    put_u64(out, j.len)?;
    put_pieces(out, j)
}

/// Appends donors, base and entries.
#[tactic(auto, using(op_fields::proofs::Prefixes::kept_through))]
fn put_pieces(out: &mut Vec<u8>, j: &Joining) -> Result<(), NoMemory>
    requires { JoiningInRange (joining_with_room 0 j.now) }
    ensures ok { OnOk result (out.new.items ≡ out.old.items ++ (pieces j.now.len).text (pieces_of j.now)) }
    ensures err { OnErr result (KeepsPrefix out.old.items out.new.items) }
{
    put_donors(out, j)?;
    put_held_base(out, j)?;
    put_held(out, j)
}

#[tactic(auto, using(op_fields::proofs::Prefixes::kept_through))]
fn put_donors(out: &mut Vec<u8>, j: &Joining) -> Result<(), NoMemory>
    ensures ok { OnOk result (out.new.items ≡ out.old.items ++ (donors j.now.len).text j.now.donors) }
    ensures err { OnErr result (KeepsPrefix out.old.items out.new.items) }
{
    put_u8(out, j.donors.len() as u8)?;
    'donors: for d in j.donors.as_slice() {
        put_donor(out, *d)?;
    }
    Ok(())
}

#[tactic(auto, using(op_fields::proofs::Prefixes::kept_through))]
fn put_donor(out: &mut Vec<u8>, d: (Pid, u64)) -> Result<(), NoMemory>
    ensures ok { OnOk result (out.new.items ≡ out.old.items ++ (donor 0 0).text d) }
    ensures err { OnErr result (KeepsPrefix out.old.items out.new.items) }
{
    put_u32(out, d.0)?;
    put_u64(out, d.1)
}

#[tactic(auto, using(op_fields::proofs::Prefixes::kept_through))]
fn put_held_base(out: &mut Vec<u8>, j: &Joining) -> Result<(), NoMemory>
    ensures ok { OnOk result (out.new.items ≡ out.old.items ++ (held_base j.now.len).text j.now.base) }
    ensures err { OnErr result (KeepsPrefix out.old.items out.new.items) }
{
    match &j.base {
        None => put_u8(out, 0),
        Some(base) => {
            put_u8(out, 1)?;
            put_u64(out, base.0)?;
            put_base(out, &base.1)
        }
    }
}

#[tactic(auto, using(op_fields::proofs::Prefixes::kept_through))]
fn put_held(out: &mut Vec<u8>, j: &Joining) -> Result<(), NoMemory>
    requires { JoiningInRange (joining_with_room 0 j.now) }
    ensures ok { OnOk result (out.new.items ≡ out.old.items ++ (held j.now.len).text j.now.held.items) }
    ensures err { OnErr result (KeepsPrefix out.old.items out.new.items) }
{
    put_u64(out, j.held.len() as u64)?;
    'held: for x in j.held.as_slice() {
        put_held_entry(out, x)?;
    }
    Ok(())
}

#[tactic(auto, using(op_fields::proofs::Prefixes::kept_through))]
fn put_held_entry(out: &mut Vec<u8>, x: &(u64, Entry)) -> Result<(), NoMemory>
    requires { EntryInRange x.now.1 }
    ensures ok { OnOk result (out.new.items ≡ out.old.items ++ (held_entry 0 0).text x.now) }
    ensures err { OnErr result (KeepsPrefix out.old.items out.new.items) }
{
    put_u64(out, x.0)?;
    put_entry(out, &x.1)
}

/// What is held while joining at a byte offset, with no room in its entries, and the offset after it.
pub fn joining_at(alloc: Global, bytes: &[u8], at: usize) -> Result<(Joining, usize), TakeFail>
    ensures { Gives result (joining.read bytes.now at) }
{
    let (conf, at) = u32_in(bytes, at, 2, LAST_CONF)?;
    let (members, at) = members_at(alloc, bytes, at)?;
    let (olds, at) = members_at(alloc, bytes, at)?;
    let (len, at) = u64_in(bytes, at, 1, POSITIONS_END)?;
    let (donors, at) = donors_at(alloc, bytes, at, len)?;
    let (base, at) = held_base_at(alloc, bytes, at, len)?;
    let (items, at) = held_at(alloc, bytes, at, len)?;
    let joining = Joining {
        conf,
        members,
        olds,
        len,
        donors,
        base,
        held: Held::from_vec(alloc, items)?,
    };
    Ok((joining, at))
}

fn donors_at(alloc: Global, bytes: &[u8], at: usize, len: u64) -> Result<(Donors, usize), TakeFail>
    ensures { Gives result ((donors len).read bytes.now at) }
{
    let (count, at) = u8_in(bytes, at, 0, MOST_DONORS as u8)?;
    let (items, at) = donor_items_at(alloc, count, bytes, at, len)?;
    Ok((donors_of(alloc, items.as_slice())?, at))
}

/// These donors, if they are few enough.
fn donors_of(alloc: Global, items: &[(Pid, u64)]) -> Result<Donors, NoMemory>
    ensures { IfOk result (λ donors. donors ≡ items.now) }
{
    let mut donors = Donors::new(alloc)?;
    'items: for d in items {
        donors.push(d.0, d.1)?;
    }
    Ok(donors)
}

fn donor_items_at(
    alloc: Global,
    count: u8,
    bytes: &[u8],
    first: usize,
    len: u64,
) -> Result<(Vec<(Pid, u64)>, usize), TakeFail>
    ensures { GivesVec result (items_read (donor len) (λ d. d.0) count 0 bytes.now first) }
{
    items_at(
        alloc,
        count as u64,
        first,
        |at, low|
            ensures { GivesItem (λ d. d.0) result ((donor len low).read bytes.entry.now at) }
        {
            let (d, next) = donor_at(bytes, at, low, len)?;
            Ok((d, d.0 as u64, next))
        },
    )
}

fn donor_at(bytes: &[u8], at: usize, low: u64, len: u64) -> Result<((Pid, u64), usize), TakeFail>
    ensures { Gives result ((donor len low).read bytes.now at) }
{
    let (id, next) = u32_in(bytes, at, 1, GREATEST_PID)?;
    if id as u64 <= low {
        return Err(TakeFail::Bad { at });
    }
    let (trimmed, next) = u64_in(bytes, next, 0, len)?;
    Ok(((id, trimmed), next))
}

fn held_base_at(
    alloc: Global,
    bytes: &[u8],
    at: usize,
    len: u64,
) -> Result<(Option<(u64, Blob)>, usize), TakeFail>
    ensures { Gives result ((held_base len).read bytes.now at) }
{
    let (flag, at) = u8_in(bytes, at, 0, 1)?;
    if flag == 0 {
        return Ok((None, at));
    }
    let (place, at) = u64_in(bytes, at, 0, len)?;
    let (base, at) = base_at(alloc, bytes, at)?;
    Ok((Some((place, base)), at))
}

/// The entries that are held, and the offset after them.
fn held_at(
    alloc: Global,
    bytes: &[u8],
    at: usize,
    len: u64,
) -> Result<(Vec<(u64, Entry)>, usize), TakeFail>
    ensures read { GivesVec result ((held len).read bytes.now at) }
    ensures rising { IfOk result (λ x. Rises x.0.items) }
{
    let (count, at) = u64_in(bytes, at, 0, POSITIONS_END)?;
    held_items_at(alloc, count, bytes, at, len)
}

fn held_items_at(
    alloc: Global,
    count: u64,
    bytes: &[u8],
    first: usize,
    len: u64,
) -> Result<(Vec<(u64, Entry)>, usize), TakeFail>
    ensures read { GivesVec result (items_read (held_entry len) (λ x. x.0 + 1) count 0 bytes.now first) }
    ensures rising { IfOk result (λ x. Rises x.0.items) }
{
    items_at(
        alloc,
        count,
        first,
        |at, low|
            ensures { GivesItem (λ x. x.0 + 1) result ((held_entry len low).read bytes.entry.now at) }
        {
            let (x, next) = held_entry_at(alloc, bytes, at, low, len)?;
            let after = x.0 + 1;
            Ok((x, after, next))
        },
    )
}

fn held_entry_at(
    alloc: Global,
    bytes: &[u8],
    at: usize,
    low: u64,
    len: u64,
) -> Result<((u64, Entry), usize), TakeFail>
    ensures read { Gives result ((held_entry len low).read bytes.now at) }
    ensures range { IfOk result (λ x. x.0.0 ≤ len - 1) }
{
    let (place, at) = u64_in(bytes, at, low, len.saturating_sub(1))?;
    let (entry, at) = entry_at(alloc, bytes, at)?;
    Ok(((place, entry), at))
}
