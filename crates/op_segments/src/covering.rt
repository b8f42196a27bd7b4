//! Whether base and entries cover the closed list.
ghost use Rattle.std.specs.Prelude.{◌≡◌, ◌-◌, ◌++◌, Some, None, IfOk, IfErr, OnOk};
ghost use Rattle.op_types.specs.Joinings.{held_run, cover_of};
ghost use Rattle.op_types.specs.Rises.{Rises};
ghost use Rattle.op_types.specs.Rings.{next_after};
ghost use Rattle.op_segments.specs.Walks.{IsMissing, IsBroken, taken};
ghost use Rattle.op_segments.specs.declared.fail.WholeFail.TheVariants as fails;

use crate::fail::WholeFail;
use op_types::{Entries, Entry, Joining};
use std::alloc::{AllocError as NoMemory, Global};

/// A copy of the closed list behind the base, if base and entries cover it.
pub fn whole(alloc: Global, joining: &Joining) -> Result<Entries, WholeFail>
    ensures whole { IfOk result (λ entries. cover_of joining.now ≡ Some entries) }
    ensures missing { IfErr result (IsMissing joining.now) }
{
    match &joining.base {
        None => Err(WholeFail::NotYet { at: 0 }),
        Some((at, _)) => run_of(alloc, joining.held.as_slice(), *at, joining.len),
    }
}

/// Copies of the entries held from a position to another, if all are.
fn run_of(alloc: Global, items: &[(u64, Entry)], from: u64, to: u64) -> Result<Entries, WholeFail>
    requires { Rises items.now }
    ensures run { IfOk result (λ entries. held_run items.now from (to - from) ≡ Some entries) }
    ensures missing { IfErr result (IsBroken items.now from to) }
{
    let mut entries = Entries::new(alloc);
    let mut next = from;
    for item in items {
        next = walk(alloc, &mut entries, next, to, item)?;
    }
    if next < to {
        return Err(WholeFail::NotYet { at: next });
    }
    Ok(entries)
}

/// Goes past an item, with its entry where it stands at the next position. Tells the position that is next
/// then.
fn walk(
    alloc: Global,
    entries: &mut Entries,
    next: u64,
    to: u64,
    item: &(u64, Entry),
) -> Result<u64, NoMemory>
    ensures next { IfOk result (λ n. n ≡ next_after next to item.now.0) }
    ensures entries { OnOk result (entries.new ≡ entries.old ++ taken next to item.now) }
{
    if next < to && item.0 == next {
        entries.push(item.1.copy()?)?;
        return Ok(next + 1);
    }
    Ok(next)
}
