//! Entries that are staged without a gap, when a part has come to them.
ghost use Rattle.std.specs.Prelude.{◌≡◌, ◌≤◌, ◌-◌, ℕ, false, Some, None, is_some, IfOk, IfSome, IfNone};
ghost use Rattle.op_types.specs.Joinings.{held_at, held_with, held_run};
ghost use Rattle.op_types.specs.Rings.{is_first_below};
ghost use Rattle.op_types.specs.Rises.{Rises};
ghost use Rattle.op_types.specs.Stages.{front_up_to};
ghost use Rattle.op_follower.specs.Staging.{brought_at};

use op_types::{Entries, Entry, SyncRun};
use std::alloc::{AllocError as NoMemory, Global};

/// Copies of all entries of a part's accept sync, if none is missing when the part has come. Else nothing is
/// copied.
pub(crate) fn whole_sync(
    alloc: Global,
    staged: &[(u64, Entry)],
    part: &SyncRun,
) -> Result<Option<Entries>, NoMemory>
    requires { Rises staged.now }
    ensures { IfOk result (λ o. o ≡ held_run (held_with staged.now part.now.at part.now.run)
        part.now.start (part.now.end - part.now.start)) }
{
    if !is_whole(staged, part) {
        return Ok(None);
    }
    Ok(Some(front(alloc, staged, part, part.start, part.end)?))
}

/// Whether no entry of a part's accept sync is missing when the part has come.
fn is_whole(staged: &[(u64, Entry)], part: &SyncRun) -> bool
    requires { Rises staged.now }
    ensures { result ≡ is_some (held_run (held_with staged.now part.now.at part.now.run)
        part.now.start (part.now.end - part.now.start)) }
{
    let mut rest = staged;
    for place in part.start..part.end {
        rest = passed_below(rest, place);
        match entry_at(rest, part, place) {
            Some(_) => {}
            None => return false,
        }
    }
    true
}

/// Copies of the entries from a position to another, up to the first gap, when the part has come.
pub(crate) fn front(
    alloc: Global,
    staged: &[(u64, Entry)],
    part: &SyncRun,
    from: u64,
    to: u64,
) -> Result<Entries, NoMemory>
    requires { Rises staged.now }
    ensures { IfOk result (λ entries. entries
        ≡ front_up_to (to - from) (held_with staged.now part.now.at part.now.run) from) }
{
    let mut entries = Entries::new(alloc);
    let mut rest = staged;
    for place in from..to {
        rest = passed_below(rest, place);
        let Some(entry) = entry_at(rest, part, place) else {
            return Ok(entries);
        };
        entries.push(entry.copy()?)?;
    }
    Ok(entries)
}

/// What is staged from a position on.
fn passed_below(staged: &[(u64, Entry)], place: u64) -> &[(u64, Entry)]
    requires { Rises staged.now }
    ensures rising { Rises result.now }
    ensures same { (i : ℕ) → place ≤ i → held_at result.now i ≡ held_at staged.now i }
    ensures passed { is_first_below result.now place ≡ false }
{
    let mut rest = staged;
    while let [first, others @ ..] = rest {
        if place <= first.0 {
            return rest;
        }
        rest = others;
    }
    rest
}

#[tactic(auto, using(crate::proofs::Gaps::stays_at, crate::proofs::Gaps::comes_at))]
/// The entry at a position: the one that is staged, or else the part's. What is staged below it was passed.
fn entry_at<'a>(staged: &'a [(u64, Entry)], part: &'a SyncRun, place: u64) -> Option<&'a Entry>
    requires rising { Rises staged.now }
    requires passed { is_first_below staged.now place ≡ false }
    ensures some { IfSome result (λ e. held_at (held_with staged.now part.now.at part.now.run) place
        ≡ Some e.now) }
    ensures none { IfNone result (held_at (held_with staged.now part.now.at part.now.run) place ≡ None) }
{
    match first_at(staged, place) {
        Some(entry) => Some(entry),
        None => part_entry(part, place),
    }
}

/// The first entry that is staged, where it stands at a position.
fn first_at(staged: &[(u64, Entry)], place: u64) -> Option<&Entry>
    requires rising { Rises staged.now }
    requires passed { is_first_below staged.now place ≡ false }
    ensures some { IfSome result (λ e. held_at staged.now place ≡ Some e.now) }
    ensures none { IfNone result (held_at staged.now place ≡ None) }
{
    match staged {
        [] => None,
        [first, ..] => {
            if first.0 == place {
                Some(&first.1)
            } else {
                None
            }
        }
    }
}

/// The entry that a part brings to a position.
fn part_entry(part: &SyncRun, place: u64) -> Option<&Entry>
    ensures some { IfSome result (λ e. brought_at part.now.at part.now.run place ≡ Some e.now) }
    ensures none { IfNone result (brought_at part.now.at part.now.run place ≡ None) }
{
    if place < part.at {
        return None;
    }
    let run = part.run.as_slice();
    let index = place - part.at;
    if (index as usize) < run.len() {
        Some(&run[index as usize])
    } else {
        None
    }
}
