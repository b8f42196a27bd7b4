//! What came so far of promises that come in parts.
ghost use Rattle.std.specs.Prelude.{◌≡◌, ◌≤◌, ◌<◌, ◌^◌, ◌+◌, [], true, length, map, is_some, Some, IfOk};
ghost use Rattle.op_types.specs.Rises.{Rises};
ghost use Rattle.op_types.specs.RoleStates.{told_by};
ghost use Rattle.op_types.specs.Roles.{stage_view, stage_or};
ghost use Rattle.op_leader.specs.Completing.{IsRun, staged_of, whole_with};

use op_types::{Entries, Entry, Held, Pid, Promised, PromisedRun, Reserved, Seq, Stage, covers};
use std::alloc::{AllocError as NoMemory, Global};
use std::mem;

/// Makes room for a number of entries more in a sender's stage, where it has one; what is staged stays. Gives
/// an empty stage, which has the room where the sender has none.
pub(crate) fn make_stage_room(
    alloc: Global,
    stages: &mut Reserved<Stage>,
    from: Pid,
    count: usize,
) -> Result<Held, NoMemory>
    ensures same { map stage_view stages.new.items ≡ map stage_view stages.old.items }
    ensures empty { IfOk result (λ fresh. fresh.items ≡ []) }
    ensures room { IfOk result (λ fresh. count ≤ (stage_or stages.new.items from fresh).room) }
{
    let mut items = mem::replace(stages, Reserved::new(alloc))
        .into_seq()
        .into_vec();
    let fresh = make_room_among(alloc, items.as_mut_slice(), from, count);
    *stages = Reserved::from_seq(Seq::from_vec(items));
    fresh
}

/// The same, among these stages.
fn make_room_among(
    alloc: Global,
    stages: &mut [Stage],
    from: Pid,
    count: usize,
) -> Result<Held, NoMemory>
    ensures same { map stage_view stages.new ≡ map stage_view stages.old }
    ensures empty { IfOk result (λ fresh. fresh.items ≡ []) }
    ensures room { IfOk result (λ fresh. count ≤ (stage_or stages.new from fresh).room) }
{
    match stages.split_first_mut() {
        None => {
            let mut fresh = Held::new(alloc);
            fresh.make_room(count)?;
            Ok(fresh)
        }
        Some((first, rest)) => {
            if first.from == from {
                first.held.make_room(count)?;
                Ok(Held::new(alloc))
            } else {
                make_room_among(alloc, rest, from, count)
            }
        }
    }
}

/// The entries that came so far of a sender's promise, each with its position.
fn staged(stages: &[Stage], from: Pid) -> &[(u64, Entry)]
    ensures items { result.now ≡ staged_of stages.now from }
    ensures rising { Rises result.now }
{
    match stages {
        [] => &[],
        [first, rest @ ..] => {
            if first.from == from {
                first.held.as_slice()
            } else {
                staged(rest, from)
            }
        }
    }
}

/// A copy of what came so far of a sender's promise.
fn copy_stage(alloc: Global, stages: &[Stage], from: Pid) -> Result<Held, NoMemory>
    ensures { IfOk result (λ held. held.items ≡ staged_of stages.now from) }
{
    match stages {
        [] => Ok(Held::new(alloc)),
        [first, rest @ ..] => {
            if first.from == from {
                first.held.copy(alloc)
            } else {
                copy_stage(alloc, rest, from)
            }
        }
    }
}

/// Whether a part completes its sender's promise: what is staged reaches from the promise's start to the run,
/// and from there to the end. It takes no memory.
pub(crate) fn completes(stages: &[Stage], from: Pid, part: &PromisedRun) -> bool
    requires { IsRun part.now }
    ensures { result ≡ is_some (whole_with (staged_of stages.now from) part.now) }
{
    let items = staged(stages, from);
    let end = part.at + part.run.len() as u64;
    covers(items, part.start, part.at) && covers(items, end, part.len)
}

/// The whole promise that a part is of, with these entries.
pub(crate) fn told_by(from: Pid, part: &PromisedRun, entries: Entries) -> Promised
    ensures { result ≡ told_by from part.now entries }
{
    Promised {
        from,
        accepted: part.accepted,
        len: part.len,
        decided: part.decided,
        start: part.start,
        entries,
    }
}

/// The promise that a part completes: what is staged is copied, and the part's own entries are moved.
pub(crate) fn whole_promise(
    alloc: Global,
    stages: &[Stage],
    from: Pid,
    part: PromisedRun,
) -> Result<Promised, NoMemory>
    requires run { IsRun part }
    requires whole { is_some (whole_with (staged_of stages.now from) part) ≡ true }
    ensures entries { IfOk result (λ k. whole_with (staged_of stages.now from) part ≡ Some k.entries) }
    ensures told { IfOk result (λ k. k ≡ told_by from part k.entries) }
{
    let mut held = copy_stage(alloc, stages, from)?;
    held.make_room(part.run.len())?;
    let told = told_by(from, &part, Entries::new(alloc));
    held.fill(part.at, part.run);
    let entries = held.into_entries(told.start, told.len);
    Ok(Promised { entries, ..told })
}
