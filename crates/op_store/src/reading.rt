//! Two areas' bytes are read: what the chosen one's records make, one after the other.
ghost use Rattle.std.specs.Prelude.{◌≡◌, ◌≢◌, ◌↔◌, IsTrue, ◌<◌, ◌+◌, ◌-◌, ◌^◌, ℕ, List, Some, IfOk, IfErr, IfSome, IfNone};
ghost use Rattle.op_types.specs.Changes.{Applies, durable_after};
ghost use Rattle.op_types.specs.declared.changes.Change.{Change};
ghost use Rattle.op_types.specs.declared.durable.Durable.{Durable};
ghost use Rattle.op_record.specs.declared.body.Rec.TheVariants.{Whole, Step};
ghost use Rattle.op_journal.specs.Rows.{IsBegun};
ghost use Rattle.op_journal.specs.Failing.{IfDamaged, IfFault};
ghost use Rattle.op_store.specs.Records.{IsBodyIn, IsKnown, Makes};
ghost use Rattle.op_store.specs.Stored.{IsStuck};
ghost use Rattle.op_journal.specs.declared.head.Head.{Head};
ghost use Rattle.op_record.specs.declared.body.Rec.{Rec};
ghost use Rattle.op_store.specs.Readings.{IsRowFor, StopsAt, IsDamageOf, IsNewerOf, IsRead};
ghost use Rattle.op_store.specs.Failing.{IsToldOrNoMemory};
ghost use Rattle.op_types.specs.Rooms.{IsAtRest};

use crate::choosing::{Choice, choose, chosen_of};
use crate::fail::{StoreFail, cause_of};
use op_fields::{NoMemory, TakeFail};
use op_journal::{Head, Journal, JournalFail, Version};
use op_record::{Rec, take};
use op_types::Durable;
use std::alloc::Global;

/// An area of the last generation has no next one.
const LAST_GENERATION: u64 = (1 << 62) - 1;

/// What the bytes of two disks hold.
#[derive(Drop)]
pub enum Reading {
    /// An area is chosen.
    Area {
        /// Whether it is on the second disk.
        is_second: bool,
        /// What its header says.
        head: Head,
        /// The durable state that its records make.
        durable: Durable,
        /// The byte offset of its closed gate.
        end: u64,
        /// Its length right after its format.
        base: u64,
        /// Whether a closed gate stands before more bytes of the other disk.
        is_closed: bool,
    },
    /// No area.
    New {
        /// Whether a closed gate stands before more bytes of the first disk.
        is_closed: bool,
        /// The same of the second disk.
        is_other_closed: bool,
    },
}

/// What the bytes of two disks hold. No disk fault comes.
pub fn read(alloc: Global, first: &[u8], second: &[u8]) -> Result<Reading, StoreFail>
    ensures found { IfOk result (IsRead first.now second.now) }
    ensures undamaged { IfOk result (λ _. (area at : ℕ) → IsDamageOf first.now second.now area at → ⊥) }
    ensures not_newer { IfOk result (λ _. (area version : ℕ) →
        IsNewerOf first.now second.now area version → ⊥) }
    ensures damaged { IfErr result (IsToldOrNoMemory first.now second.now) }
{
    match choose(first, second)? {
        Choice::Neither {
            is_closed,
            is_other_closed,
        } => Ok(Reading::New {
            is_closed,
            is_other_closed,
        }),
        Choice::Area {
            is_second,
            head,
            start,
            is_closed,
        } => {
            if is_stuck(head) {
                return Err(StoreFail::Damaged {
                    area: is_second as u8,
                    at: 0,
                });
            }
            let bytes = chosen_of(is_second, first, second);
            match durable_of(alloc, head.version, bytes, start) {
                Ok((durable, end, base)) => Ok(Reading::Area {
                    is_second,
                    head,
                    durable,
                    end,
                    base,
                    is_closed,
                }),
                Err(fail) => Err(cause_of(fail, is_second as u8, 0)),
            }
        }
    }
}

/// Whether an area can't be carried over: it is of the first version, and there is no next generation.
fn is_stuck(head: Head) -> bool
    ensures { IsTrue result ↔ IsStuck head }
{
    match head.version {
        Version::One => head.generation == LAST_GENERATION,
        Version::Two => false,
    }
}

/// What the records after a header make, from the first one on, the byte offset of the closed gate after
/// them, and the area's length with the first of them alone.
fn durable_of(
    alloc: Global,
    version: Version,
    bytes: &[u8],
    first: usize,
) -> Result<(Durable, u64, u64), JournalFail>
    requires { (head : Head) × IsBegun head first bytes.now }
    ensures found { IfOk result (λ r. IsRowFor version bytes.now r.1 r.2 r.0) }
    ensures damaged { IfDamaged result (StopsAt version bytes.now) }
    ensures no_fault { IfFault result (λ _. ⊥) }
{
    let mut made = None;
    let mut at = first;
    let mut base = 0;
    'records: while let Some((body, next)) = Journal::record_at(bytes, at)? {
        let Some(durable) = after_record(alloc, version, made, body)? else {
            return Err(JournalFail::Damaged { at: at as u64 });
        };
        made = Some(durable);
        base = base_after(base, next);
        at = next;
    }
    match made {
        Some(durable) => Ok((durable, at as u64, base)),
        None => unreachable!(),
    }
}

/// The area's length with its first record alone, once a record ends at this byte offset.
fn base_after(base: u64, next: usize) -> u64
    requires { next < 2 ^ 64 - 1 }
    ensures first { base ≡ 0 → result ≡ next + 1 }
    ensures later { base ≢ 0 → result ≡ base }
{
    if base == 0 {
        return next as u64 + 1;
    }
    base
}

/// What a record makes of what those before it made, or none where it makes nothing.
fn after_record(
    alloc: Global,
    version: Version,
    made: Option<Durable>,
    body: &[u8],
) -> Result<Option<Durable>, NoMemory>
    requires { IfSome made IsAtRest }
    ensures makes { IfOk result (λ o. IfSome o (λ d. Makes version made body.now d)) }
    ensures room { IfOk result (λ o. IfSome o IsAtRest) }
    ensures none { IfOk result (λ o. IfNone o ((d : Durable) → Makes version made body.now d → ⊥)) }
{
    let Some(said) = take_in(alloc, version, body)? else {
        return Ok(None);
    };
    match made {
        None => Ok(whole_in(said)),
        Some(durable) => after_step(durable, said),
    }
}

/// The record whose body these bytes are in an area of this version, if they are one.
fn take_in(alloc: Global, version: Version, body: &[u8]) -> Result<Option<Rec>, NoMemory>
    ensures found { IfOk result (λ o. IfSome o (λ r. IsBodyIn version r body.now)) }
    ensures none { IfOk result (λ o. IfNone o ((r : Rec) → IsBodyIn version r body.now → ⊥)) }
{
    match take(alloc, body) {
        Ok(said) => Ok(known(version, said)),
        Err(TakeFail::Bad { .. }) => Ok(None),
        Err(TakeFail::NoMemory) => Err(NoMemory),
    }
}

/// This record, if areas of this version can hold it.
fn known(version: Version, said: Rec) -> Option<Rec>
    ensures found { IfSome result (λ r. (r ≡ said) × IsKnown version said) }
    ensures none { IfNone result (IsKnown version said → ⊥) }
{
    match version {
        Version::One => {
            if !said.is_first() {
                return None;
            }
            Some(said)
        }
        Version::Two => Some(said),
    }
}

/// The whole durable state that a record says, or none where it says a step.
fn whole_in(said: Rec) -> Option<Durable>
    ensures found { IfSome result (λ d. said ≡ Whole d) }
    ensures none { IfNone result ((d : Durable) → said ≡ Whole d → ⊥) }
{
    match said {
        Rec::Whole(durable) => Some(durable),
        Rec::Step(_batch) => None,
    }
}

/// What the step that a record says makes of a durable state, or none where it doesn't apply or the record
/// says none.
fn after_step(durable: Durable, said: Rec) -> Result<Option<Durable>, NoMemory>
    requires { IsAtRest durable }
    ensures applied { IfOk result (λ o. IfSome o (λ d. (batch : List Change) ×
        (said ≡ Step batch) × Applies durable batch × (d ≡ durable_after durable batch))) }
    ensures room { IfOk result (λ o. IfSome o IsAtRest) }
    ensures none { IfOk result (λ o. IfNone o ((batch : List Change) →
        said ≡ Step batch → Applies durable batch → ⊥)) }
{
    let Rec::Step(batch) = said else {
        return Ok(None);
    };
    match durable.after(batch) {
        Ok(after) => Ok(after),
        Err(_) => Err(NoMemory),
    }
}
