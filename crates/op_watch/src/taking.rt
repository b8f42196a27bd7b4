//! Decided entries come to an observer.
ghost use Rattle.std.specs.Prelude.{◌≡◌, ◌≤◌, ◌+◌, length, IfOk, IfSome};
ghost use Rattle.op_types.specs.Changes.{len_of, EndsNowhere};
ghost use Rattle.op_types.specs.Effects.{nothing_plan};
ghost use Rattle.op_types.specs.Limits.{positions_end};
ghost use Rattle.op_protocol.specs.Watching.{takes_shown, shown_batch};
ghost use Rattle.op_plans.specs.Positions.{FitsPositions};
ghost use Rattle.op_watch.specs.Plans as plans;

use op_plans::{Member, is_admitted, without_prefix};
use op_types::{Change, ConfNo, Entries, Entry, NoMemory, Plan};

/// What an observer lacks of decided entries from a position on. What leaves a gap, brings nothing new or is
/// of another configuration is not taken.
pub fn lacking(
    member: &Member,
    conf: ConfNo,
    at: u64,
    entries: Entries,
) -> Result<Option<Entries>, NoMemory>
    requires { FitsPositions member.now.part.now }
    ensures lacks { IfOk result (λ new. new ≡ plans.lacking member.now.part.now conf at entries) }
    ensures room { IfOk result (λ o. IfSome o (λ new.
        len_of member.now.part.now + length new ≤ positions_end)) }
    ensures stops { IfOk result (λ o. IfSome o (EndsNowhere member.now.part.now.conf)) }
{
    if takes_shown(member, conf, at, entries.as_slice()) {
        let count = member.log_len() - at;
        let new = without_prefix(member.alloc, entries, count)?;
        return Ok(Some(new));
    }
    Ok(None)
}

/// Whether entries bring some that it lacks, leave no gap, and may come to its log.
fn takes_shown(member: &Member, conf: ConfNo, at: u64, entries: &[Entry]) -> bool
    requires { FitsPositions member.now.part.now }
    ensures { result ≡ takes_shown member.now.part.now conf at entries.now }
{
    let part = member.part;
    let len = member.log_len();
    part.conf == conf
        && at <= len
        && (len as u128) < at as u128 + entries.len() as u128
        && is_admitted(part, at, entries)
}

/// These entries are stored behind its log, and decided. What stands behind a stop-sign, and what they do to
/// the service, is not said here.
pub fn shown(member: &Member, new: Entries) -> Result<Plan, NoMemory>
    requires positions { FitsPositions member.now.part.now }
    requires room { len_of member.now.part.now + length new ≤ positions_end }
    ensures { IfOk result (λ plan. plan
        ≡ record nothing_plan { batch = shown_batch member.now.part.now new }) }
{
    let end = member.log_len() + new.len() as u64;
    let mut plan = member.nothing();
    plan.batch.push(Change::Append(new))?;
    plan.batch.push(Change::Decided(end))?;
    Ok(plan)
}
