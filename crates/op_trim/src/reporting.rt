//! A follower reports what it has decided.
ghost use Rattle.std.specs.Prelude.{◌≡◌, ◌<◌, IfOk, OnOk};
ghost use Rattle.op_types.specs.declared.role.Role.TheVariants as role;
ghost use Rattle.op_types.specs.declared.turn.Turn.TheVariants as turn;
ghost use Rattle.op_types.specs.RoleStates.{reports_with, with_report};
ghost use Rattle.op_types.specs.Roles.{leading_of, role_of, HasRoom};
ghost use Rattle.op_types.specs.Effects.{nothing_plan, effects_of};
ghost use Rattle.op_protocol.specs.Trimming.{lesser, least_reported, trims_if_all, on_progress};
ghost use Rattle.op_trim.specs.Plans.{trims_plan, report_plan};

use crate::trimming::trims;
use op_plans::Member;
use op_types::{Ballot, Leading, Pid, Plan, Report, Role, Turn, reported_by};
use std::alloc::{AllocError as NoMemory, Global};

/// A follower has decided so much. Once all others have reported, the least of what they and this node have
/// decided is trimmed, and the reports are used up.
pub fn on_progress(
    member: &Member,
    role: &mut Role,
    from: Pid,
    ballot: Ballot,
    decided: u64,
) -> Result<Plan, NoMemory>
    ensures row { IfOk result (λ plan. effects_of role.old plan
        ≡ on_progress member.now.me member.now.part.now (role_of role.old) from ballot decided) }
    ensures role { role_of role.new ≡ role_of role.old }
    ensures room { IfOk result (λ plan. HasRoom plan.turn role.new) }
{
    match role {
        Role::Idle | Role::Preparing(_) => Ok(member.nothing()),
        Role::Leading(leading) => {
            if !ballot.is_same(leading.ballot) {
                return Ok(member.nothing());
            }
            reported(member, leading, Report { from, decided })
        }
    }
}

/// A leader has this report.
fn reported(member: &Member, leading: &mut Leading, report: Report) -> Result<Plan, NoMemory>
    ensures row { IfOk result (λ plan. effects_of (role.Leading leading.old) plan
        ≡ trims_if_all member.now.me member.now.part.now (with_report (leading_of leading.old) report)) }
    ensures role { leading_of leading.new ≡ leading_of leading.old }
    ensures room { IfOk result (λ plan. HasRoom plan.turn (role.Leading leading.new)) }
{
    keep_or_trim(member, leading, report)
}

/// The report is kept, or with it all have reported.
fn keep_or_trim(member: &Member, leading: &mut Leading, report: Report) -> Result<Plan, NoMemory>
    ensures plan { IfOk result (λ plan. plan ≡ report_plan member.now.me member.now.part.now
        (leading_of leading.old).reports report) }
    ensures role { leading_of leading.new ≡ leading_of leading.old }
    ensures room { IfOk result (λ plan. HasRoom plan.turn (role.Leading leading.new)) }
{
    let reports = reports_with(member.alloc, leading.reports.as_slice(), report)?;
    let pids = member.others()?;
    match least_reported(reports.as_slice(), pids.as_slice(), member.part.decided) {
        None => keeps(member, leading, report),
        Some(x) => trims_all(member, x),
    }
}

/// A leader keeps a report.
fn keeps(member: &Member, leading: &mut Leading, report: Report) -> Result<Plan, NoMemory>
    ensures plan { IfOk result (λ plan. plan ≡ record nothing_plan { turn = turn.KeepReport report }) }
    ensures role { leading_of leading.new ≡ leading_of leading.old }
    ensures room { OnOk result (0 < leading.new.reports.room) }
{
    leading.reports.make_room(1)?;
    let mut plan = member.nothing();
    plan.set_turn(Turn::KeepReport(report));
    Ok(plan)
}

/// A leader trims what all have decided, and keeps no report.
fn trims_all(member: &Member, x: u64) -> Result<Plan, NoMemory>
    ensures { IfOk result (λ plan. plan
        ≡ record (trims_plan member.now.me member.now.part.now x) { turn = turn.ClearReports }) }
{
    let mut plan = trims(member, x)?;
    plan.set_turn(Turn::ClearReports);
    Ok(plan)
}

/// The reports with one more, where it is its sender's first or greater than the one before.
fn reports_with(alloc: Global, reports: &[Report], new: Report) -> Result<Vec<Report>, NoMemory>
    ensures { IfOk result (λ all. all.items ≡ reports_with reports.now new) }
{
    if let Some(before) = reported_by(reports, new.from) {
        if new.decided <= before {
            return Ok(Vec::from_slice(alloc, reports)?);
        }
    }
    let mut all = Vec::new(alloc);
    for other in reports {
        if other.from != new.from {
            all.push(*other)?;
        }
    }
    all.push(new)?;
    Ok(all)
}

/// The least of a length and of what these have reported, if all have.
pub(crate) fn least_reported(reports: &[Report], pids: &[Pid], decided: u64) -> Option<u64>
    ensures { result ≡ least_reported reports.now pids.now decided }
{
    match pids {
        [] => Some(decided),
        [first, rest @ ..] => lesser(
            reported_by(reports, *first),
            least_reported(reports, rest, decided),
        ),
    }
}

/// The lesser of two lengths, if both are told.
fn lesser(x: Option<u64>, y: Option<u64>) -> Option<u64>
    ensures { result ≡ lesser x y }
{
    Some(x?.min(y?))
}
