//! A change of a role, whose room is made before it is adopted.
ghost use Rattle.std.specs.Prelude.{◌≡◌, ◌==◌, not, filter, nat_eq};
ghost use Rattle.std.specs.Set.{is_member};
ghost use Rattle.op_types.specs.RoleStates.{acknowledged_of, with_promise, with_part, without_stage, with_buffered, with_synced, without_synced, with_acknowledged, report_of, is_news, with_report, without_reports};
ghost use Rattle.op_types.specs.Roles.{role_of, turned, if_preparing, if_leading, HasRoom, RoomToKeep, RoomToKeepPart, RoomToBuffer, RoomToSync, RoomToAcknowledge, RoomToReport};

use crate::staging::remove_stages;
use crate::{
    Acknowledged, Ballot, Buffer, ConfNo, ElectionState, Entries, Heard, Held, Pid, Piece, Pieces,
    Promised, PromisedRun, Report, Reserved, Role,
};

/// What a step changes of what a node keeps in memory of its part: of its role, its heartbeat round or its
/// election.
#[derive(Drop)]
pub enum Turn {
    /// Nothing changes.
    Stay,
    /// The node takes this role, and gives up its own.
    Become(Role),
    /// A node that prepares keeps a promise.
    Keep(Promised),
    /// A node that prepares keeps a part of a sender's promise, and the promise once all of it is there. The
    /// entries go to the sender's stage, or into this one, which has room for them and is empty.
    KeepPart(Pid, PromisedRun, Held),
    /// A node that prepares lets go of what came of a sender's promise.
    DropParts(Pid),
    /// A node that prepares keeps proposals.
    Buffer(Buffer),
    /// A leader syncs a follower.
    Sync(Pid),
    /// A leader's session with a follower ended.
    Unsync(Pid),
    /// A follower acknowledged a length.
    Acknowledge(Acknowledged),
    /// A leader keeps a follower's report of what it has decided.
    KeepReport(Report),
    /// A leader keeps no report.
    ClearReports,
    /// The node goes on in another configuration, or without one: all that it keeps in memory of its part
    /// begins anew.
    Renew,
    /// A follower stages entries of its leader's log, from a position on; of all that is staged, what stands
    /// below the second position leaves.
    Stage(u64, Entries, u64),
    /// A node that joins stages a piece of a base: among those before it, or as the first of these.
    StagePiece(Piece, Option<Pieces>),
    /// An observer stages a piece of a base of this configuration: among those before it, or as the first of
    /// these.
    StageBase(ConfNo, Piece, Option<Pieces>),
    /// No piece of a base is staged.
    DropPieces,
    /// A heartbeat reply of the current round is kept.
    Hear(Heard),
    /// Elections begin at this ballot from now on, unless they begin above it already.
    RaiseFloor(Ballot),
    /// A heartbeat round ended so, and the next one begins; an own ballot that was elected is led.
    NextRound(ElectionState, Option<Role>),
}

impl Turn {
    /// Changes the role, in the room that was made. It takes no memory and can't fail.
    pub fn adopt(self, role: &mut Role)
        requires { HasRoom self role.old }
        ensures { role_of role.new ≡ turned self (role_of role.old) }
    {
        match self {
            Turn::Stay
            | Turn::Stage(_, _, _)
            | Turn::StagePiece(_, _)
            | Turn::StageBase(_, _, _)
            | Turn::DropPieces
            | Turn::Hear(_)
            | Turn::RaiseFloor(_)
            | Turn::NextRound(_, None) => {}
            Turn::Become(next) | Turn::NextRound(_, Some(next)) => *role = next,
            Turn::Renew => *role = Role::Idle,
            Turn::Keep(promised) => keep(role, promised),
            Turn::KeepPart(from, part, fresh) => keep_part(role, from, part, fresh),
            Turn::DropParts(from) => drop_parts(role, from),
            Turn::Buffer(buffered) => buffer(role, buffered),
            Turn::Sync(pid) => sync(role, pid),
            Turn::Unsync(pid) => unsync(role, pid),
            Turn::Acknowledge(acknowledged) => acknowledge(role, acknowledged),
            Turn::KeepReport(report) => keep_report(role, report),
            Turn::ClearReports => clear_reports(role),
        }
    }
}

fn keep_part(role: &mut Role, from: Pid, part: PromisedRun, fresh: Held)
    requires { RoomToKeepPart from part fresh role.old }
    ensures { role_of role.new ≡ if_preparing (λ r. with_part r from part) (role_of role.old) }
{
    if let Role::Preparing(preparing) = role {
        preparing.keep_part(from, part, fresh);
    }
}

fn drop_parts(role: &mut Role, from: Pid)
    ensures { role_of role.new ≡ if_preparing (λ r. without_stage r from) (role_of role.old) }
{
    if let Role::Preparing(preparing) = role {
        remove_stages(&mut preparing.stages, from);
    }
}

fn keep(role: &mut Role, promised: Promised)
    requires { RoomToKeep role.old }
    ensures { role_of role.new ≡ if_preparing (λ r. with_promise r promised) (role_of role.old) }
{
    if let Role::Preparing(preparing) = role {
        remove_promise(&mut preparing.promises, promised.from);
        preparing.promises.add(promised);
    }
}

/// Removes a sender's promise, if there is one.
pub(crate) fn remove_promise(promises: &mut Reserved<Promised>, from: Pid)
    ensures items { promises.new.items ≡ filter (λ j. not (j.from == from)) promises.old.items }
    ensures room { promises.new.room ≡ promises.old.room }
{
    promises.retain(|promised| promised.from != from);
}

fn buffer(role: &mut Role, buffered: Buffer)
    requires { RoomToBuffer buffered role.old }
    ensures { role_of role.new ≡ if_preparing (λ r. with_buffered r buffered) (role_of role.old) }
{
    if let Role::Preparing(preparing) = role {
        preparing.buffer.add_all(buffered);
    }
}

fn sync(role: &mut Role, pid: Pid)
    requires { RoomToSync role.old }
    ensures { role_of role.new ≡ if_leading (λ l. with_synced l pid) (role_of role.old) }
{
    if let Role::Leading(leading) = role {
        if !is_among(leading.synced.as_slice(), pid) {
            leading.synced.add(pid);
        }
    }
}

/// Whether an id is among these.
pub fn is_among(pids: &[Pid], pid: Pid) -> bool
    ensures { result ≡ is_member nat_eq pids.now pid }
{
    match pids {
        [] => false,
        [first, rest @ ..] => pid == *first || is_among(rest, pid),
    }
}

fn unsync(role: &mut Role, pid: Pid)
    ensures { role_of role.new ≡ if_leading (λ l. without_synced l pid) (role_of role.old) }
{
    if let Role::Leading(leading) = role {
        remove_pid(&mut leading.synced, pid);
    }
}

/// Removes an id, if it is there.
fn remove_pid(pids: &mut Reserved<Pid>, pid: Pid)
    ensures items { pids.new.items ≡ filter (λ p. not (p == pid)) pids.old.items }
    ensures room { pids.new.room ≡ pids.old.room }
{
    pids.retain(|other| *other != pid);
}

fn acknowledge(role: &mut Role, acknowledged: Acknowledged)
    requires { RoomToAcknowledge role.old }
    ensures { role_of role.new ≡ if_leading (λ l. with_acknowledged l acknowledged) (role_of role.old) }
{
    if let Role::Leading(leading) = role {
        let acknowledgements = &mut leading.acknowledged;
        if acknowledged_by(acknowledgements.as_slice(), acknowledged.from) < acknowledged.len {
            remove_acknowledged(acknowledgements, acknowledged.from);
            acknowledgements.add(acknowledged);
        }
    }
}

/// Removes a sender's acknowledged length, if there is one.
fn remove_acknowledged(lengths: &mut Reserved<Acknowledged>, from: Pid)
    ensures items { lengths.new.items ≡ filter (λ a. not (a.from == from)) lengths.old.items }
    ensures room { lengths.new.room ≡ lengths.old.room }
{
    lengths.retain(|acknowledged| acknowledged.from != from);
}

/// The length that a sender has acknowledged, 0 at first.
pub fn acknowledged_by(acknowledgements: &[Acknowledged], pid: Pid) -> u64
    ensures { result ≡ acknowledged_of acknowledgements.now pid }
{
    match acknowledgements {
        [] => 0,
        [first, rest @ ..] => {
            if first.from == pid {
                first.len
            } else {
                acknowledged_by(rest, pid)
            }
        }
    }
}

fn keep_report(role: &mut Role, report: Report)
    requires { RoomToReport role.old }
    ensures { role_of role.new ≡ if_leading (λ l. with_report l report) (role_of role.old) }
{
    if let Role::Leading(leading) = role {
        let reports = &mut leading.reports;
        if is_more(reported_by(reports.as_slice(), report.from), report.decided) {
            remove_report(reports, report.from);
            reports.add(report);
        }
    }
}

/// Whether a length is above what is reported so far, if anything is.
fn is_more(reported: Option<u64>, decided: u64) -> bool
    ensures { result ≡ is_news reported decided }
{
    match reported {
        None => true,
        Some(before) => before < decided,
    }
}

/// Removes a sender's report, if there is one.
fn remove_report(reports: &mut Reserved<Report>, from: Pid)
    ensures items { reports.new.items ≡ filter (λ o. not (o.from == from)) reports.old.items }
    ensures room { reports.new.room ≡ reports.old.room }
{
    reports.retain(|report| report.from != from);
}

/// What a sender has decided, if it reported that.
pub fn reported_by(reports: &[Report], pid: Pid) -> Option<u64>
    ensures { result ≡ report_of reports.now pid }
{
    match reports {
        [] => None,
        [first, rest @ ..] => {
            if first.from == pid {
                Some(first.decided)
            } else {
                reported_by(rest, pid)
            }
        }
    }
}

fn clear_reports(role: &mut Role)
    ensures { role_of role.new ≡ if_leading without_reports (role_of role.old) }
{
    if let Role::Leading(leading) = role {
        leading.reports.clear();
    }
}
