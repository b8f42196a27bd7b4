//! A message comes.
ghost use Rattle.std.specs.Prelude.{◌≡◌, ℕ, Some, true, IfOk};
ghost use Rattle.op_types.specs.declared.durable.Part as parts;
ghost use Rattle.op_types.specs.declared.turn.Turn.TheVariants.{RaiseFloor};
ghost use Rattle.op_types.specs.Effects.{nothing_plan, effects_of};
ghost use Rattle.op_types.specs.Roles.{role_of, HasRoom};
ghost use Rattle.op_protocol.specs.Parts.{is_admitted_body};
ghost use Rattle.op_protocol.specs.Tick.{on_heartbeat_reply};
ghost use Rattle.op_protocol.specs.Rows.{on_body, on_message, message_at, on_newer, on_latest, member_step, message_step};
ghost use Rattle.op_protocol.specs.Watched.{watch_answers};
ghost use Rattle.op_instance.specs.Memory.{volatile_of, part_step_of, HasRoomIn, IsKeptBy};
ghost use Rattle.op_instance.specs.Routing.{row_of};
ghost use Rattle.op_instance.specs.Sound.{IsSound, IsNodeOf, IfNodeOf, IsNode, IfListFits};

use crate::admitting::is_admitted_body;
use crate::joining::News;
use crate::routing::{is_of_joining, is_prepare_req, is_watching, may_be_above};
use crate::stored::Stored;
use crate::volatile::Volatile;
use op_accepting::{Accept, on_accept, on_accept_sync};
use op_counting::on_accepted;
use op_follower::{Prepare, on_accept_sync_part, on_confirm, on_decide, on_prepare};
use op_heartbeat::Rounds;
use op_leader::{on_forward, on_prepare_req, on_promise, on_promise_part};
use op_plans::{Member, one};
use op_trim::{on_progress, on_trim, on_trim_ask};
use op_types::{
    Ballot, Body, ConfNo, Entries, Heard, Msg, Pid, Plan, Promised, Role, Sends, Turn, Watch,
};
use op_watch::asked;
use std::alloc::{AllocError as NoMemory, Global};

/// A message comes. What an observer asks is answered, whichever configuration it is of, unless the node
/// joins.
pub(crate) fn deliver(
    stored: &Stored,
    volatile: &mut Volatile,
    from: Pid,
    message: Msg,
) -> Result<Plan, NoMemory>
    requires { IsNode stored.now.me stored.now.durable.now volatile.old }
    ensures step { IfOk result (λ plan. part_step_of plan (volatile_of volatile.old)
        ≡ message_step stored.now.me stored.now.durable.now (volatile_of volatile.old) from message) }
    ensures rest { volatile.new ≡ record volatile.old {
      role = volatile.new.role;
      staged = volatile.new.staged;
    } }
    ensures same { volatile_of volatile.new ≡ volatile_of volatile.old }
    ensures room { IfOk result (λ plan. HasRoomIn plan.turn volatile.new) }
{
    if is_watching(&message.body) {
        return answer_observer(stored, from, &message);
    }
    deliver_member(stored, volatile, from, message)
}

/// What an observer asks is answered. Nothing else of it concerns a node.
fn answer_observer(stored: &Stored, to: Pid, message: &Msg) -> Result<Plan, NoMemory>
    ensures { IfOk result (λ plan. plan ≡ record nothing_plan {
      sends = watch_answers stored.now.durable.now to message.now.conf message.now.body;
    }) }
{
    match &message.body {
        Body::Watch(watch) => answer(stored, to, message.conf, watch),
        _ => Ok(stored.nothing()),
    }
}

/// The same, by what it says of a configuration.
fn answer(stored: &Stored, to: Pid, conf: ConfNo, watch: &Watch) -> Result<Plan, NoMemory>
    ensures { IfOk result (λ plan. plan ≡ record nothing_plan {
      sends = watch_answers stored.now.durable.now to conf (Body.Watch watch.now);
    }) }
{
    match watch {
        Watch::Ask(position) => asked(stored.alloc, stored.durable, to, conf, *position),
        Watch::Shown(_, _) | Watch::Base(_, _) => Ok(stored.nothing()),
    }
}

/// A message comes that isn't an observer's. A node that joins handles only what is of joining; of the
/// others, those of an older configuration are answered with the next one, and those from above the latest
/// are dropped.
fn deliver_member(
    stored: &Stored,
    volatile: &mut Volatile,
    from: Pid,
    message: Msg,
) -> Result<Plan, NoMemory>
    requires { IsNode stored.now.me stored.now.durable.now volatile.old }
    ensures step { IfOk result (λ plan. part_step_of plan (volatile_of volatile.old)
        ≡ member_step stored.now.me stored.now.durable.now (volatile_of volatile.old) from message) }
    ensures rest { volatile.new ≡ record volatile.old {
      role = volatile.new.role;
      staged = volatile.new.staged;
    } }
    ensures same { volatile_of volatile.new ≡ volatile_of volatile.old }
    ensures room { IfOk result (λ plan. HasRoomIn plan.turn volatile.new) }
{
    if stored.durable.joining.is_some() && !is_of_joining(&message.body) {
        return Ok(stored.nothing());
    }
    let latest = stored.latest();
    if message.conf < latest {
        return Ok(stored.sending(stored.answer_older(from)?));
    }
    if latest < message.conf && !may_be_above(&message.body) {
        return Ok(stored.sending(answer_newer(stored, from, &message.body)?));
    }
    deliver_latest(stored, volatile, from, message)
}

/// A sender from above the latest configuration is asked to prepare this node in the latest one: it is above
/// that, and so tells of the next one again.
fn answer_newer(stored: &Stored, to: Pid, body: &Body) -> Result<Sends, NoMemory>
    requires { IfListFits stored.now.durable.now.closed }
    ensures { IfOk result (λ sends. sends ≡ on_newer stored.now.durable.now to body.now) }
{
    let mut sends = Sends::new(stored.alloc);
    if !(stored.durable.joining.is_some() || is_of_joining(body) || is_prepare_req(body)) {
        let conf = stored.latest();
        let body = Body::PrepareReq;
        sends.push((to, Msg { conf, body }))?;
    }
    Ok(sends)
}

/// A message of the latest configuration comes, or one that may be above it.
fn deliver_latest(
    stored: &Stored,
    volatile: &mut Volatile,
    from: Pid,
    message: Msg,
) -> Result<Plan, NoMemory>
    requires { IsNode stored.now.me stored.now.durable.now volatile.old }
    ensures step { IfOk result (λ plan. part_step_of plan (volatile_of volatile.old)
        ≡ on_latest stored.now.me stored.now.durable.now (volatile_of volatile.old) from
        message.conf message.body) }
    ensures rest { volatile.new ≡ record volatile.old {
      role = volatile.new.role;
      staged = volatile.new.staged;
    } }
    ensures same { volatile_of volatile.new ≡ volatile_of volatile.old }
    ensures room { IfOk result (λ plan. HasRoomIn plan.turn volatile.new) }
{
    let Msg { conf, body } = message;
    match body {
        Body::NextConf(members, olds, len, trimmed) => {
            let news = News {
                conf,
                members,
                olds,
                len,
                trimmed,
            };
            stored.hear_news(from, news)
        }
        Body::AskBase => Ok(stored.sending(stored.give_base(from, conf)?)),
        Body::BasePiece(piece) => stored.stage_piece(&volatile.pieces, conf, piece),
        Body::AskSegment(start, end) => {
            Ok(stored.sending(stored.give_segment(from, conf, start, end)?))
        }
        body => deliver_at(stored, volatile, from, Msg { conf, body }),
    }
}

/// A message for the part comes, if there is one.
fn deliver_at(
    stored: &Stored,
    volatile: &mut Volatile,
    from: Pid,
    message: Msg,
) -> Result<Plan, NoMemory>
    requires { IfNodeOf stored.now.me stored.now.durable.now.part volatile.old }
    ensures step { IfOk result (λ plan. part_step_of plan (volatile_of volatile.old)
        ≡ message_at stored.now.me stored.now.durable.now.part (volatile_of volatile.old) from message) }
    ensures rest { volatile.new ≡ record volatile.old {
      role = volatile.new.role;
      staged = volatile.new.staged;
    } }
    ensures same { volatile_of volatile.new ≡ volatile_of volatile.old }
    ensures room { IfOk result (λ plan. HasRoomIn plan.turn volatile.new) }
{
    match &stored.durable.part {
        None => Ok(stored.nothing()),
        Some(part) => deliver_to(&stored.at(part), volatile, from, message),
    }
}

/// A message of another configuration does nothing, nor does one whose entries aren't admitted.
fn deliver_to(
    member: &Member,
    volatile: &mut Volatile,
    from: Pid,
    message: Msg,
) -> Result<Plan, NoMemory>
    requires { IsNodeOf member.now.me member.now.part.now volatile.old }
    ensures step { IfOk result (λ plan. part_step_of plan (volatile_of volatile.old)
        ≡ on_message member.now.me member.now.part.now (volatile_of volatile.old) from message) }
    ensures rest { volatile.new ≡ record volatile.old {
      role = volatile.new.role;
      staged = volatile.new.staged;
    } }
    ensures same { volatile_of volatile.new ≡ volatile_of volatile.old }
    ensures room { IfOk result (λ plan. HasRoomIn plan.turn volatile.new) }
{
    if message.conf == member.part.conf && is_admitted_body(member.part, &message.body) {
        receive(member, volatile, from, message.body)
    } else {
        Ok(member.nothing())
    }
}

/// What a message does, by what it says.
fn receive(
    member: &Member,
    volatile: &mut Volatile,
    from: Pid,
    body: Body,
) -> Result<Plan, NoMemory>
    requires node { IsNodeOf member.now.me member.now.part.now volatile.old }
    requires admitted { is_admitted_body member.now.part.now body ≡ true }
    ensures step { IfOk result (λ plan. part_step_of plan (volatile_of volatile.old)
        ≡ on_body member.now.me member.now.part.now (volatile_of volatile.old) from body) }
    ensures rest { volatile.new ≡ record volatile.old {
      role = volatile.new.role;
      staged = volatile.new.staged;
    } }
    ensures same { volatile_of volatile.new ≡ volatile_of volatile.old }
    ensures room { IfOk result (λ plan. HasRoomIn plan.turn volatile.new) }
{
    match body {
        Body::HeartbeatRequest(round) => {
            let election = &volatile.election;
            let reply = Rounds::answer(round, election.own(), election.flag());
            member.saying(from, reply)
        }
        Body::HeartbeatReply(round, ballot, flag) => {
            let heard = Heard { from, ballot, flag };
            Ok(hear(member.alloc, volatile, round, heard))
        }
        Body::Refuse(_, ballot) => Ok(raise_floor(member.alloc, ballot)),
        Body::AcceptSyncPart(ballot, part) => {
            on_accept_sync_part(member, &mut volatile.staged, from, ballot, part)
        }
        body => route(member, &mut volatile.role, from, body),
    }
}

/// A reply of the current round is kept, if another member sent it.
fn hear(alloc: Global, volatile: &Volatile, round: u64, heard: Heard) -> Plan
    ensures step { (me : ℕ) (p : parts.Part) → IsKeptBy me p volatile.now
        → part_step_of result (volatile_of volatile.now)
        ≡ on_heartbeat_reply me p (volatile_of volatile.now) heard.from round heard.ballot heard.flag }
    ensures room { HasRoomIn result.turn volatile.now }
{
    let mut plan = Plan::nothing(alloc);
    if round == volatile.rounds.round() && volatile.rounds.is_other(heard.from) {
        plan.set_turn(Turn::Hear(heard));
    }
    plan
}

/// Elections begin at this ballot from now on, unless they begin above it already.
fn raise_floor(alloc: Global, ballot: Ballot) -> Plan
    ensures { result ≡ record nothing_plan { turn = RaiseFloor ballot } }
{
    let mut plan = Plan::nothing(alloc);
    plan.set_turn(Turn::RaiseFloor(ballot));
    plan
}

/// Entries that come in a ballot, from a position on.
fn accept_of(ballot: Ballot, at: u64, entries: Entries) -> Accept
    ensures { result ≡ record { ballot = ballot; at = at; entries = entries } }
{
    Accept {
        ballot,
        at,
        entries,
    }
}

/// What a message does to a role. What is of heartbeats, of elections, of what is staged or of joining does
/// nothing here.
fn route(member: &Member, role: &mut Role, from: Pid, body: Body) -> Result<Plan, NoMemory>
    requires sound { IsSound member.now.part.now (role_of role.old) }
    requires admitted { is_admitted_body member.now.part.now body ≡ true }
    ensures row { IfOk result (λ plan. effects_of role.old plan
        ≡ row_of member.now.me member.now.part.now (role_of role.old) from body) }
    ensures role { role_of role.new ≡ role_of role.old }
    ensures room { IfOk result (λ plan. HasRoom plan.turn role.new) }
{
    match body {
        Body::Prepare(ballot, accepted, len, decided) => {
            let prepare = Prepare {
                ballot,
                accepted,
                len,
                decided,
            };
            on_prepare(member, role, from, prepare)
        }
        Body::Promise(ballot, accepted, len, decided, start, entries) => {
            let promised = Promised {
                from,
                start,
                entries,
                accepted,
                len,
                decided,
            };
            on_promise(member, role, ballot, promised)
        }
        Body::PromisePart(ballot, part) => on_promise_part(member, role, from, ballot, part),
        Body::AcceptSync(ballot, at, entries) => {
            on_accept_sync(member, role, from, accept_of(ballot, at, entries))
        }
        Body::Accept(ballot, at, entries) => {
            on_accept(member, role, from, accept_of(ballot, at, entries))
        }
        Body::Accepted(ballot, len) => on_accepted(member, role, from, ballot, len),
        Body::Decide(ballot, len) => on_decide(member, role, ballot, len),
        Body::PrepareReq => on_prepare_req(member, role, from),
        Body::Forward(entry) => on_forward(member, role, one(member.alloc, entry)?),
        Body::Forwards(entries) => on_forward(member, role, entries),
        Body::TrimAsk(ballot) => on_trim_ask(member, role, from, ballot),
        Body::Progress(ballot, decided) => on_progress(member, role, from, ballot, decided),
        Body::Trim(len) => on_trim(member, role, len),
        Body::Confirm(ballot, number) => on_confirm(member, role, from, ballot, number),
        Body::HeartbeatRequest(_)
        | Body::HeartbeatReply(_, _, _)
        | Body::Refuse(_, _)
        | Body::AcceptSyncPart(_, _)
        | Body::NextConf(_, _, _, _)
        | Body::AskBase
        | Body::BasePart(_, _)
        | Body::BasePiece(_)
        | Body::AskSegment(_, _)
        | Body::Segment(_, _)
        | Body::Confirmed(_, _)
        | Body::Watch(_) => Ok(member.nothing()),
    }
}
