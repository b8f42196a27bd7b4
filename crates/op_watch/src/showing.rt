//! A member shows an observer what it has decided.
ghost use Rattle.std.specs.Prelude.{◌≡◌, ◌++◌, IfOk, OnOk};
ghost use Rattle.op_types.specs.Effects.{nothing_plan};
ghost use Rattle.op_protocol.specs.Parts.{messages};
ghost use Rattle.op_protocol.specs.Watched as watched;
ghost use Rattle.op_protocol.specs.Watched.{shown_bodies, shown_base, shown_of, shown_if, answers_by};
ghost use Rattle.op_watch.specs.Showing.{decided_of};

use crate::decided::{Decided, decided_for};
use op_plans::suffix;
use op_segments::{piece_count, piece_of};
use op_types::{
    Body, ConfNo, Durable, Entry, MOST_PART_BYTES, Msg, NoMemory, Pid, Plan, Sends, Shared, Watch,
    copy_entries, first_run,
};
use std::alloc::Global;

/// An observer asks for what is decided of a configuration from a position on. It is shown entries, or the
/// base where those are trimmed, or where the node has gone on; a node that joins another configuration shows
/// nothing.
pub fn asked(
    alloc: Global,
    durable: &Durable,
    from: Pid,
    conf: ConfNo,
    position: u64,
) -> Result<Plan, NoMemory>
    ensures { IfOk result (λ plan. plan ≡ record nothing_plan {
      sends = answers_by durable.now.joining durable.now from conf position;
    }) }
{
    let mut plan = Plan::nothing(alloc);
    match &durable.joining {
        Some(_) => Ok(plan),
        None => {
            show_decided(alloc, &mut plan.sends, durable, from, conf, position)?;
            Ok(plan)
        }
    }
}

/// Adds what a node that doesn't join shows of what it has decided.
fn show_decided(
    alloc: Global,
    sends: &mut Sends,
    durable: &Durable,
    to: Pid,
    conf: ConfNo,
    position: u64,
) -> Result<(), NoMemory>
    ensures { OnOk result (sends.new ≡ sends.old
        ++ shown_if (watched.decided_for durable.now.part durable.now.closed conf) to conf position) }
{
    match decided_for(durable, conf) {
        Some(decided) => show(alloc, sends, decided, to, conf, position),
        None => Ok(()),
    }
}

/// Adds what is shown to an observer that has so much of a configuration.
fn show(
    alloc: Global,
    sends: &mut Sends,
    decided: Decided,
    to: Pid,
    conf: ConfNo,
    position: u64,
) -> Result<(), NoMemory>
    ensures { OnOk result (sends.new
        ≡ sends.old ++ shown_of (decided_of decided.entry) to conf position) }
{
    if conf < decided.conf || position < decided.trimmed {
        return show_base(alloc, sends, decided, to);
    }
    let lacking = suffix(decided.entries, position.saturating_sub(decided.trimmed));
    show_entries(alloc, sends, to, conf, position, lacking)
}

/// Adds the first run of these entries, which begin at a position, if there are any.
fn show_entries(
    alloc: Global,
    sends: &mut Sends,
    to: Pid,
    conf: ConfNo,
    position: u64,
    entries: &[Entry],
) -> Result<(), NoMemory>
    ensures { OnOk result (sends.new
        ≡ sends.old ++ messages conf to (shown_bodies position entries.now)) }
{
    let Some((run, _)) = first_run(entries) else {
        return Ok(());
    };
    let shown = copy_entries(alloc, run)?;
    let body = Body::Watch(Watch::Shown(position, shown));
    sends.push((to, Msg { conf, body }))?;
    Ok(())
}

/// Adds the base, in pieces.
fn show_base(alloc: Global, sends: &mut Sends, decided: Decided, to: Pid) -> Result<(), NoMemory>
    ensures { OnOk result (sends.new ≡ sends.old
        ++ messages decided.entry.conf to (shown_base (decided_of decided.entry))) }
{
    let bytes = decided.base.as_slice();
    let conf = decided.conf;
    let members = Shared::new(alloc, decided.members.copy())?;
    let count = piece_count(bytes.len());
    for i in 0..count {
        let piece = piece_of(alloc, decided.trimmed, bytes, i * MOST_PART_BYTES)?;
        let body = Body::Watch(Watch::Base(members.copy()?, piece));
        sends.push((to, Msg { conf, body }))?;
    }
    Ok(())
}
