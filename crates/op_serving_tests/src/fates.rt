//! Runs of the plain program, in which a step stops inside.
ghost use Rattle.std.specs.Prelude.{All, IfOk};
ghost use Rattle.op_types.specs.Ranges.{MembersInRange};
ghost use Rattle.op_runs.specs.Possible.{WhatInRange};

use op_executions::RunFail;
use op_pure::{Fate, Happening, Happenings, PureWorld};
use op_runs::{Event, Line, What};
use op_types::{Blob, Command, Commands, Members, NoMemory, Op, Outcome};
use std::alloc::Global;
use std::test::Fail;

fn sole() -> Result<Members, NoMemory>
    ensures { IfOk result MembersInRange }
{
    Members::from_slice(&[1])
}

/// At server 1, client 7 proposes its command number 1.
fn put(alloc: Global) -> Result<What, NoMemory>
    ensures { IfOk result WhatInRange }
{
    let key = Blob::from_slice(alloc, b"a")?;
    let value = Blob::from_slice(alloc, b"x")?;
    let op = Op::Put(key, value);
    let mut commands = Commands::new(alloc);
    commands.push(Command {
        client: 7,
        seq: 1,
        op,
    })?;
    Ok(What::Commands(1, commands))
}

/// Adds a happening, said in this line.
fn add(
    happenings: &mut Happenings,
    line: u64,
    what: What,
    fate: Fate,
    finds_after: bool,
) -> Result<(), NoMemory>
    requires what { WhatInRange what }
    requires others { All (λ h. WhatInRange h.event.what) happenings.old }
    ensures { All (λ h. WhatInRange h.event.what) happenings.new }
{
    happenings.push(Happening {
        event: Event { line, what },
        fate,
        finds_after,
    })
}

/// A sole member is elected, stops inside the step of a put, and is opened again: it finds what it stored
/// before that step or after it. Elected again, it is sent the same put.
fn stops_in_a_put(alloc: Global, finds_after: bool) -> Result<Happenings, NoMemory>
    ensures { IfOk result (λ happenings. All (λ h. WhatInRange h.event.what) happenings) }
{
    let mut happenings = Happenings::new(alloc);
    add(&mut happenings, 2, What::Tick(1), Fate::Done, false)?;
    add(&mut happenings, 3, put(alloc)?, Fate::Stopped, false)?;
    add(&mut happenings, 4, What::Start(1), Fate::Done, finds_after)?;
    add(&mut happenings, 5, What::Tick(1), Fate::Done, false)?;
    add(&mut happenings, 6, put(alloc)?, Fate::Done, false)?;
    Ok(happenings)
}

/// Where the put that is sent last is appended, if the run ends and tells that line and its reply.
fn appended_at(alloc: Global, finds_after: bool) -> Result<Option<u64>, NoMemory> {
    let happenings = stops_in_a_put(alloc, finds_after)?;
    let Ok(world) = PureWorld::run(alloc, sole()?, Members::new(), Members::new(), happenings)
    else {
        return Ok(None);
    };
    Ok(match world.lines() {
        [
            Line::Answer(6, Outcome::Appended(1, at)),
            Line::Reply(1, 7, 1, _),
        ] => Some(*at),
        _ => None,
    })
}

#[test]
fn a_stopped_step_is_found_undone_or_done(rt: HostRuntime) -> Result<(), Fail> {
    assert_eq!(rt; appended_at(rt.alloc(), false)?, Some(0));
    assert_eq!(rt; appended_at(rt.alloc(), true)?, Some(1));
    Ok(())
}

/// A tick of server 1, and then one of server 2.
fn two_ticks(alloc: Global) -> Result<Happenings, NoMemory>
    ensures { IfOk result (λ happenings. All (λ h. WhatInRange h.event.what) happenings) }
{
    let mut happenings = Happenings::new(alloc);
    add(&mut happenings, 2, What::Tick(1), Fate::Done, false)?;
    add(&mut happenings, 3, What::Tick(2), Fate::Done, false)?;
    Ok(happenings)
}

/// Why a run of the sole member doesn't end.
fn refusal(alloc: Global, happenings: Happenings) -> Result<Option<RunFail>, NoMemory>
    requires { All (λ h. WhatInRange h.event.what) happenings }
{
    Ok(PureWorld::run(alloc, sole()?, Members::new(), Members::new(), happenings).err())
}

#[test]
fn a_server_that_is_no_member_is_refused(rt: HostRuntime) -> Result<(), Fail> {
    let alloc = rt.alloc();
    let fail = refusal(alloc, two_ticks(alloc)?)?;
    assert!(rt; fail == Some(RunFail::BadEvent { index: 1 }));
    Ok(())
}
