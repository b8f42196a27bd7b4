//! What an event does, and at which node.
ghost use Rattle.std.specs.Prelude.{◌≡◌, ◌<◌, true, length, Some, slice_get, option_map, IfOk};
ghost use Rattle.op_runs.specs.Possible.{Named, is_possible};
ghost use Rattle.op_runs.specs.World as runs;
ghost use Rattle.op_executions.specs.Deeds.{told_of, deed_shown};

use crate::sent::Sent;
use op_runs::What;
use op_types::{Input, Msg, NoMemory, Pid};
use std::alloc::Global;

/// What a node tells.
#[derive(Clone, Copy, Debug, PartialEq, Eq)]
pub enum Told {
    /// The pairs of its service.
    Pairs,
    /// Its ballots.
    Ballots,
}

/// What is done at a node.
#[derive(Drop)]
pub enum Doing {
    /// It takes a step with this input.
    Steps(Input),
    /// It stops between two steps.
    Stops,
    /// It is opened, if it is down.
    Opens,
    /// It tells this.
    Tells(Told),
}

/// What is done, and at which node.
#[derive(Drop)]
pub struct Deed {
    /// The node's id.
    pub pid: Pid,
    /// What is done there.
    pub doing: Doing,
}

/// What an event does that is possible where these messages were sent, if it does something by itself. A
/// message that is delivered is copied.
#[inline(always)]
pub fn deed_of(alloc: Global, messages: &[Sent], what: What) -> Result<Option<Deed>, NoMemory>
    requires { (ids : Named) × (is_possible ids (length messages.now) what ≡ true) }
    ensures { IfOk result (λ deed. runs.deed_of messages.now what ≡ option_map deed_shown deed) }
{
    Ok(Some(match what {
        What::Tick(pid) => stepping(pid, Input::Tick),
        What::Commands(pid, commands) => stepping(pid, Input::Commands(commands)),
        What::Stop(pid, members) => stepping(pid, Input::Stop(members)),
        What::Trim(pid) => stepping(pid, Input::TrimNow),
        What::Read(pid, read) => stepping(pid, Input::Read(read)),
        What::Deliver(number) => delivery(alloc, messages, number as usize)?,
        What::Up(pid, peer) => stepping(pid, Input::Up(peer)),
        What::Down(pid, peer) => stepping(pid, Input::Down(peer)),
        What::Crash(pid) => Deed {
            pid,
            doing: Doing::Stops,
        },
        What::CrashAt(..) | What::Fail(..) | What::Kill(..) => return Ok(None),
        What::Start(pid) => Deed {
            pid,
            doing: Doing::Opens,
        },
        What::Show(pid) => telling(pid, Told::Pairs),
        What::Ballots(pid) => telling(pid, Told::Ballots),
    }))
}

/// The message of this number reaches its addressee.
#[inline(never)]
fn delivery(alloc: Global, messages: &[Sent], number: usize) -> Result<Deed, NoMemory>
    requires { number < length messages.now }
    ensures { IfOk result (λ deed.
        runs.delivery (slice_get messages.now number) ≡ Some (deed_shown deed)) }
{
    let sent = &messages[number];
    let message = Msg {
        conf: sent.message.conf,
        body: sent.message.body.copy(alloc)?,
    };
    Ok(stepping(sent.to, Input::Deliver(sent.from, message)))
}

/// A node tells this.
fn telling(pid: Pid, told: Told) -> Deed
    ensures { deed_shown result ≡ record { pid = pid; doing = runs.Tells (told_of told) } }
{
    Deed {
        pid,
        doing: Doing::Tells(told),
    }
}

/// A step of a node.
fn stepping(pid: Pid, input: Input) -> Deed
    ensures { deed_shown result ≡ record { pid = pid; doing = runs.Steps input } }
{
    Deed {
        pid,
        doing: Doing::Steps(input),
    }
}
