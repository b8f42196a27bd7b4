//! Which events can come, and how much they propose.
ghost use Rattle.std.specs.Prelude.{◌≡◌};
ghost use Rattle.op_runs.specs.Possible.{are_nodes, is_possible, proposals_of};

use op_runs::What;
use op_types::{Pid, is_among};

/// Whether the servers that an event names are among these, those that a stop-sign names among those that may
/// vote, and the message that it names is one of so many.
pub fn is_possible(servers: &[Pid], voters: &[Pid], sent: u64, what: &What) -> bool
    ensures { result ≡ is_possible (record { servers = servers.now; voters = voters.now }) sent what.now }
{
    match what {
        What::Tick(pid)
        | What::Commands(pid, _)
        | What::Trim(pid)
        | What::Read(pid, _)
        | What::Crash(pid)
        | What::CrashAt(pid, ..)
        | What::Fail(pid, _)
        | What::Kill(pid, _)
        | What::Start(pid)
        | What::Show(pid)
        | What::Ballots(pid) => is_among(servers, *pid),
        What::Stop(pid, members) => {
            is_among(servers, *pid) && are_nodes(voters, members.get().as_slice())
        }
        What::Deliver(number) => *number < sent,
        What::Up(pid, peer) | What::Down(pid, peer) => {
            is_among(servers, *pid) && is_among(servers, *peer)
        }
    }
}

/// Whether all of these are among the nodes.
fn are_nodes(nodes: &[Pid], pids: &[Pid]) -> bool
    ensures { result ≡ are_nodes nodes.now pids.now }
{
    match pids {
        [] => true,
        [first, rest @ ..] => is_among(nodes, *first) && are_nodes(nodes, rest),
    }
}

/// How many entries an event proposes.
pub fn proposals_of(what: &What) -> u64
    ensures { result ≡ proposals_of what.now }
{
    match what {
        What::Commands(_, commands) => commands.len() as u64,
        What::Stop(..) => 1,
        _ => 0,
    }
}
