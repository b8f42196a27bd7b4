ghost use Rattle.std.specs.Prelude.{◌≡◌};
ghost use Rattle.op_replay_nodes.specs.Plans.{is_stop, told_by};

use op_runs::What;
use op_types::Pid;

/// What awaits a node's next step or opening, in a call that is numbered through its disks.
#[derive(Clone, Copy, Debug, PartialEq, Eq)]
pub enum Awaited {
    /// Nothing.
    Nothing,
    /// It stops in this call, and this image is left of each disk.
    Stop { call: u8, image: u8 },
    /// This call fails.
    Failure { call: u8 },
}

/// What an event plans for the disks of a node.
#[derive(Clone, Copy, Debug, PartialEq, Eq)]
pub enum Planned {
    /// This awaits it, in the place of what did before.
    Awaits(Awaited),
    /// This disk is killed.
    Kills(u8),
}

impl Awaited {
    /// Whether the node is to stop.
    pub fn is_stop(self) -> bool
        ensures { result ≡ is_stop self }
    {
        matches!(self, Awaited::Stop { .. })
    }
}

impl Planned {
    /// What is planned from this event on, and for which node, if it plans something.
    pub fn by(what: &What) -> Option<(Pid, Planned)>
        ensures { result ≡ told_by what.now }
    {
        match what {
            What::CrashAt(pid, call, image) => {
                let awaited = Awaited::Stop {
                    call: *call,
                    image: *image,
                };
                Some((*pid, Planned::Awaits(awaited)))
            }
            What::Fail(pid, call) => {
                let awaited = Awaited::Failure { call: *call };
                Some((*pid, Planned::Awaits(awaited)))
            }
            What::Kill(pid, disk) => Some((*pid, Planned::Kills(*disk))),
            _ => None,
        }
    }
}
