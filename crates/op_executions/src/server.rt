ghost use Rattle.std.specs.Prelude.{◌≡◌, ◌++◌, [], IfOk, OnOk};
ghost use Rattle.op_types.specs.Ranges.{MembersInRange};
ghost use Rattle.op_runs.specs.Possible.{kind_if};
ghost use Rattle.op_executions.specs.Deeds.{doing_of};
ghost use Rattle.op_executions.specs.Servers.{Kind, ShowsNode, CanDo, IsToldAt, first_as};

use crate::deed::Doing;
use crate::telling::tell_all;
use op_runs::Lines;
use op_types::{Members, NoMemory, Pid, Sends};
use std::alloc::Global;

/// What was done at a server.
#[derive(Drop)]
pub struct Done {
    /// Messages, each to a server.
    pub sends: Sends,
    /// Lines to be reported.
    pub told: Lines,
}

impl Done {
    /// Nothing was sent or told.
    pub fn nothing(alloc: Global) -> Done
        ensures { result ≡ record { sends = []; told = [] } }
    {
        Done {
            sends: Sends::new(alloc),
            told: Lines::new(alloc),
        }
    }

    /// Adds the lines, and gives the messages.
    pub fn tell(self, lines: &mut Lines) -> Result<Sends, NoMemory>
        ensures sends { IfOk result (λ sends. sends ≡ self.sends) }
        ensures lines { OnOk result (lines.new ≡ lines.old ++ self.told) }
    {
        tell_all(lines, self.told)?;
        Ok(self.sends)
    }
}

/// A server of a world: one of the definitions' nodes or observers, over disks or without.
pub trait Server: Drop {
    /// What is said of a happening beforehand.
    type Fate: Drop;

    ghost kind: { Kind Self Self.Fate };

    /// A server at its start: one that observes, or else a member of the first configuration, or a spare.
    fn first(alloc: Global, pid: Pid, members: &Members, observes: bool) -> Result<Self, NoMemory>
        requires { MembersInRange members.now }
        ensures shows { IfOk result (λ s. ShowsNode kind s (first_as (kind_if observes) members.now pid)) }
        ensures kind { IfOk result (λ s. kind.kind_of s ≡ kind_if observes) }
        ensures kept { IfOk result (λ s. kind.is_kept s) }
        ensures first { IfOk result (λ s. kind.is_first s) };

    /// Does this here, in a world of these first members, with this fate, said in this line of the schedule.
    /// Gives the messages, each to a server, and adds the lines that are reported. Without memory the server
    /// is lost.
    fn happens(
        &mut self,
        alloc: Global,
        members: &Members,
        doing: Doing,
        fate: Self::Fate,
        line: u64,
        lines: &mut Lines,
    ) -> Result<Sends, NoMemory>
        requires members { MembersInRange members.now }
        requires can { CanDo kind self.old (doing_of doing) }
        ensures { IfOk result (λ sends.
            IsToldAt kind fate self.old (doing_of doing) line self.new sends lines.old lines.new) };
}
