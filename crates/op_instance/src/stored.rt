//! A node and what it stores.
ghost use Rattle.std.specs.Prelude.{◌≡◌, nat_eq};
ghost use Rattle.std.specs.Set.{is_member};
ghost use Rattle.op_types.specs.Changes.{closed_len};
ghost use Rattle.op_types.specs.Effects.{nothing_plan};
ghost use Rattle.op_protocol.specs.Configurations.{latest_of, latest_members};
ghost use Rattle.op_instance.specs.Sound.{IfListFits, ListFits};

use op_plans::Member;
use op_types::{Closed, ConfNo, Durable, Part, Pid, Plan, Sends, is_among};
use std::alloc::Global;

/// A node and what it stores: what each of its steps reads, and none changes.
#[derive(Clone, Copy)]
pub struct Stored<'a> {
    /// Where steps take memory.
    pub alloc: Global,
    /// The node's id.
    pub me: Pid,
    /// What it stores.
    pub durable: &'a Durable,
}

impl Stored<'_> {
    /// A plan in which nothing happens.
    pub(crate) fn nothing(&self) -> Plan
        ensures { result ≡ nothing_plan }
    {
        Plan::nothing(self.alloc)
    }

    /// These messages go out, and nothing else happens.
    pub(crate) fn sending(&self, sends: Sends) -> Plan
        ensures { result ≡ record nothing_plan { sends = sends } }
    {
        let mut plan = self.nothing();
        plan.sends = sends;
        plan
    }

    /// The node at its part.
    pub(crate) fn at<'p>(&self, part: &'p Part) -> Member<'p>
        ensures me { result.me ≡ self.now.me }
        ensures part { result.part.now ≡ part.now }
    {
        Member {
            alloc: self.alloc,
            me: self.me,
            part,
        }
    }

    /// The latest configuration that the node knows, 0 at a spare.
    pub fn latest(&self) -> ConfNo
        requires { IfListFits self.now.durable.now.closed }
        ensures { result ≡ latest_of self.now.durable.now }
    {
        match &self.durable.part {
            Some(part) => part.conf,
            None => match &self.durable.closed {
                Some(closed) => closed.conf + 1,
                None => 0,
            },
        }
    }

    /// Whether a server is a member of the latest configuration that the node knows.
    pub(crate) fn is_latest_member(&self, pid: Pid) -> bool
        ensures { result ≡ is_member nat_eq (latest_members self.now.durable.now) pid }
    {
        match &self.durable.part {
            Some(part) => is_among(part.members.as_slice(), pid),
            None => match &self.durable.closed {
                Some(closed) => is_among(closed.next.as_slice(), pid),
                None => false,
            },
        }
    }
}

/// The length of a closed list, trimmed entries too.
pub(crate) fn closed_len(closed: &Closed) -> u64
    requires { ListFits closed.now }
    ensures { result ≡ closed_len closed.now }
{
    closed.trimmed + closed.tail.len() as u64
}
