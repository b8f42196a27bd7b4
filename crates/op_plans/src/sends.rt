//! Messages of a node's configuration to its members.
ghost use Rattle.std.specs.Prelude.{◌≡◌, ◌∷◌, ◌++◌, [], IfOk, OnOk};
ghost use Rattle.op_types.specs.Effects.{nothing_plan};
ghost use Rattle.op_protocol.specs.Parts.{message, others, to_each};

use crate::member::Member;
use op_types::{Body, Msg, Pid, Plan, Sends};
use std::alloc::AllocError as NoMemory;

impl Member<'_> {
    /// A plan in which nothing happens.
    pub fn nothing(&self) -> Plan
        ensures { result ≡ nothing_plan }
    {
        Plan::nothing(self.alloc)
    }

    /// The members but this node.
    pub fn others(&self) -> Result<Vec<Pid>, NoMemory>
        ensures { IfOk result (λ pids. pids.items ≡ others self.now.me self.now.part.now.members) }
    {
        let mut pids = Vec::new(self.alloc);
        for pid in self.part.members.as_slice() {
            if *pid != self.me {
                pids.push(*pid)?;
            }
        }
        Ok(pids)
    }

    /// Adds a message to one node.
    pub fn send(&self, sends: &mut Sends, to: Pid, body: Body) -> Result<(), NoMemory>
        ensures { OnOk result (sends.new ≡ sends.old ++ message self.now.part.now.conf to body ∷ []) }
    {
        let message = Msg {
            conf: self.part.conf,
            body,
        };
        sends.push((to, message))
    }

    /// Adds the same message to each of these nodes.
    pub fn send_each(&self, sends: &mut Sends, pids: &[Pid], body: &Body) -> Result<(), NoMemory>
        ensures { OnOk result (sends.new
            ≡ sends.old ++ to_each self.now.part.now.conf pids.now body.now) }
    {
        for pid in pids {
            self.send(sends, *pid, body.copy(self.alloc)?)?;
        }
        Ok(())
    }

    /// The same message to each other member.
    pub fn to_others(&self, body: &Body) -> Result<Sends, NoMemory>
        ensures { IfOk result (λ sends. sends ≡ to_each self.now.part.now.conf
            (others self.now.me self.now.part.now.members) body.now) }
    {
        let mut sends = Sends::new(self.alloc);
        let others = self.others()?;
        self.send_each(&mut sends, others.as_slice(), body)?;
        Ok(sends)
    }

    /// One message goes out, and nothing else happens.
    pub fn saying(&self, to: Pid, body: Body) -> Result<Plan, NoMemory>
        ensures { IfOk result (λ plan. plan
            ≡ record nothing_plan { sends = message self.now.part.now.conf to body ∷ [] }) }
    {
        let mut plan = self.nothing();
        self.send(&mut plan.sends, to, body)?;
        Ok(plan)
    }
}
