ghost use Rattle.std.specs.Prelude.{◌≡◌, OnOk, IfOk};
ghost use Rattle.op_chain.specs.Answering.{no_room};
ghost use Rattle.op_chain.specs.Plans.{nothing_ready, HasRoomToTell};

use crate::renewal::Anew;
use crate::room::Room;
use op_deciding::Served;
use op_plans::starved;
use op_types::{NoMemory, Plan};
use std::alloc::Global;

/// What a step is to do, with all its room made.
#[derive(Drop)]
pub(crate) struct ChainPlan {
    /// Its batch has the base of what it trims, and closes the part that decides its stop-sign.
    pub(crate) plan: Plan,
    /// What the entries that it decides do.
    pub(crate) served: Served,
    /// What begins anew, where the node goes on in another configuration or in none.
    pub(crate) renewal: Anew,
    pub(crate) room: Room,
}

impl ChainPlan {
    /// Nothing happens, and there is no room. It lies on the heap, where its parts are filled.
    pub(crate) fn nothing(alloc: Global) -> Result<Box<ChainPlan>, NoMemory>
        ensures { IfOk result (λ b. b.value ≡ nothing_ready) }
    {
        let plan = ChainPlan {
            plan: Plan::nothing(alloc),
            served: Served::nothing(alloc),
            renewal: Anew::nothing(),
            room: Room::nothing(alloc),
        };
        match Box::new(alloc, plan) {
            Ok(boxed) => Ok(boxed),
            Err(failed) => Err(starved(failed.value)),
        }
    }

    /// Makes room for all its replies.
    pub(crate) fn make_room(&mut self) -> Result<(), NoMemory>
        requires { self.old.room ≡ no_room }
        ensures rest { self.new ≡ record self.old { room = self.new.room } }
        ensures room { OnOk result (HasRoomToTell self.new) }
    {
        let served = self.served.replies.len();
        let given_up = self.plan.replies.len();
        let renewed = self.renewal.count_given_up();
        self.room.make(served, given_up, renewed)?;
        Ok(())
    }
}
