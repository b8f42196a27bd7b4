ghost use Rattle.std.specs.Prelude.{◌≡◌, ◌+◌, OnOk};
ghost use Rattle.op_chain.specs.Answering.{no_room, HasRoomFor};

use op_types::{NoMemory, Reply, Reserved};
use std::alloc::Global;

/// Room for the replies of a step.
#[derive(Drop)]
pub(crate) struct Room {
    /// For all who are answered or told.
    pub(crate) replies: Reserved<Reply>,
    /// For those whose proposals a row gives up: they are told after the others, but wait no longer before
    /// them.
    pub(crate) told: Reserved<Reply>,
}

impl Room {
    /// No room.
    pub(crate) fn nothing(alloc: Global) -> Room
        ensures { result ≡ no_room }
    {
        Room {
            replies: Reserved::new(alloc),
            told: Reserved::new(alloc),
        }
    }

    /// Makes room for so many replies: to those who are served, given up by a row, and told by what begins
    /// anew.
    pub(crate) fn make(
        &mut self,
        served: usize,
        given_up: usize,
        renewed: usize,
    ) -> Result<(), NoMemory>
        requires { self.old ≡ no_room }
        ensures { OnOk result (HasRoomFor (served + given_up + renewed) given_up self.new) }
    {
        let Some(all) = served
            .checked_add(given_up)
            .and_then(|n| n.checked_add(renewed))
        else {
            return Err(NoMemory);
        };
        self.replies.make_room(all)?;
        self.told.make_room(given_up)?;
        Ok(())
    }
}
