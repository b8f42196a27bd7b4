ghost use Rattle.std.specs.Prelude.{◌≡◌};
ghost use Rattle.op_types.specs.Ranges.{IsPid};
ghost use Rattle.op_serving.specs.Ranges.{SendInRange};
ghost use Rattle.op_serving.specs.Wire.{peer_frame};

use crate::encoding::put_message;
use op_conns::Encode;
use op_types::{Msg, NoMemory, Pid};
use std::marker::Model;

/// A message with its sender, before it is encoded. Contracts see it as the frame that it becomes.
#[derive(Drop)]
pub struct Unsent {
    from: Pid,
    /// The addressee, and what goes there.
    message: (Pid, Msg),
}

impl Model for Unsent {
    ghost use Rattle.std.specs.Prelude.{List, ℕ};
    ghost use Rattle.op_types.specs.Ranges.{IsPid};
    ghost use Rattle.op_serving.specs.Ranges.{SendInRange};
    ghost use Rattle.op_serving.specs.Wire.{peer_frame};

    ghost Value = { List ℕ };

    ghost view = { λ u. peer_frame u.from u.message.0 u.message.1 };

    ghost invariant = { λ u. IsPid u.from × SendInRange u.message };
}

impl Unsent {
    /// A message and its sender.
    pub fn new(from: Pid, message: (Pid, Msg)) -> Unsent
        requires from { IsPid from }
        requires message { SendInRange message }
        ensures { result ≡ peer_frame from message.0 message.1 }
    {
        Unsent { from, message }
    }
}

impl Encode for Unsent {
    ghost bytes = { λ u. u };

    fn encode(&self, out: &mut Vec<u8>) -> Result<(), NoMemory> {
        put_message(out, self.from, self.message.0, &self.message.1)
    }
}
