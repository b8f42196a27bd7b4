ghost use Rattle.std.specs.Prelude.{◌≡◌};
ghost use Rattle.op_command.specs.Ranges.{ReplyInRange};
ghost use Rattle.op_serving.specs.Wire.{client_frame};

use crate::encoding::put_reply;
use op_command::ClientReply;
use op_conns::Encode;
use op_types::NoMemory;
use std::marker::Model;

/// A reply before it is encoded. Contracts see it as the frame that it becomes.
#[derive(Drop)]
pub struct Untold<'a> {
    reply: &'a ClientReply,
}

impl<'a> Model for Untold<'a> {
    ghost use Rattle.std.specs.Prelude.{List, ℕ};
    ghost use Rattle.op_command.specs.Ranges.{ReplyInRange};
    ghost use Rattle.op_serving.specs.Wire.{client_frame};

    ghost Value = { List ℕ };

    ghost view = { λ u. client_frame u.reply.now };

    ghost invariant = { λ u. ReplyInRange u.reply.now };
}

impl<'a> Untold<'a> {
    /// This reply.
    pub fn new(reply: &'a ClientReply) -> Untold<'a>
        requires { ReplyInRange reply.now }
        ensures { result ≡ client_frame reply.now }
    {
        Untold { reply }
    }
}

impl<'a> Encode for Untold<'a> {
    ghost bytes = { λ u. u };

    fn encode(&self, out: &mut Vec<u8>) -> Result<(), NoMemory> {
        put_reply(out, self.reply)
    }
}
