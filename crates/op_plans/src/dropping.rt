//! Who is told that a buffered proposal is given up.
ghost use Rattle.std.specs.Prelude.{◌≡◌, ◌++◌, flat_map, IfOk, OnOk};
ghost use Rattle.op_types.specs.Roles.{role_of};
ghost use Rattle.op_protocol.specs.Promises.{dropped};
ghost use Rattle.op_protocol.specs.Leader.{given_up_by};

use op_types::{Answer, Buffered, Cause, Entry, Replies, Reply, Role};
use std::alloc::{AllocError as NoMemory, Global};

/// Whoever waits for the command is told, and who proposed a stop-sign at this node.
pub fn push_dropped(
    replies: &mut Replies,
    buffered: &Buffered,
    cause: Cause,
) -> Result<(), NoMemory>
    ensures { OnOk result (replies.new ≡ replies.old ++ dropped cause buffered.now) }
{
    let (client, seq) = match &buffered.entry {
        Entry::Command(command) => (command.client, command.seq),
        Entry::Stop(_) => {
            if !buffered.is_own {
                return Ok(());
            }
            (0, 0)
        }
    };
    replies.push(Reply {
        client,
        seq,
        answer: Answer::Dropped(cause),
    })
}

/// The same, of each of these.
fn all_dropped(alloc: Global, buffer: &[Buffered], cause: Cause) -> Result<Replies, NoMemory>
    ensures { IfOk result (λ replies. replies ≡ flat_map (λ b. dropped cause b) buffer.now) }
{
    let mut replies = Replies::new(alloc);
    for buffered in buffer {
        push_dropped(&mut replies, buffered, cause)?;
    }
    Ok(replies)
}

/// Those who are told when a role is given up.
pub fn given_up(alloc: Global, role: &Role, cause: Cause) -> Result<Replies, NoMemory>
    ensures { IfOk result (λ replies. replies ≡ given_up_by (role_of role.now) cause) }
{
    match role {
        Role::Preparing(preparing) => all_dropped(alloc, preparing.buffer.as_slice(), cause),
        Role::Idle | Role::Leading(_) => Ok(Replies::new(alloc)),
    }
}
