//! Whoever waits for a command that is decided is answered, and so is whoever waits for one that is given up.
ghost use Rattle.std.specs.Prelude.{◌≡◌, ◌≤◌, ◌<◌, ◌+◌, fold, length};
ghost use Rattle.op_protocol.specs.Serving.{dropping_reply, is_of_stop};
ghost use Rattle.op_chain.specs.Answering.{giving_reply, dropped_of};

use crate::waiting_set::WaitingSet;
use op_types::{Replies, Reply, Reserved};

/// Tells those that wait for what is given up, in order: there is room for a reply to each. Who proposed a
/// stop-sign, by client 0 and number 0, is told too.
pub(crate) fn give_up(waiting: &mut WaitingSet, told: &mut Reserved<Reply>, replies: Replies)
    requires { length replies ≤ told.old.room }
    ensures told { dropped_of waiting.new told.new
        ≡ fold dropping_reply (dropped_of waiting.old told.old) replies }
    ensures room { told.old.room ≤ told.new.room + length replies }
{
    'replies: for reply in replies.into_vec() {
        tell(waiting, told, reply);
    }
}

/// Tells one that waits, who then waits no longer.
fn tell(waiting: &mut WaitingSet, told: &mut Reserved<Reply>, reply: Reply)
    requires { 0 < told.old.room }
    ensures told { dropped_of waiting.new told.new
        ≡ dropping_reply (dropped_of waiting.old told.old) reply }
    ensures room { told.old.room ≤ told.new.room + 1 }
{
    if is_of_stop(&reply) || waiting.remove(reply.client, reply.seq) {
        told.add(reply);
    }
}

/// Whether the proposer of a stop-sign is told.
fn is_of_stop(reply: &Reply) -> bool
    ensures { result ≡ is_of_stop reply.now }
{
    reply.client == 0 && reply.seq == 0
}

/// Gives these replies to those that wait for them, in order: there is room for each.
pub(crate) fn give(waiting: &mut WaitingSet, given: &mut Reserved<Reply>, replies: Replies)
    requires { length replies ≤ given.old.room }
    ensures given { dropped_of waiting.new given.new
        ≡ fold giving_reply (dropped_of waiting.old given.old) replies }
    ensures room { given.old.room ≤ given.new.room + length replies }
{
    'replies: for reply in replies.into_vec() {
        give_one(waiting, given, reply);
    }
}

/// Gives a reply to whoever waits for it, who then waits no longer.
fn give_one(waiting: &mut WaitingSet, given: &mut Reserved<Reply>, reply: Reply)
    requires { 0 < given.old.room }
    ensures given { dropped_of waiting.new given.new
        ≡ giving_reply (dropped_of waiting.old given.old) reply }
    ensures room { given.old.room ≤ given.new.room + 1 }
{
    if waiting.remove(reply.client, reply.seq) {
        given.add(reply);
    }
}
