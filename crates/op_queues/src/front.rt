ghost use Rattle.std.specs.Prelude.{◌≡◌, ◌≢◌, ◌≤◌, ◌+◌, IfOk, Ok, Err};
ghost use Rattle.op_frame.specs.Framing.{Stream};
ghost use Rattle.op_serving.specs.Ranges.{SessionInRange};
ghost use Rattle.op_serving.specs.Counts.{most_of};
ghost use Rattle.op_queues.specs.Hearing.{Alike, Takes, TakesFrame, FoundInRange, least_taken};
ghost use Rattle.op_serving.specs.declared.kind.Kind.TheVariants.{Unknown};

use crate::hearing::hear;
use op_frame::NextFail;
use op_serving::{
    CLIENT_HEAD, CLIENT_LIMIT, Greeting, HELLO_LEN, Heard, Kind, PEER_HEAD, PEER_LIMIT, Session,
    read_greeting,
};
use op_types::{NoMemory, Pid};
use std::alloc::Global;

/// What stood at the front of what a session has read.
#[derive(Drop)]
pub enum Front {
    /// No whole hello or frame yet.
    Waits,
    /// No hello, or a frame that is too long.
    Refused,
    /// The server of this id has said who it is.
    Hello(Pid),
    /// A frame that says this.
    Frame(Heard),
}

/// Takes what stands at the front of a session. A frame for which there is no memory stays.
pub fn take_front(session: &mut Session, me: Pid, alloc: Global) -> Result<Front, NoMemory>
    ensures takes { Takes me session.old result session.new }
    ensures alike { Alike session.old session.new }
    ensures session { SessionInRange session.old → SessionInRange session.new }
    ensures bytes { most_of session.new + least_taken result ≤ most_of session.old }
    ensures range { IfOk result FoundInRange }
{
    match session.kind {
        Kind::Unknown => take_hello(session, me, alloc),
        Kind::Peer(..) | Kind::Client => take_frame(session, me, alloc),
    }
}

/// Takes a hello; a client's first frame stands right behind its own.
fn take_hello(session: &mut Session, me: Pid, alloc: Global) -> Result<Front, NoMemory>
    requires { session.old.kind ≡ Unknown }
    ensures takes { Takes me session.old result session.new }
    ensures alike { Alike session.old session.new }
    ensures session { SessionInRange session.old → SessionInRange session.new }
    ensures bytes { most_of session.new + least_taken result ≤ most_of session.old }
    ensures range { IfOk result FoundInRange }
{
    match read_greeting(session.frames.held()) {
        Greeting::Silent => Ok(Front::Waits),
        Greeting::Client => {
            session.kind = Kind::Client;
            session.frames.begin(CLIENT_HEAD, CLIENT_LIMIT, 1);
            take_frame(session, me, alloc)
        }
        Greeting::Peer(peer) => {
            session.frames.begin(PEER_HEAD, PEER_LIMIT, HELLO_LEN);
            Ok(Front::Hello(peer))
        }
        Greeting::Strange => Ok(Front::Refused),
    }
}

/// Takes a frame.
fn take_frame(session: &mut Session, me: Pid, alloc: Global) -> Result<Front, NoMemory>
    ensures takes { TakesFrame me session.old result session.new }
    ensures kind { session.new.kind ≡ session.old.kind }
    ensures queue { session.new.queue ≡ session.old.queue }
    ensures bytes { most_of session.new + least_taken result ≤ most_of session.old }
    ensures range { IfOk result FoundInRange }
{
    let (heard, len) = match session.frames.peek() {
        Ok(body) => (hear(alloc, me, session.kind, body), body.len()),
        Err(NextFail::NotYet) => return Ok(Front::Waits),
        Err(NextFail::TooLong { .. }) => return Ok(Front::Refused),
        Err(NextFail::NoMemory) => return Err(NoMemory),
    };
    let Ok(heard) = heard else {
        return Err(NoMemory);
    };
    session.frames.pass(len);
    Ok(Front::Frame(heard))
}
