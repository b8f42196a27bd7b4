ghost use Rattle.std.specs.Prelude.{◌≡◌, IfOk};
ghost use Rattle.op_serving.specs.Reading.{heard_from, asked_in, heard_in};
ghost use Rattle.op_serving.specs.Wire.{message_in, request_in};
ghost use Rattle.op_queues.specs.Hearing.{HeardInRange};

use op_command::take_request;
use op_fields::TakeFail;
use op_serving::{Heard, Kind};
use op_types::{NoMemory, Pid};
use std::alloc::Global;

/// What a body says that came in a session of this kind.
pub fn hear(alloc: Global, me: Pid, kind: Kind, body: &[u8]) -> Result<Heard, NoMemory>
    ensures is { IfOk result (λ heard. heard ≡ heard_in me kind body.now) }
    ensures range { IfOk result HeardInRange }
{
    match kind {
        Kind::Unknown => Ok(Heard::Foreign),
        Kind::Peer(peer, _) => hear_message(alloc, me, peer, body),
        Kind::Client => hear_request(alloc, body),
    }
}

/// What a peer's body says.
fn hear_message(alloc: Global, me: Pid, peer: Pid, body: &[u8]) -> Result<Heard, NoMemory>
    ensures is { IfOk result (λ heard. heard ≡ heard_from me peer (message_in body.now)) }
    ensures range { IfOk result HeardInRange }
{
    match op_msg::take(alloc, body) {
        Ok((from, to, message)) => {
            if from != peer {
                return Ok(Heard::Foreign);
            }
            if to != me {
                return Ok(Heard::Foreign);
            }
            Ok(Heard::Message(from, message))
        }
        Err(TakeFail::Bad { .. }) => Ok(Heard::Noise),
        Err(TakeFail::NoMemory) => Err(NoMemory),
    }
}

/// What a client's body says.
fn hear_request(alloc: Global, body: &[u8]) -> Result<Heard, NoMemory>
    ensures is { IfOk result (λ heard. heard ≡ asked_in (request_in body.now)) }
    ensures range { IfOk result HeardInRange }
{
    match take_request(alloc, body) {
        Ok(request) => Ok(Heard::Asks(request)),
        Err(TakeFail::Bad { at }) => Ok(Heard::Mistake(at as u64)),
        Err(TakeFail::NoMemory) => Err(NoMemory),
    }
}
