ghost use Rattle.std.specs.Prelude.{◌≡◌, IfOk};
ghost use Rattle.op_command.specs.Ranges.{RequestInRange};
ghost use Rattle.op_client.specs.Rules.{request_bytes};
ghost use Rattle.op_client.specs.Run.{EndsWith};

use crate::call_fail::CallFail;
use op_command::{ClientReply, Request, put_request, take_reply};
use op_fields::{NoMemory, TakeFail, put_u32};
use std::alloc::Global;

/// The first byte of a client's connection.
const CLIENT_BYTE: u8 = b'C';

/// What is written for a request: the first byte of a client's connection, and the request's frame.
pub fn request_bytes(alloc: Global, request: &Request) -> Result<Vec<u8>, NoMemory>
    requires { RequestInRange request.now }
    ensures { IfOk result (λ bytes. bytes.items ≡ request_bytes request.now) }
{
    let mut body = Vec::new(alloc);
    put_request(&mut body, request)?;
    let Ok(len) = u32::try_from(body.len()) else {
        return Err(NoMemory);
    };
    let mut out = Vec::from_slice(alloc, &[CLIENT_BYTE])?;
    put_u32(&mut out, len)?;
    out.extend_from_slice(body.as_slice())?;
    Ok(out)
}

/// What the body of a frame says.
pub fn read_reply(alloc: Global, body: &[u8]) -> Result<ClientReply, CallFail>
    ensures { EndsWith body.now result }
{
    match take_reply(alloc, body) {
        Ok(reply) => Ok(reply),
        Err(TakeFail::Bad { .. }) => Err(CallFail::NoReply),
        Err(TakeFail::NoMemory) => Err(CallFail::NoMemory),
    }
}
