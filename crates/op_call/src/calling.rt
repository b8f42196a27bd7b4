ghost use Rattle.std.specs.Prelude.{◌≡◌};
ghost use Rattle.op_command.specs.Ranges.{RequestInRange};
ghost use Rattle.op_call.specs.Calls.{CallEnds, status_of};

use crate::lines::reply_line;
use op_client::{CallFail, call};
use op_outside::{Addr, Net, Sink, write_all};
use op_status::Status;
use op_types::Request;
use std::alloc::Global;

/// Asks the node at this address, and writes what it answers as a line. `NoReply`, `TurnsOver` and `NetFault`
/// come as the client's call tells them, and `WriteFault` where a write failed.
pub fn call_node<N: Net, K: Sink>(
    alloc: Global,
    addr: &Addr,
    request: &Request,
    net: &mut N,
    out: &mut K,
) -> Status
    requires { RequestInRange request.now }
    ensures { CallEnds addr.now request.now
        (N.told net.old, N.fault_count net.old) (N.told net.new, N.fault_count net.new)
        (K.held out.old, K.fault_count out.old) (K.held out.new, K.fault_count out.new) result }
{
    let reply = match call(alloc, net, addr, request) {
        Ok(reply) => reply,
        Err(fail) => return status_of(fail),
    };
    let Ok(line) = reply_line(alloc, &reply.said) else {
        return Status::NoMemory;
    };
    match write_all(out, &line) {
        Ok(()) => Status::Ended,
        Err(_) => Status::WriteFault,
    }
}

fn status_of(fail: CallFail) -> Status
    ensures { result ≡ status_of fail }
{
    match fail {
        CallFail::NoReply => Status::NoReply,
        CallFail::TurnsOver => Status::TurnsOver,
        CallFail::NetFault => Status::NetFault,
        CallFail::NoMemory => Status::NoMemory,
    }
}
