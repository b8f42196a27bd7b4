ghost use Rattle.op_command.specs.Ranges.{RequestInRange};
ghost use Rattle.op_client.specs.Called.{Calls};

use crate::call_fail::CallFail;
use crate::client::Client;
use op_command::{ClientReply, Request};
use op_outside::{Addr, Net};
use std::alloc::Global;

/// Asks the node at this address, and gives its reply.
///
/// It dials once. Then, at most 1,000 times, it writes what is left of the request until the connection takes
/// no more, waits 100 milliseconds at most, and reads once for each time that the connection has bytes. The
/// first whole frame ends it. What happens to other connections does nothing.
///
/// A connection that was dialled is closed at the end, however the call ends. So after a call of the net that
/// failed there is one more at most, this `close`, which a net takes at any time and which does not fail.
pub fn call<N: Net>(
    alloc: Global,
    net: &mut N,
    addr: &Addr,
    request: &Request,
) -> Result<ClientReply, CallFail>
    requires { RequestInRange request.now }
    ensures { Calls addr.now request.now result
        (N.told net.old, N.fault_count net.old) (N.told net.new, N.fault_count net.new) }
{
    let client = Client::new(alloc, request)?;
    match net.dial(addr) {
        Ok(Some(conn)) => {
            let ending = client.talk(net, conn);
            net.close(conn);
            ending
        }
        Ok(None) => Err(CallFail::NoReply),
        Err(_) => Err(CallFail::NetFault),
    }
}
