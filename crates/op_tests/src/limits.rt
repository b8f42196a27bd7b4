//! How many connections real sockets keep, and for how long.

use op_edge::{Limits, Log, MioNet, MonotonicClock};
use op_memory::FakeClock;
use op_outside::{Addr, Conn, Got, Happening, Net};
use std::collections::VecDeque;

/// 127.0.0.1.
const LOOPBACK: u32 = 0x7f00_0001;

/// Listens at a port of this machine that is free.
fn listen<N: Net>(net: &mut N) -> Option<Addr> {
    for port in 21_100..21_200u16 {
        let addr = Addr {
            host: LOOPBACK,
            port,
        };
        if net.listen(&addr).is_ok() {
            return Some(addr);
        }
    }
    None
}

/// What happens next at a net.
fn next<N: Net>(net: &mut N) -> Option<Happening> {
    for _ in 0..50u32 {
        if net.wait(100).ok()? > 0 {
            return Some(net.ready(0));
        }
    }
    None
}

/// Dials, and says this as soon as the connection is open.
fn say<N: Net>(net: &mut N, addr: &Addr, bytes: &[u8]) -> Option<Conn> {
    let conn = net.dial(addr).ok()??;
    let is_open = next(net)? == Happening::Writable(conn);
    if !is_open || bytes.is_empty() {
        return None;
    }
    net.write(conn, bytes).ok()?;
    Some(conn)
}

/// The connection that comes, and what is read of it: it is closed if it has ended, and else nothing more is
/// there.
fn hear<N: Net>(net: &mut N) -> Option<(Conn, Got)> {
    let Happening::Accepted(conn) = next(net)? else {
        return None;
    };
    if next(net)? != Happening::Readable(conn) {
        return None;
    }
    let got = net.read(conn, &mut [0u8; 8]).ok()?;
    if got == Got::Ended {
        net.close(conn);
    } else if net.read(conn, &mut [0u8; 8]).ok()? != Got::NotYet {
        return None;
    }
    Some((conn, got))
}

/// What a connection says, which of the ones before it is closed first, if one is, and what is read of it.
type Row = (&'static [u8], Option<usize>, Got);

/// Where one client may be connected at a time.
const ROWS: [Row; 5] = [
    (b"C", None, Got::Bytes(1)),
    (b"C", None, Got::Ended),
    (b"Q\0\0\0\x02", None, Got::Bytes(5)),
    (b"C", None, Got::Ended),
    (b"C", Some(0), Got::Bytes(1)),
];

/// The first connection of which something else is read.
fn first_wrong<N: Net, M: Net>(server: &mut N, client: &mut M, addr: &Addr) -> Option<usize> {
    let mut first: Option<Conn> = None;
    for (place, (bytes, closed, got)) in ROWS.iter().enumerate() {
        if closed.is_some() {
            server.close(first.unwrap_or(0));
        }
        if say(client, addr, bytes).is_none() {
            return Some(place);
        }
        match hear(server) {
            Some((conn, read)) if read == *got => {
                first.get_or_insert(conn);
            }
            _ => return Some(place),
        }
    }
    None
}

#[test]
fn servers_are_kept_beside_any_number_of_clients(rt: HostRuntime) {
    let limits = Limits {
        most_clients: 1,
        idle_millis: None,
    };
    let clock = MonotonicClock::new(&rt);
    let mut server = MioNet::new(&rt, rt.alloc(), clock).set(Log::off(), limits);
    let mut client = MioNet::new(&rt, rt.alloc(), MonotonicClock::new(&rt));
    let addr = listen(&mut server);
    assert!(rt; addr.is_some());
    let wrong = addr.and_then(|addr| first_wrong(&mut server, &mut client, &addr));
    assert_eq!(rt; wrong, None);
}

/// Whether a client that says nothing more has ended.
fn is_let_go<N: Net, M: Net>(server: &mut N, client: &mut M) -> Option<bool> {
    let addr = listen(server)?;
    say(client, &addr, b"C")?;
    let (conn, got) = hear(server)?;
    Some(got == Got::Bytes(1) && next(server)? == Happening::Ended(conn))
}

/// By a clock that goes on by a second with each answer.
#[test]
fn a_client_that_says_nothing_is_let_go(rt: HostRuntime) {
    let limits = Limits {
        most_clients: 8,
        idle_millis: Some(20_000),
    };
    let clock = FakeClock::new(rt.alloc(), VecDeque::new(rt.alloc()), 1000);
    let mut server = MioNet::new(&rt, rt.alloc(), clock).set(Log::off(), limits);
    let mut client = MioNet::new(&rt, rt.alloc(), MonotonicClock::new(&rt));
    assert_eq!(rt; is_let_go(&mut server, &mut client), Some(true));
}
