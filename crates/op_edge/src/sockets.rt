ghost use Rattle.std.specs.Prelude.{◌≤◌, ◌<◌, length, vec_len, Ok};
ghost use Rattle.op_outside.specs.Nets.{most_happenings, GotWithin, TookWithin};

use crate::limits::Limits;
use crate::log::Log;
use crate::options::UNMOVED_MILLIS;
use crate::peer::{Peer, Whose};
use crate::poller::{LISTENER, Poller};
use mio::event::Event;
use mio::net::{TcpListener, TcpStream};
use op_outside::{Addr, Clock, Conn, Got, Happening, MOST_HAPPENINGS, Took};
use slab::Slab;
use std::alloc::Global;
use std::collections::BTreeMap;
use std::fmt::Display;
use std::io::{self, ErrorKind};
use std::net::{Ipv4Addr, Net, SocketAddr};
use std::ops::Range;
use std::time;

/// How long a dial may go without an answer, in milliseconds.
const UNANSWERED_MILLIS: u64 = 1000;

/// How many connections a wait accepts at most.
const MOST_ACCEPTED: u32 = 16;

/// How long after an error of the listener it is tried again, in milliseconds.
const ACCEPT_AGAIN_MILLIS: u64 = 100;

/// How many connections more than clients may be connected are accepted, of which it isn't known yet whose
/// they are: so servers find room.
const NEWCOMERS: u64 = 64;

/// How long one of these may say nothing while there are more clients than may be connected, in milliseconds.
const NEWCOMERS_MILLIS: u64 = 10_000;

/// A listener and connections. A connection's number is its key in the table: no two that are open share it.
/// That of one which is closed comes again behind the next wait, so that what the last one told is never
/// taken for news of another.
#[derive(Drop)]
pub(crate) struct Sockets<
    R: Net + time::Clock + Eprint + Alloc<A = Global> + Drop,
    C: Clock + Drop,
> {
    rt: R,
    clock: C,
    log: Log,
    limits: Limits,
    /// None where the system gave none.
    poller: Option<Poller>,
    listener: Option<TcpListener>,
    /// Whether connections may wait at the listener.
    acceptable: bool,
    /// When they may again, after an error of the listener, in milliseconds of the clock: the system then
    /// tells of none that waits already.
    accept_at: Option<u64>,
    peers: Slab<Peer>,
    /// How many of them came from elsewhere and aren't known to be a server's.
    guests: u64,
    /// How many of these have said something.
    clients: u64,
    /// The addresses that were dialled in vain since they last answered, which was told.
    silent: BTreeMap<(u32, u16), ()>,
    /// Whether it was told that connections are not kept.
    is_crowd_told: bool,
    /// With which connection the next happenings begin, so that each has its turn.
    turn: Conn,
}

impl<R: Net + time::Clock + Eprint + Alloc<A = Global> + Drop, C: Clock + Drop> Sockets<R, C> {
    pub(crate) fn new(rt: R, alloc: Global, clock: C) -> Self {
        let poller = Poller::new(&rt, alloc).ok();
        Sockets {
            rt,
            clock,
            log: Log::off(),
            limits: Limits::of_files(),
            poller,
            listener: None,
            acceptable: false,
            accept_at: None,
            peers: Slab::new(alloc),
            guests: 0,
            clients: 0,
            silent: BTreeMap::new(alloc),
            is_crowd_told: false,
            turn: 0,
        }
    }

    /// Tells what happens by these lines, and keeps to these limits.
    pub(crate) fn set(&mut self, log: Log, limits: Limits) {
        self.log = log;
        self.limits = limits;
    }

    /// Accepts connections at this address from now on, and at no other.
    pub(crate) fn listen(&mut self, addr: &Addr) -> io::Result<()> {
        let answer = self.begin_to_listen(addr);
        let at = socket_addr(addr);
        match &answer {
            Ok(()) => self.log.tell(&self.rt, format_args!("listens at {at}")),
            Err(error) => self
                .log
                .tell(&self.rt, format_args!("can't listen at {at}: {error}")),
        }
        answer
    }

    fn begin_to_listen(&mut self, addr: &Addr) -> io::Result<()> {
        let Some(poller) = &self.poller else {
            return Err(ErrorKind::Other.into());
        };
        let mut listener = TcpListener::bind(&self.rt, socket_addr(addr))?;
        poller.add_listener(&mut listener)?;
        self.listener = Some(listener);
        Ok(())
    }

    /// Begins a connection to this address. There is none where the system refuses it at once, as where no
    /// way leads there, and where it can't be kept, as for want of memory. It fails where the system gave no
    /// means to wait for sockets.
    pub(crate) fn dial(&mut self, addr: &Addr) -> io::Result<Option<Conn>> {
        if self.poller.is_none() {
            return Err(ErrorKind::Other.into());
        }
        let now = self.clock.millis();
        let deadline = Some(now.saturating_add(UNANSWERED_MILLIS));
        let Ok(stream) = TcpStream::connect(&self.rt, socket_addr(addr)) else {
            self.note_silent(*addr);
            return Ok(None);
        };
        let peer = Peer::new(stream, Whose::Dialled, *addr, now, deadline);
        Ok(self.keep(peer).ok())
    }

    /// Keeps a connection. One that can't be kept is closed.
    fn keep(&mut self, mut peer: Peer) -> io::Result<Conn> {
        let Some(poller) = &self.poller else {
            return Err(ErrorKind::Other.into());
        };
        let is_guest = peer.whose.is_guest();
        let key = self.peers.vacant_key();
        peer.register(poller, key)?;
        if self.peers.insert(peer).is_err() {
            return Err(ErrorKind::OutOfMemory.into());
        }
        if is_guest {
            self.guests = self.guests.saturating_add(1);
        }
        Ok(key as Conn)
    }

    /// Waits for happenings, for `ms` milliseconds at most, and gives 64 of them at most. The others are
    /// given later.
    pub(crate) fn wait(&mut self, ms: u64, given: &mut Vec<Happening>) -> io::Result<()>
        requires { vec_len given.old ≤ most_happenings }
        ensures { vec_len given.new ≤ most_happenings }
    {
        given.reserve(MOST_HAPPENINGS)?;
        self.poll(ms)?;
        self.accept(given);
        give_in_turn(&self.peers, self.turn, given);
        Ok(())
    }

    /// Waits, and notes what the system says.
    fn poll(&mut self, ms: u64) -> io::Result<()> {
        let ms = self.patience(ms);
        let Some(poller) = &mut self.poller else {
            return Err(ErrorKind::Other.into());
        };
        poller.wait(ms)?;
        for event in &poller.events {
            if event.token() == LISTENER {
                self.acceptable = true;
            } else {
                note(&mut self.peers, event);
            }
        }
        self.note_time();
        Ok(())
    }

    /// Notes the time, and lets go of the numbers of those that are closed.
    fn note_time(&mut self) {
        let now = self.clock.millis();
        if self.accept_at.is_some_and(|time| time <= now) {
            self.accept_at = None;
            self.acceptable = true;
        }
        let idle = self.limits.idle_millis;
        let newcomers = if self.guests > self.limits.most_clients {
            Some(NEWCOMERS_MILLIS)
        } else {
            idle
        };
        self.peers.retain(|_, peer| {
            peer.note_time(now, idle, newcomers);
            !peer.is_closed()
        });
    }

    /// How long to wait, in milliseconds: not where there is something to tell, and not past a deadline or
    /// the listener's next try.
    fn patience(&mut self, ms: u64) -> u64 {
        if self.acceptable || self.peers.iter().any(|(_, peer)| peer.has_news()) {
            return 0;
        }
        let now = self.clock.millis();
        let until_accept = self.accept_at.map_or(ms, |time| time.saturating_sub(now));
        self.peers.iter().filter_map(|(_, peer)| peer.deadline).fold(
            ms.min(until_accept),
            |least, deadline| least.min(deadline.saturating_sub(now)),
        )
    }

    /// Takes what waits at the listener.
    fn accept(&mut self, given: &mut Vec<Happening>)
        requires { vec_len given.old ≤ most_happenings }
        ensures { vec_len given.new ≤ most_happenings }
    {
        'accepted: for _ in 0..MOST_ACCEPTED {
            if !self.acceptable {
                break;
            }
            put(given, self.accept_one().map(Happening::Accepted));
        }
    }

    /// The next connection at the listener. One that has ended already, or that can't be kept, is closed. Any
    /// other error passes, as where files have run out: none is there then, and the listener is tried again
    /// after a while.
    fn accept_one(&mut self) -> Option<Conn> {
        let Some(listener) = &self.listener else {
            self.acceptable = false;
            return None;
        };
        match listener.accept() {
            Ok((stream, from)) => self.keep_newcomer(stream, from),
            Err(error) if error.kind() == ErrorKind::ConnectionAborted => None,
            Err(error) => {
                self.acceptable = false;
                if error.kind() != ErrorKind::WouldBlock {
                    let again = self.clock.millis().saturating_add(ACCEPT_AGAIN_MILLIS);
                    self.accept_at = Some(again);
                    self.tell_crowd(format_args!("can't accept connections: {error}"));
                }
                None
            }
        }
    }

    /// Keeps a connection that came. Where too many came of which it isn't known whose they are it is closed.
    fn keep_newcomer(&mut self, stream: TcpStream, from: SocketAddr) -> Option<Conn> {
        let most = self.limits.most_clients;
        if self.guests >= most.saturating_add(NEWCOMERS) {
            self.tell_crowd(format_args!("{most} clients are connected: more are closed"));
            return None;
        }
        let now = self.clock.millis();
        let peer = Peer::new(stream, Whose::Newcomers, addr_of(from), now, None);
        self.keep(peer).ok()
    }

    /// Tells that connections are not kept, once until there is room again.
    fn tell_crowd<D: Display + Drop>(&mut self, what: D) {
        if !self.is_crowd_told {
            self.is_crowd_told = true;
            self.log.tell(&self.rt, what);
        }
    }

    /// Tells that this address doesn't answer, once until it does again.
    fn note_silent(&mut self, addr: Addr) {
        let key = (addr.host, addr.port);
        if self.silent.contains_key(&key) {
            return;
        }
        let _ = self.silent.insert(key, ());
        let at = socket_addr(&addr);
        self.log.tell(&self.rt, format_args!("no answer at {at}"));
    }

    /// Notes that a happening was told.
    pub(crate) fn told(&mut self, happening: Happening) {
        if let Happening::Writable(conn) = happening {
            if let Some(peer) = self.peers.get_mut(conn as usize) {
                peer.told_of_room();
            }
            self.opens(conn);
        }
        match happening {
            Happening::Accepted(_) => {}
            Happening::Readable(conn) | Happening::Writable(conn) | Happening::Ended(conn) => {
                self.turn = conn.saturating_add(1);
            }
        }
    }

    /// Notes that a connection has room, or took bytes: one that was dialled is open from the first time on.
    fn opens(&mut self, conn: Conn) {
        let Some(peer) = self.peers.get_mut(conn as usize) else {
            return;
        };
        let is_new = peer.opens();
        let addr = peer.addr;
        if is_new {
            self.silent.remove(&(addr.host, addr.port));
            let at = socket_addr(&addr);
            self.log.tell(&self.rt, format_args!("a link to {at}"));
        }
    }

    pub(crate) fn read(&mut self, conn: Conn, buf: &mut [u8]) -> Got
        requires { 0 < length buf.old }
        ensures { GotWithin (length buf.old) (Ok result) }
    {
        let got = match self.peers.get_mut(conn as usize) {
            Some(peer) => peer.read(buf),
            None => Got::Ended,
        };
        match got {
            Got::Bytes(count) if !self.hears(conn, buf.get(..count).unwrap_or(&[])) => Got::Ended,
            got => got,
        }
    }

    /// Notes what a connection said. One of more clients than may be connected is ended: then it answers
    /// false.
    fn hears(&mut self, conn: Conn, bytes: &[u8]) -> bool {
        let now = self.clock.millis();
        let most = self.limits.most_clients;
        let Some(peer) = self.peers.get_mut(conn as usize) else {
            return false;
        };
        peer.heard = now;
        if peer.whose != Whose::Newcomers {
            return true;
        }
        match Whose::of(bytes) {
            Whose::Servers(id) => {
                peer.whose = Whose::Servers(id);
                self.guests = self.guests.saturating_sub(1);
                let at = socket_addr(&peer.addr);
                self.log
                    .tell(&self.rt, format_args!("server {id} has a link from {at}"));
                true
            }
            _ if self.clients < most => {
                peer.whose = Whose::Clients;
                self.clients = self.clients.saturating_add(1);
                true
            }
            _ => {
                peer.end();
                self.tell_crowd(format_args!("{most} clients are connected: more are closed"));
                false
            }
        }
    }

    pub(crate) fn write(&mut self, conn: Conn, piece: &[u8]) -> Took
        requires { 0 < length piece.now }
        ensures { TookWithin (length piece.now) (Ok result) }
    {
        let now = self.clock.millis();
        let deadline = now.saturating_add(u64::from(UNMOVED_MILLIS));
        let took = match self.peers.get_mut(conn as usize) {
            Some(peer) => peer.write(piece, deadline),
            None => Took::Ended,
        };
        if let Took::Bytes(_) = took {
            self.opens(conn);
        }
        took
    }

    pub(crate) fn close(&mut self, conn: Conn) {
        let Some(peer) = self.peers.get_mut(conn as usize) else {
            return;
        };
        if peer.is_closed() {
            return;
        }
        peer.close();
        let (whose, addr, is_open) = (peer.whose, peer.addr, peer.is_open());
        if whose.is_guest() {
            self.guests = self.guests.saturating_sub(1);
            self.is_crowd_told &= self.guests >= self.limits.most_clients;
        }
        if whose == Whose::Clients {
            self.clients = self.clients.saturating_sub(1);
        }
        let at = socket_addr(&addr);
        match whose {
            Whose::Dialled if is_open => {
                self.log
                    .tell(&self.rt, format_args!("the link to {at} is over"));
            }
            Whose::Dialled => self.note_silent(addr),
            Whose::Servers(id) => {
                self.log
                    .tell(&self.rt, format_args!("the link of server {id} is over"));
            }
            Whose::Newcomers | Whose::Clients => {}
        }
    }
}

fn socket_addr(addr: &Addr) -> SocketAddr {
    SocketAddr::from((Ipv4Addr::from(addr.host), addr.port))
}

/// The address of IPv4; port 0 of any other.
fn addr_of(addr: SocketAddr) -> Addr {
    match addr {
        SocketAddr::V4(addr) => Addr {
            host: addr.ip().to_bits(),
            port: addr.port(),
        },
        SocketAddr::V6(_) => Addr { host: 0, port: 0 },
    }
}

/// Notes what the system says of a connection.
fn note(peers: &mut Slab<Peer>, event: &Event) {
    if let Some(peer) = peers.get_mut(event.token().0) {
        peer.note(event);
    }
}

/// Gives what happened, from this connection on and then round to it.
fn give_in_turn(peers: &Slab<Peer>, turn: Conn, given: &mut Vec<Happening>)
    requires { vec_len given.old ≤ most_happenings }
    ensures { vec_len given.new ≤ most_happenings }
{
    let end = peers.capacity();
    let turn = end.min(turn as usize);
    give(peers, turn..end, given);
    give(peers, 0..turn, given);
}

/// Gives what happened at these connections, while there is room.
fn give(peers: &Slab<Peer>, which: Range<usize>, given: &mut Vec<Happening>)
    requires { vec_len given.old ≤ most_happenings }
    ensures { vec_len given.new ≤ most_happenings }
{
    'peers: for key in which {
        if let Some(peer) = peers.get(key) {
            put(given, peer.news(key as Conn));
            put(given, peer.room(key as Conn));
        }
    }
}

/// Gives a happening, if there is one, and room.
fn put(given: &mut Vec<Happening>, happening: Option<Happening>)
    requires { vec_len given.old ≤ most_happenings }
    ensures { vec_len given.new ≤ most_happenings }
{
    if let Some(happening) = happening {
        if given.len() < MOST_HAPPENINGS {
            // the room was made before
            let _ = given.push(happening);
        }
    }
}
