ghost use Rattle.std.specs.Prelude.{◌≡◌, ◌≢◌, ◌<◌, length, Ok, IfOk, IfErr};
ghost use Rattle.std_io.specs.IoError.{error_kind};
ghost use Rattle.std_io.specs.declared.io.kind.ErrorKind.TheVariants.{WouldBlock};
ghost use Rattle.op_outside.specs.Nets.{GotWithin, TookWithin};

use crate::options::set_options;
use crate::poller::Poller;
use mio::event::Event;
use mio::net::TcpStream;
use op_outside::{Addr, Conn, Got, Happening, Took};
use std::io::{self, ErrorKind, Read, Write};

/// Whose a connection is.
#[derive(Clone, Copy, PartialEq, Eq)]
pub(crate) enum Whose {
    /// It was dialled here, to a server.
    Dialled,
    /// It came, and has said nothing yet.
    Newcomers,
    /// It came, and isn't a server's.
    Clients,
    /// It came, and says that it is this server's.
    Servers(u32),
}

/// The byte with which a server's connection begins; its id follows in four bytes.
const SERVERS: u8 = b'Q';

impl Whose {
    /// Whose a connection is that begins with these bytes.
    pub(crate) fn of(bytes: &[u8]) -> Whose {
        match bytes {
            [SERVERS, a, b, c, d, ..] => Whose::Servers(u32::from_be_bytes([*a, *b, *c, *d])),
            [SERVERS, ..] => Whose::Servers(0),
            _ => Whose::Clients,
        }
    }

    /// Whether it came from elsewhere, and isn't known to be a server's.
    pub(crate) fn is_guest(self) -> bool {
        self == Whose::Newcomers || self == Whose::Clients
    }
}

/// A connection, and what the system said of it. It says a thing once, at a change: so each is kept until a
/// read or a write finds it otherwise.
#[derive(Drop)]
pub(crate) struct Peer {
    /// None once it is closed.
    stream: Option<TcpStream>,
    pub(crate) whose: Whose,
    /// The address at its other end.
    pub(crate) addr: Addr,
    /// When it came, or last said something, in milliseconds of the net's clock.
    pub(crate) heard: u64,
    /// Whether a read may find bytes, or the end.
    readable: bool,
    /// Whether there is room again, of which `told_of_room` wasn't called.
    writable: bool,
    ended: bool,
    /// Whether it was dialled, and has had room since.
    is_open: bool,
    /// Where it waits for room: when it has ended unless there is room before, in milliseconds of the net's
    /// clock.
    pub(crate) deadline: Option<u64>,
}

impl Peer {
    /// A connection with this address, at this time. One that was dialled waits for room until the deadline,
    /// and is open then.
    pub(crate) fn new(
        stream: TcpStream,
        whose: Whose,
        addr: Addr,
        now: u64,
        deadline: Option<u64>,
    ) -> Peer {
        Peer {
            stream: Some(stream),
            whose,
            addr,
            heard: now,
            readable: false,
            writable: false,
            ended: false,
            is_open: false,
            deadline,
        }
    }

    /// Ends it, whatever it has still said.
    pub(crate) fn end(&mut self) {
        self.deadline = None;
        self.readable = false;
        self.ended = true;
    }

    /// Closes it: nothing is told of it any more.
    pub(crate) fn close(&mut self) {
        self.stream = None;
        self.deadline = None;
        self.readable = false;
        self.writable = false;
        self.ended = false;
    }

    pub(crate) fn is_closed(&self) -> bool {
        self.stream.is_none()
    }

    /// Notes what the system says of it.
    pub(crate) fn note(&mut self, event: &Event) {
        self.readable |= event.is_readable() || event.is_read_closed() || event.is_error();
        self.ended |= event.is_error() || event.is_write_closed();
        if event.is_writable() && self.deadline.take().is_some() {
            self.writable = true;
        }
    }

    /// Notes the time, in milliseconds of the net's clock. A client may say nothing for `idle` of them, if
    /// that has an end, and who has said nothing yet for `newcomers`.
    pub(crate) fn note_time(&mut self, now: u64, idle: Option<u64>, newcomers: Option<u64>) {
        let most = match self.whose {
            Whose::Newcomers => newcomers,
            Whose::Clients => idle,
            Whose::Dialled | Whose::Servers(_) => None,
        };
        let heard = self.heard;
        let is_idle = !self.readable && most.is_some_and(|most| heard.saturating_add(most) <= now);
        if is_idle || self.deadline.is_some_and(|deadline| deadline <= now) {
            self.end();
        }
    }

    /// Whether it was dialled, and has been open.
    pub(crate) fn is_open(&self) -> bool {
        self.is_open
    }

    /// Has the system tell what happens at it, under this key.
    pub(crate) fn register(&mut self, poller: &Poller, key: usize) -> io::Result<()> {
        let Some(stream) = &mut self.stream else {
            return Err(ErrorKind::NotConnected.into());
        };
        set_options(stream)?;
        poller.add(stream, key)
    }

    /// Whether there is something to tell of it.
    pub(crate) fn has_news(&self) -> bool {
        self.readable || self.writable || self.ended
    }

    /// Whether it has bytes, or has ended. Its last bytes come before its end.
    pub(crate) fn news(&self, conn: Conn) -> Option<Happening> {
        if self.readable {
            Some(Happening::Readable(conn))
        } else if self.ended {
            Some(Happening::Ended(conn))
        } else {
            None
        }
    }

    /// Whether it has room again.
    pub(crate) fn room(&self, conn: Conn) -> Option<Happening> {
        self.writable.then_some(Happening::Writable(conn))
    }

    /// Notes that it was told that there is room.
    pub(crate) fn told_of_room(&mut self) {
        self.writable = false;
    }

    /// Notes that it has room, or took bytes: whether one that was dialled is open now, and wasn't.
    pub(crate) fn opens(&mut self) -> bool {
        let is_new = self.whose == Whose::Dialled
            && !self.is_open
            && !self.ended
            && !self.is_closed();
        self.is_open |= is_new;
        is_new
    }

    pub(crate) fn read(&mut self, buf: &mut [u8]) -> Got
        requires { 0 < length buf.old }
        ensures { GotWithin (length buf.old) (Ok result) }
    {
        let Some(stream) = &mut self.stream else {
            return Got::Ended;
        };
        let got = got_of(stream.read(buf));
        match got {
            Got::Bytes(_) => {}
            Got::NotYet => self.readable = false,
            Got::Ended => {
                self.readable = false;
                self.ended = true;
            }
        }
        got
    }

    /// Writes what there is room for. Where there is none, it has ended unless there is room before
    /// `deadline`, or the deadline that stands.
    pub(crate) fn write(&mut self, piece: &[u8], deadline: u64) -> Took
        requires { 0 < length piece.now }
        ensures { TookWithin (length piece.now) (Ok result) }
    {
        let Some(stream) = &mut self.stream else {
            return Took::Ended;
        };
        let took = took_of(stream.write(piece));
        match took {
            Took::Bytes(_) => self.deadline = None,
            Took::NotYet => {
                self.writable = false;
                self.deadline.get_or_insert(deadline);
            }
            Took::Ended => self.ended = true,
        }
        took
    }
}

/// What the system's answer to a read says.
fn got_of(answer: io::Result<usize>) -> Got
    ensures bytes { IfOk answer (λ n. 0 < n → result ≡ Got.Bytes n) }
    ensures end { IfOk answer (λ n. n ≡ 0 → result ≡ Got.Ended) }
    ensures not_yet { IfErr answer (λ e. error_kind e ≡ WouldBlock → result ≡ Got.NotYet) }
    ensures gone { IfErr answer (λ e. error_kind e ≢ WouldBlock → result ≡ Got.Ended) }
{
    match answer {
        Ok(0) => Got::Ended,
        Ok(count) => Got::Bytes(count),
        Err(error) if error.kind() == ErrorKind::WouldBlock => Got::NotYet,
        Err(_) => Got::Ended,
    }
}

/// What the system's answer to a write says.
fn took_of(answer: io::Result<usize>) -> Took
    ensures bytes { IfOk answer (λ n. 0 < n → result ≡ Took.Bytes n) }
    ensures end { IfOk answer (λ n. n ≡ 0 → result ≡ Took.Ended) }
    ensures not_yet { IfErr answer (λ e. error_kind e ≡ WouldBlock → result ≡ Took.NotYet) }
    ensures gone { IfErr answer (λ e. error_kind e ≢ WouldBlock → result ≡ Took.Ended) }
{
    match answer {
        Ok(0) => Took::Ended,
        Ok(count) => Took::Bytes(count),
        Err(error) if error.kind() == ErrorKind::WouldBlock => Took::NotYet,
        Err(_) => Took::Ended,
    }
}
