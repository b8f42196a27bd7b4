use mio::net::{TcpListener, TcpStream};
use mio::{Events, Interest, Poll, Token};
use op_outside::MOST_HAPPENINGS;
use std::alloc::Global;
use std::io;
use std::net::Net;
use std::time::Duration;

/// Under which the listener's events come. No connection has this key.
pub(crate) const LISTENER: Token = Token(usize::MAX);

/// Where sockets are registered, and what the last wait told of them.
#[derive(Drop)]
pub(crate) struct Poller {
    poll: Poll,
    pub(crate) events: Events<Global>,
}

impl Poller {
    pub(crate) fn new(rt: &impl Net, alloc: Global) -> io::Result<Poller> {
        Ok(Poller {
            poll: Poll::new(rt)?,
            events: Events::with_capacity(alloc, MOST_HAPPENINGS)?,
        })
    }

    pub(crate) fn add_listener(&self, listener: &mut TcpListener) -> io::Result<()> {
        let registry = self.poll.registry();
        registry.register(listener, LISTENER, Interest::READABLE)
    }

    pub(crate) fn add(&self, stream: &mut TcpStream, key: usize) -> io::Result<()> {
        let both = Interest::READABLE | Interest::WRITABLE;
        self.poll.registry().register(stream, Token(key), both)
    }

    /// Waits for events, for `ms` milliseconds at most.
    pub(crate) fn wait(&mut self, ms: u64) -> io::Result<()> {
        let timeout = Duration::from_millis(ms);
        self.poll.poll(&mut self.events, Some(timeout))
    }
}
