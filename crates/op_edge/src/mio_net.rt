ghost use Rattle.std.specs.Prelude.{◌≡◌, None, vec_len};

use crate::faults::counted;
use crate::limits::Limits;
use crate::log::Log;
use crate::sockets::Sockets;
use op_outside::{Addr, Clock, Conn, Got, Happening, Net, NetFail, Took};
use std::alloc::Global;
use std::{net, time};

/// Sockets. They tell none of their calls.
///
/// A connection has ended where the other end closed it; where a dial has no answer for 1 s, or written bytes
/// haven't moved for 2 s; where nobody is at the other end any more, which is asked after a minute without a
/// byte; and where its limits don't let it stay: a client more than these say, or one that has said nothing
/// for so long. That is told until it is closed here. A connection that was dialled tells by `Writable` that
/// its dial has an answer: it is open, or it was refused, and then it ends too.
#[derive(Drop)]
pub struct MioNet<R: net::Net + time::Clock + Eprint + Alloc<A = Global> + Drop, C: Clock + Drop> {
    sockets: Sockets<R, C>,
    /// What the last wait gave.
    happenings: Vec<Happening>,
    faults: u64,
}

impl<R: net::Net + time::Clock + Eprint + Alloc<A = Global> + Drop, C: Clock + Drop> MioNet<R, C> {
    /// No sockets yet. Where the system gives no means to wait for sockets, each wait fails.
    pub fn new(rt: R, alloc: Global, clock: C) -> Self
        ensures { ⟦<MioNet<R, C> as Net>⟧.fault_count result ≡ 0 }
    {
        MioNet {
            sockets: Sockets::new(rt, alloc, clock),
            happenings: Vec::new(alloc),
            faults: 0,
        }
    }

    /// The same, which tells what happens by these lines, and keeps to these limits.
    pub fn set(mut self, log: Log, limits: Limits) -> Self
        ensures { ⟦<MioNet<R, C> as Net>⟧.fault_count result ≡ ⟦<MioNet<R, C> as Net>⟧.fault_count self }
    {
        self.sockets.set(log, limits);
        self
    }
}

impl<R: net::Net + time::Clock + Eprint + Alloc<A = Global> + Drop, C: Clock + Drop> Net
    for MioNet<R, C> {
    ghost told = { λ _. None };

    ghost fault_count = { λ n. n.faults };

    ghost given = { λ n. vec_len n.happenings };

    fn faults(&self) -> u64 {
        self.faults
    }

    fn listen(&mut self, addr: &Addr) -> Result<(), NetFail> {
        let answer = self.sockets.listen(addr);
        counted(&mut self.faults, answer, NetFail)
    }

    fn dial(&mut self, addr: &Addr) -> Result<Option<Conn>, NetFail> {
        let answer = self.sockets.dial(addr);
        counted(&mut self.faults, answer, NetFail)
    }

    fn wait(&mut self, ms: u64) -> Result<usize, NetFail> {
        self.happenings.clear();
        let answer = self.sockets.wait(ms, &mut self.happenings);
        counted(&mut self.faults, answer, NetFail)?;
        Ok(self.happenings.len())
    }

    fn ready(&mut self, i: usize) -> Happening {
        let happening = self.happenings[i];
        self.sockets.told(happening);
        happening
    }

    fn read(&mut self, conn: Conn, buf: &mut [u8]) -> Result<Got, NetFail> {
        Ok(self.sockets.read(conn, buf))
    }

    fn write(&mut self, conn: Conn, piece: &[u8]) -> Result<Took, NetFail> {
        Ok(self.sockets.write(conn, piece))
    }

    fn close(&mut self, conn: Conn) {
        self.sockets.close(conn);
    }
}
