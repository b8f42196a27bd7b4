ghost use Rattle.std.specs.Prelude.{◌≡◌, ◌≤◌, ◌<◌, ◌∷◌, [], Some, None, true, false, IfOk, List, length, map, slice_index_or};
ghost use Rattle.std.specs.Result.{result_ok};
ghost use Rattle.op_outside.specs.Causes.{FaultsRose, FailsOnlyOnFault};
ghost use Rattle.op_outside.specs.Telling.{Grows};
ghost use Rattle.op_outside.specs.Nets.{most_happenings, Call, Listened, Dialled, Waited, Readied, WasRead, Wrote, Closed, seen_in, GotWithin, TookWithin};
ghost use Rattle.op_outside.specs.declared.net.Took.TheVariants as took;
ghost use Rattle.op_memory.specs.Fakes.{first_or, fails_next, one_more};
ghost use Rattle.op_memory.specs.ScriptNets.{NetState, net_call, answer_of, seen_next, happenings_next, took_of, IsButFor, called, after_dial, after_wait, after_read, after_write};

use op_outside::{Addr, Conn, Got, Happening, MOST_HAPPENINGS, Net, NetFail, Took};
use std::alloc::{AllocError, Global};
use std::collections::VecDeque;
use std::marker::Model;

/// What comes for a read.
#[derive(Drop)]
pub enum Incoming {
    /// These bytes. A read gives those that its buffer has room for, and the others are lost. No bytes are
    /// `NotYet`.
    Bytes(Vec<u8>),
    /// There are no bytes now.
    NotYet,
    /// The connection has ended.
    Ended,
}

/// A call of a net in memory with its answer, which is None where it failed.
#[derive(Drop)]
pub enum KeptCall {
    /// A `listen` at an address.
    Listened(Addr, Option<()>),
    /// A `dial` to an address, and the connection that it gave.
    Dialled(Addr, Option<Option<Conn>>),
    /// A `wait` of so many milliseconds, and how many happenings it gave.
    Waited(u64, Option<usize>),
    /// A `ready` at an index, and the happening.
    Readied(usize, Happening),
    /// A read of a connection into a buffer of so many bytes, and what came.
    WasRead(Conn, usize, Option<Incoming>),
    /// A write to a connection of a piece, and what was taken of it.
    Wrote(Conn, Vec<u8>, Option<Took>),
    /// A `close` of a connection.
    Closed(Conn),
}

/// What a net in memory does: the answers of each kind of call, in their order. A call that fails takes none.
#[derive(Drop)]
pub struct NetScript {
    /// The connection that each dial gives; later ones give None.
    pub dials: VecDeque<Option<Conn>>,
    /// The happenings of each wait, of which the first `MOST_HAPPENINGS` count; later waits have none.
    pub waits: VecDeque<Vec<Happening>>,
    /// What each read gives; later ones give `NotYet`.
    pub reads: VecDeque<Incoming>,
    /// How many bytes each write takes at most; later ones take all.
    pub writes: VecDeque<Took>,
    /// The calls that fail, which count from 1 over all kinds but `ready` and `close`.
    pub fails: Vec<u64>,
}

impl NetScript {
    /// A script with no answers.
    pub fn new(alloc: Global) -> NetScript
        ensures answers { (result.dials.items ≡ []) × (result.waits.items ≡ []) }
        ensures takes { (result.reads.items ≡ []) × (result.writes.items ≡ []) }
        ensures fails { result.fails.items ≡ [] }
    {
        NetScript {
            dials: VecDeque::new(alloc),
            waits: VecDeque::new(alloc),
            reads: VecDeque::new(alloc),
            writes: VecDeque::new(alloc),
            fails: Vec::new(alloc),
        }
    }
}

/// A net in memory, which plays a script and keeps its calls.
#[derive(Drop)]
pub struct ScriptNet {
    script: NetScript,
    calls: u64,
    faults: u64,
    ready: Vec<Happening>,
    kept: Vec<KeptCall>,
    forgot: bool,
}

impl Model for ScriptNet {
    ghost use Rattle.std.specs.Prelude.{map};
    ghost use Rattle.op_memory.specs.Fakes.{told_of};
    ghost use Rattle.op_memory.specs.ScriptNets.{NetState, net_call};

    ghost Value = { NetState };

    ghost view = { λ n. record {
      dials = n.script.dials.items;
      waits = n.script.waits.items;
      reads = n.script.reads.items;
      writes = n.script.writes.items;
      fails = n.script.fails.items;
      calls = n.calls;
      faults = n.faults;
      ready = n.ready.items;
      told = told_of n.forgot (map net_call n.kept.items);
    } };
}

impl ScriptNet {
    /// Plays this script.
    pub fn new(alloc: Global, script: NetScript) -> ScriptNet
        ensures { result ≡ record {
          dials = script.dials.items;
          waits = script.waits.items;
          reads = script.reads.items;
          writes = script.writes.items;
          fails = script.fails.items;
          calls = 0;
          faults = 0;
          ready = [];
          told = Some [];
        } }
    {
        ScriptNet {
            script,
            calls: 0,
            faults: 0,
            ready: Vec::new(alloc),
            kept: Vec::new(alloc),
            forgot: false,
        }
    }

    /// The calls that it keeps: all of them, where it has forgotten none.
    pub fn calls(&self) -> &[KeptCall]
        ensures { (calls : List Call) → self.now.told ≡ Some calls → calls ≡ map net_call result.now }
    {
        self.kept.as_slice()
    }

    /// Counts a call, and says whether it is one that fails, which it counts too.
    fn fails(&mut self) -> bool
        ensures fails { result ≡ fails_next self.old.calls self.old.fails }
        ensures ok { result ≡ false → self.new ≡ record self.old { calls = one_more self.old.calls } }
        ensures err { result ≡ true
            → self.new ≡ record self.old {
              calls = one_more self.old.calls;
              faults = one_more self.old.faults;
            } }
        ensures rose { result ≡ true
            → (self.old.faults ≤ self.new.faults) × FaultsRose self.old.faults self.new.faults }
    {
        self.calls = self.calls.saturating_add(1);
        let fails = self.script.fails.contains(&self.calls);
        if fails {
            self.faults = self.faults.saturating_add(1);
        }
        fails
    }

    /// Keeps a call.
    fn keep(&mut self, call: Result<KeptCall, AllocError>)
        ensures tells { (c : Call) → IfOk call (λ k. net_call k ≡ c)
            → Grows self.old.told (c ∷ []) self.new.told }
        ensures same { IsButFor self.old self.new }
    {
        match call {
            Ok(call) => {
                if self.kept.push(call).is_err() {
                    self.forgot = true;
                }
            }
            Err(_) => self.forgot = true,
        }
    }
}

impl Net for ScriptNet {
    ghost told = { λ n. n.told };

    ghost fault_count = { λ n. n.faults };

    ghost given = { λ n. length n.ready };

    fn faults(&self) -> u64 {
        self.faults
    }

    fn listen(&mut self, addr: &Addr) -> Result<(), NetFail>
        ensures given { length self.new.ready ≡ length self.old.ready }
        ensures tells { Grows self.old.told (Listened addr.now (result_ok result) ∷ []) self.new.told }
        ensures cause { FailsOnlyOnFault self.old.faults self.new.faults result }

        ensures answer { result ≡ answer_of self.old tt }
        ensures plays { IsButFor (called self.old result) self.new }
    {
        if self.fails() {
            self.keep(Ok(KeptCall::Listened(*addr, None)));
            return Err(NetFail);
        }
        self.keep(Ok(KeptCall::Listened(*addr, Some(()))));
        Ok(())
    }

    fn dial(&mut self, addr: &Addr) -> Result<Option<Conn>, NetFail>
        ensures given { length self.new.ready ≡ length self.old.ready }
        ensures tells { Grows self.old.told (Dialled addr.now (result_ok result) ∷ []) self.new.told }
        ensures cause { FailsOnlyOnFault self.old.faults self.new.faults result }

        ensures answer { result ≡ answer_of self.old (first_or None self.old.dials) }
        ensures plays { IsButFor (after_dial self.old result) self.new }
    {
        if self.fails() {
            self.keep(Ok(KeptCall::Dialled(*addr, None)));
            return Err(NetFail);
        }
        let conn = self.script.dials.pop_front().flatten();
        self.keep(Ok(KeptCall::Dialled(*addr, Some(conn))));
        Ok(conn)
    }

    fn wait(&mut self, ms: u64) -> Result<usize, NetFail>
        ensures most { IfOk result (λ n. n ≤ most_happenings) }
        ensures given { IfOk result (λ n. length self.new.ready ≡ n) }
        ensures tells { Grows self.old.told (Waited ms (result_ok result) ∷ []) self.new.told }
        ensures cause { FailsOnlyOnFault self.old.faults self.new.faults result }

        ensures answer { result ≡ answer_of self.old (length (happenings_next self.old.waits)) }
        ensures plays { IsButFor (after_wait self.old result) self.new }
    {
        if self.fails() {
            self.keep(Ok(KeptCall::Waited(ms, None)));
            return Err(NetFail);
        }
        match self.script.waits.pop_front() {
            Some(happenings) => self.ready = happenings,
            None => self.ready.clear(),
        }
        self.ready.truncate(MOST_HAPPENINGS);
        let count = self.ready.len();
        self.keep(Ok(KeptCall::Waited(ms, Some(count))));
        Ok(count)
    }

    fn ready(&mut self, i: usize) -> Happening
        requires { i < length self.old.ready }
        ensures given { length self.new.ready ≡ length self.old.ready }
        ensures tells { Grows self.old.told (Readied i result ∷ []) self.new.told }
        ensures count { self.new.faults ≡ self.old.faults }

        ensures answer { result ≡ slice_index_or self.old.ready i result }
        ensures plays { IsButFor self.old self.new }
    {
        let happening = self.ready[i];
        self.keep(Ok(KeptCall::Readied(i, happening)));
        happening
    }

    fn read(&mut self, conn: Conn, buf: &mut [u8]) -> Result<Got, NetFail>
        requires { 0 < length buf.old }
        ensures within { GotWithin (length buf.old) result }
        ensures given { length self.new.ready ≡ length self.old.ready }
        ensures tells { let call = WasRead conn (length buf.old) (seen_in buf.new result) in
            Grows self.old.told (call ∷ []) self.new.told }
        ensures cause { FailsOnlyOnFault self.old.faults self.new.faults result }

        ensures answer { seen_in buf.new result ≡ seen_next (length buf.old) self.old }
        ensures plays { IsButFor (after_read self.old result) self.new }
    {
        let room = buf.len();
        if self.fails() {
            self.keep(Ok(KeptCall::WasRead(conn, room, None)));
            return Err(NetFail);
        }
        match self.script.reads.pop_front().unwrap_or(Incoming::NotYet) {
            Incoming::Bytes(mut bytes) => {
                if bytes.is_empty() {
                    self.keep(Ok(KeptCall::WasRead(conn, room, Some(Incoming::NotYet))));
                    return Ok(Got::NotYet);
                }
                bytes.truncate(room);
                let count = bytes.len();
                buf[..count].copy_from_slice(bytes.as_slice());
                self.keep(Ok(KeptCall::WasRead(conn, room, Some(Incoming::Bytes(bytes)))));
                Ok(Got::Bytes(count))
            }
            Incoming::Ended => {
                self.keep(Ok(KeptCall::WasRead(conn, room, Some(Incoming::Ended))));
                Ok(Got::Ended)
            }
            Incoming::NotYet => {
                self.keep(Ok(KeptCall::WasRead(conn, room, Some(Incoming::NotYet))));
                Ok(Got::NotYet)
            }
        }
    }

    fn write(&mut self, conn: Conn, piece: &[u8]) -> Result<Took, NetFail>
        requires { 0 < length piece.now }
        ensures within { TookWithin (length piece.now) result }
        ensures given { length self.new.ready ≡ length self.old.ready }
        ensures tells { Grows self.old.told (Wrote conn piece.now (result_ok result) ∷ []) self.new.told }
        ensures cause { FailsOnlyOnFault self.old.faults self.new.faults result }

        ensures answer { let len = length piece.now in
            result ≡ answer_of self.old (took_of len (first_or (took.Bytes len) self.old.writes)) }
        ensures plays { IsButFor (after_write self.old result) self.new }
    {
        let copy = Vec::from_slice(*self.kept.allocator(), piece);
        if self.fails() {
            self.keep(copy.map(|bytes| KeptCall::Wrote(conn, bytes, None)));
            return Err(NetFail);
        }
        let took = match self.script.writes.pop_front() {
            Some(Took::Bytes(0)) | Some(Took::NotYet) => Took::NotYet,
            Some(Took::Bytes(most)) => Took::Bytes(most.min(piece.len())),
            Some(Took::Ended) => Took::Ended,
            None => Took::Bytes(piece.len()),
        };
        self.keep(copy.map(|bytes| KeptCall::Wrote(conn, bytes, Some(took))));
        Ok(took)
    }

    fn close(&mut self, conn: Conn)
        ensures given { length self.new.ready ≡ length self.old.ready }
        ensures tells { Grows self.old.told (Closed conn ∷ []) self.new.told }
        ensures count { self.new.faults ≡ self.old.faults }

        ensures plays { IsButFor self.old self.new }
    {
        self.keep(Ok(KeptCall::Closed(conn)));
    }
}
