ghost use Rattle.std.specs.Prelude.{◌≡◌, ◌≢◌, ◌↔◌, ◌<◌, ◌≤◌, ◌+◌, ◌-◌, ◌∷◌, [], length, drop, map, true, false, IsTrue, None, IfOk, IfSome, IfNone, OnOk, OnErr};
ghost use Rattle.op_types.specs.Ranges.{IsPid};
ghost use Rattle.op_serving.specs.Cores.{wants_trim};
ghost use Rattle.op_serving.specs.State.{down_of, find, is_open, kind_at, left_by, next, session_of, shed};
ghost use Rattle.op_serving.specs.Ranges.{InputInRange, KindInRange};
ghost use Rattle.op_serving.specs.Losses.{most_marks, lost_by, size, Stays};
ghost use Rattle.op_serving.specs.Counts.{hello_in, most_inputs};
ghost use Rattle.op_serving.specs.Inputs.{all_gathered, enter, give, flushed, leaves, over, releases};
ghost use Rattle.op_serving.specs.Turns.{happens_at, joined, joining, queue_in, taken_of, ticked, trimmed, turn_begins, waiting_from, wrote};
ghost use Rattle.op_queues.specs.Hearing.{FoundInRange, least_taken};
ghost use Rattle.op_driver.specs.Driver.{Acts, Does, FromCalm, Drained, Enters, Gives, IsIdle, Loses, MayBegin, Rests, IsDrained, IsShed, hello_left};
ghost use Rattle.op_driver.specs.Dealing.{TakesOn};
ghost use Rattle.op_driver.specs.Ungiven.{GivesAll, GivesFrom};

mod dealing;

use crate::answering::{answer, count};
use crate::ungiven::Ungiven;
use op_outside::Conn;
use op_queues::{Front, Group, Sessions, asked_by};
use op_serving::{Core, Kind, goes_up};
use op_types::{Input, NoMemory, Pid};
use std::marker::Model;

/// A served node with its sessions.
#[derive(Drop)]
pub struct Driver<K: Core> {
    core: K,
    sessions: Sessions,
}

impl<K: Core> Model for Driver<K> {
    ghost use Rattle.std.specs.Coded.{codes};
    ghost use Rattle.op_serving.specs.Codes.{askers_code};
    ghost use Rattle.op_driver.specs.Driver.{Served};

    ghost Value = { Served K };

    ghost coded = { Prim.hlevel (codes, askers_code) };

    ghost view = { λ d. record { loop = d.sessions; node = K.standing d.core; core = d.core } };

    ghost invariant = { λ d. K.ready d.core };
}

impl<K: Core> Driver<K> {
    /// A node with sessions of before.
    pub fn new(core: K, sessions: Sessions) -> Driver<K>
        requires { K.ready core }
        ensures { result ≡ record { loop = sessions; node = K.standing core; core = core } }
    {
        Driver { core, sessions }
    }

    /// The node, and its sessions.
    pub fn into_parts(self) -> (K, Sessions)
        ensures core { result.0 ≡ self.core }
        ensures sessions { result.1 ≡ self.loop }
        ensures node { K.standing result.0 ≡ self.node }
        ensures ready { K.ready result.0 }
    {
        (self.core, self.sessions)
    }

    /// Whether an end request was read.
    pub fn is_ending(&self) -> bool
        ensures { result ≡ self.now.loop.ending }
    {
        self.sessions.is_ending()
    }

    /// Whether there are the most marks: then serving has stopped.
    pub fn is_full(&self) -> bool
        ensures { IsTrue result ↔ (most_marks ≤ length self.now.loop.lost) }
    {
        self.sessions.is_full()
    }

    /// The server whose node it is.
    pub fn me(&self) -> Pid
        ensures me { result ≡ self.now.loop.me }
        ensures range { IsPid result }
    {
        self.sessions.me()
    }

    /// Whether a connection has a session.
    pub fn is_open(&self, conn: Conn) -> bool
        ensures { result ≡ is_open conn self.now.loop }
    {
        self.sessions.is_open(conn)
    }

    /// The connection of a peer's session.
    pub fn session_of(&self, peer: Pid) -> Option<Conn>
        ensures { result ≡ session_of peer self.now.loop }
    {
        self.sessions.session_of(peer)
    }

    /// The first connection that is to be closed.
    pub fn next_close(&mut self) -> Option<Conn>
        ensures some { IfSome result (λ c. self.old.loop.closes ≡ c ∷ self.new.loop.closes) }
        ensures none { IfNone result (self.old.loop.closes ≡ []) }
        ensures rest { self.new ≡
            record self.old { loop = record self.old.loop { closes = drop 1 self.old.loop.closes } } }
    {
        self.sessions.next_close()
    }

    /// The next turn begins.
    pub fn begin_turn(&mut self)
        ensures { self.new ≡ record self.old { loop = turn_begins self.old.loop } }
    {
        self.sessions.begin_turn();
    }

    /// The next happening begins; behind the last, the writes.
    pub fn begin_happening(&mut self, at: u8)
        ensures { self.new ≡ record self.old { loop = happens_at at self.old.loop } }
    {
        self.sessions.begin_happening(at);
    }

    /// A tick is due.
    pub fn tick(&mut self)
        ensures gives { Gives K.stores (λ l s. ticked l s) self.old self.new }
        ensures most { most_inputs self.new.loop ≤ most_inputs self.old.loop + 1 }
    {
        self.give(&[], Input::Tick);
    }

    /// The node gives itself a wish to trim, where so many entries that it has decided are not trimmed.
    pub fn trim(&mut self, every: Option<u64>)
        requires none { IsDrained self.old.loop }
        ensures does { Does K.stores (λ l s. trimmed l every s) self.old self.new }
        ensures stays { Stays self.old.loop self.new.loop }
        ensures none { IsDrained self.new.loop }
        ensures most { most_inputs self.new.loop ≤ most_inputs self.old.loop + 1 }
    {
        if self.wants_trim(every) {
            self.give(&[], Input::TrimNow);
        }
    }

    /// Whether so many entries that the node has decided are not trimmed.
    fn wants_trim(&self, every: Option<u64>) -> bool
        ensures { result ≡ wants_trim every self.now.node }
    {
        match every {
            Some(count) => count <= self.core.untrimmed(),
            None => false,
        }
    }

    /// All that was gathered is given together.
    pub fn flush(&mut self)
        requires { IsDrained self.old.loop }
        ensures does { Does K.stores (λ l s. flushed l s) self.old self.new }
        ensures rests { Rests self.old.loop self.new.loop }
        ensures frames { self.new.loop.place.frames ≡ self.old.loop.place.frames }
        ensures most { most_inputs self.new.loop ≤ most_inputs self.old.loop }
    {
        if self.has_gathered() {
            self.flush_some();
        }
    }

    /// A session ends, behind what was gathered, and its peer goes down.
    pub fn end(&mut self, conn: Conn)
        requires at { self.old.loop.place.at ≢ 0 }
        requires none { IsDrained self.old.loop }
        ensures does { Does K.stores (λ l s. over l conn s) self.old self.new }
        ensures rests { Rests self.old.loop self.new.loop }
        ensures frames { self.new.loop.place.frames ≡ self.old.loop.place.frames }
        ensures most { most_inputs self.new.loop ≤ most_inputs self.old.loop }
    {
        self.flush();
        self.leave(conn);
    }

    /// A new connection has a session: an accepted one is nobody's yet, and a dialled one is its peer's at
    /// once. Where that finds no memory, it is to be closed.
    pub fn join(&mut self, conn: Conn, kind: Kind)
        requires new { is_open conn self.old.loop ≡ false }
        requires idle { IsIdle self.old.loop }
        requires kind { MayBegin kind }
        ensures acts { Acts K.stores (λ l s. joined l conn kind s) self.old self.new }
        ensures calm { self.old.loop.place.at ≡ 0 → FromCalm self.old self.new }
        ensures rests { Rests self.old.loop self.new.loop }
        ensures most { most_inputs self.new.loop ≤ most_inputs self.old.loop + 2 + hello_in kind }
        ensures core { self.new.core ≡ self.old.core }
    {
        match self.admit(conn, kind) {
            Ok(()) => {}
            Err(_) => {}
        }
    }

    /// What waits for a connection; what is left of a dialler's hello goes out first.
    pub fn waiting(&self, conn: Conn) -> &[u8]
        ensures { result.now ≡ queue_in (find conn self.now.loop.sessions) }
    {
        self.sessions.waiting(conn)
    }

    /// The least connection from this one on for which bytes wait.
    pub fn next_to_write(&self, low: Conn) -> Option<Conn>
        ensures next { result ≡ waiting_from low self.now.loop.sessions }
        ensures waits { IfSome result (λ c. 0 < length (queue_in (find c self.now.loop.sessions))) }
        ensures low { IfSome result (λ c. low ≤ c) }
    {
        self.sessions.next_to_write(low)
    }

    /// The least connection behind this one for which bytes wait.
    pub fn next_behind(&self, conn: Conn) -> Option<Conn>
        ensures next { result ≡ waiting_from (conn + 1) self.now.loop.sessions }
        ensures waits { IfSome result (λ c. 0 < length (queue_in (find c self.now.loop.sessions))) }
        ensures low { IfSome result (λ c. conn < c) }
    {
        self.sessions.next_behind(conn)
    }

    /// How much of the own hello is still to be written to a connection.
    pub fn hello_left(&self, conn: Conn) -> u8
        ensures { result ≡ hello_left conn self.now.loop }
    {
        match self.kind(conn) {
            Some(Kind::Peer(_, left)) => left,
            _ => 0,
        }
    }

    /// A connection took so many bytes of what waits for it. Once a dialler's hello went out whole, its
    /// peer goes up.
    pub fn wrote(&mut self, conn: Conn, n: usize)
        requires taken { n ≤ length (queue_in (find conn self.old.loop.sessions)) }
        requires none { IsDrained self.old.loop }
        ensures does { Does K.stores (λ l s. wrote l conn n s) self.old self.new }
        ensures hello { hello_left conn self.new.loop ≤ hello_left conn self.old.loop - n }
        ensures pours { hello_left conn self.old.loop ≡ 0 → queue_in (find conn self.new.loop.sessions)
            ≡ drop n (queue_in (find conn self.old.loop.sessions)) }
        ensures rests { Rests self.old.loop self.new.loop }
        ensures most { most_inputs self.new.loop ≤ most_inputs self.old.loop }
    {
        let before = self.kind(conn);
        self.took(conn, n);
        let after = self.kind(conn);
        if let Some(peer) = goes_up(before, after) {
            self.give(&[], Input::Up(peer));
        }
    }

    /// A session is lost for want of memory, and its peer goes down.
    fn lose(&mut self, conn: Conn)
        requires { is_open conn self.old.loop ≡ true }
        ensures loses { Loses K.stores conn self.old self.new }
        ensures most { most_inputs self.new.loop ≤ most_inputs self.old.loop }
    {
        self.note_loss(conn);
        self.drain();
    }

    /// A session is lost for want of memory, but for the Downs.
    fn note_loss(&mut self, conn: Conn)
        requires { is_open conn self.old.loop ≡ true }
        ensures lost { self.new ≡ record self.old { loop = lost_by conn self.old.loop } }
        ensures few { length self.old.loop.lost < most_marks }
    {
        self.sessions.lose(conn);
    }

    /// A session ends, and its peer goes down.
    fn leave(&mut self, conn: Conn)
        requires { self.old.loop.place.at ≢ 0 }
        ensures does { Does K.stores (λ l s. leaves l conn s) self.old self.new }
        ensures stays { Stays self.old.loop self.new.loop }
        ensures none { IsDrained self.new.loop }
        ensures most { most_inputs self.new.loop ≤ most_inputs self.old.loop }
    {
        self.take_out(conn);
        self.drain();
    }

    /// A session ends, but for the Downs.
    fn take_out(&mut self, conn: Conn)
        ensures { self.new ≡ record self.old { loop = left_by conn self.old.loop } }
    {
        self.sessions.leave(conn);
    }

    /// All that was gathered is given together, and the Downs right behind it; there is something.
    fn flush_some(&mut self)
        requires { 0 < length (all_gathered self.old.loop) }
        ensures gives { Gives K.stores (λ l s. flushed l s) self.old self.new }
        ensures most { most_inputs self.new.loop ≤ most_inputs self.old.loop }
    {
        let group = self.release();
        self.give_all(Ungiven::new(group));
    }

    /// All that was gathered. Then nothing is.
    fn release(&mut self) -> Group
        ensures group { result ≡ all_gathered self.old.loop }
        ensures rest { self.new ≡ record self.old { loop = releases self.old.loop } }
    {
        self.sessions.release()
    }

    /// Inputs together, and the Downs right behind them. Those behind one that found no memory are a group of
    /// their own.
    fn give_all(&mut self, mut ungiven: Ungiven)
        requires { 0 < length ungiven.inputs }
        ensures gives { GivesAll K.stores ungiven self.old self.new }
        ensures most { most_inputs self.new.loop ≤ most_inputs self.old.loop + length ungiven.inputs }
    {
        'groups: while !ungiven.is_empty() {
            self.give_group(&mut ungiven);
        }
    }

    /// Inputs together, up to the first that finds no memory, and the Downs right behind them.
    fn give_group(&mut self, ungiven: &mut Ungiven)
        requires { 0 < length ungiven.old.inputs }
        ensures gives { GivesFrom K.stores ungiven.old ungiven.new self.old self.new }
        ensures stays { Stays self.old.loop self.new.loop }
        ensures none { IsDrained self.new.loop }
        ensures fewer { length ungiven.new.inputs < length ungiven.old.inputs }
        ensures most { most_inputs self.new.loop + length ungiven.new.inputs
            ≤ most_inputs self.old.loop + length ungiven.old.inputs }
    {
        self.enter_group(ungiven);
        self.drain();
    }

    /// Inputs together, up to the first that finds no memory, but for the Downs behind them.
    fn enter_group(&mut self, ungiven: &mut Ungiven)
        requires { 0 < length ungiven.old.inputs }
        ensures gives { GivesFrom K.stores ungiven.old ungiven.new self.old self.new }
        ensures stays { Stays self.old.loop self.new.loop }
        ensures fewer { length ungiven.new.inputs < length ungiven.old.inputs }
        ensures most { most_inputs self.new.loop + length ungiven.new.inputs
            ≤ most_inputs self.old.loop + length ungiven.old.inputs }
    {
        if self.sessions.is_full() {
            ungiven.clear();
            return;
        }
        ungiven.give(&mut self.core, &mut self.sessions);
    }

    /// An input that was frames of these connections, and the Downs right behind it. What clients ask is
    /// asked for at their connections.
    fn give(&mut self, who: &[Conn], input: Input)
        requires { InputInRange input }
        ensures gives { Gives K.stores (λ l s. give l who.now input s) self.old self.new }
        ensures most { most_inputs self.new.loop ≤ most_inputs self.old.loop + 1 }
    {
        self.enter(who, input);
        self.drain();
    }

    /// Takes what stands at the front of what a session has read.
    fn take_front(&mut self, conn: Conn) -> Result<Front, NoMemory>
        ensures takes { TakesOn conn self.old result self.new }
        ensures most { most_inputs self.new.loop + least_taken result ≤ most_inputs self.old.loop }
        ensures range { IfOk result FoundInRange }
    {
        self.sessions.take_front(conn)
    }

    /// A new connection has a session, or is lost at once.
    fn admit(&mut self, conn: Conn, kind: Kind) -> Result<(), NoMemory>
        requires new { is_open conn self.old.loop ≡ false }
        requires few { length self.old.loop.lost < most_marks }
        requires closes { self.old.loop.closes ≡ [] }
        requires kind { down_of kind ≡ [] }
        requires range { KindInRange kind }
        ensures ok { OnOk result (self.new ≡ record self.old { loop = joining conn kind self.old.loop }) }
        ensures err { OnErr result
            (self.new ≡ record self.old { loop = lost_by conn (joining conn kind self.old.loop) }) }
    {
        self.sessions.join(conn, kind)
    }

    /// A connection took so many bytes.
    fn took(&mut self, conn: Conn, n: usize)
        requires { n ≤ length (queue_in (find conn self.old.loop.sessions)) }
        ensures { self.new ≡ record self.old { loop = taken_of conn n self.old.loop } }
    {
        self.sessions.took(conn, n);
    }

    /// Whose session a connection is.
    fn kind(&self, conn: Conn) -> Option<Kind>
        ensures kind { result ≡ kind_at conn self.now.loop }
        ensures range { IfSome result KindInRange }
    {
        self.sessions.kind(conn)
    }

    /// Whether anything was gathered.
    fn has_gathered(&self) -> bool
        ensures some { IsTrue result → 0 < length (all_gathered self.now.loop) }
        ensures none { result ≡ false → all_gathered self.now.loop ≡ [] }
    {
        self.sessions.has_gathered()
    }

    /// Ends the sessions for which more bytes wait than may, and gives the Downs of those that are over,
    /// until none is left.
    fn drain(&mut self)
        ensures drained { Drained K.stores self.old self.new }
        ensures stays { Stays self.old.loop self.new.loop }
        ensures none { IsDrained self.new.loop }
        ensures most { most_inputs self.new.loop ≤ most_inputs self.old.loop }
    {
        self.shed();
        'downs: while let Some(peer) = self.next_down() {
            self.enter(&[], Input::Down(peer));
            self.shed();
        }
    }

    /// Ends the sessions for which more bytes wait than may, but for their Downs.
    fn shed(&mut self)
        ensures drained { Drained K.stores self.old self.new }
        ensures stays { Stays self.old.loop self.new.loop }
        ensures shed { IsShed self.new.loop }
        ensures ends { size self.new.loop ≤ size self.old.loop }
        ensures most { most_inputs self.new.loop ≤ most_inputs self.old.loop }
    {
        self.shed_all();
    }

    /// The same, told exactly.
    fn shed_all(&mut self)
        ensures is { self.new ≡ record self.old { loop = shed self.old.loop } }
        ensures up { self.old.loop.place.inputs ≤ next self.old.loop.place.inputs }
    {
        self.sessions.shed();
    }

    /// The first peer whose Down is to be given.
    fn next_down(&mut self) -> Option<Pid>
        ensures some { IfSome result (λ q. self.old.loop.downs ≡ q ∷ self.new.loop.downs) }
        ensures none { IfNone result (self.old.loop.downs ≡ []) }
        ensures rest { self.new ≡
            record self.old { loop = record self.old.loop { downs = drop 1 self.old.loop.downs } } }
        ensures range { IfSome result IsPid }
    {
        self.sessions.next_down()
    }

    /// An input, but for the Downs behind it.
    fn enter(&mut self, who: &[Conn], input: Input)
        requires { InputInRange input }
        ensures does { Enters K.stores (λ l s. enter l who.now input s) self.old self.new }
        ensures stays { Stays self.old.loop self.new.loop }
        ensures ends { size self.new.loop ≤ size self.old.loop }
        ensures most { most_inputs self.new.loop ≤ most_inputs self.old.loop + 1 }
    {
        if self.sessions.is_full() {
            return;
        }
        let wanted = asked_by(who, &input);
        let result = self.core.step(input);
        count(&mut self.sessions, &result);
        answer(&mut self.sessions, wanted, false, result);
    }
}
