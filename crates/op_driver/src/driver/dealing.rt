//! What a connection read is dealt with: its frames, one after the other, and what each says.
ghost use Rattle.std.specs.Prelude.{◌≡◌, ◌≢◌, ◌<◌, ◌≤◌, ◌+◌, ◌-◌, [], length, nat_le, true, false, IsTrue, if◌then◌else◌, None, IfOk, IfSome, IfNone, OnOk, OnErr};
ghost use Rattle.std.specs.Map.{keys_of};
ghost use Rattle.op_types.specs.Limits.{most_commands};
ghost use Rattle.op_types.specs.Ranges.{AreRising, IsPid, CommandInRange, MembersInRange};
ghost use Rattle.op_msg.specs.Ranges.{MsgInRange};
ghost use Rattle.op_types.specs.declared.events.Request.TheVariants as request;
ghost use Rattle.op_command.specs.Ranges.{RequestInRange, SaidInRange};
ghost use Rattle.op_command.specs.declared.said.Said.TheVariants.{Status};
ghost use Rattle.op_serving.specs.declared.hearing.Heard.TheVariants.{Asks, Message};
ghost use Rattle.op_serving.specs.State.{find, is_open, session_of, stranger_in};
ghost use Rattle.op_serving.specs.Losses.{Stays};
ghost use Rattle.op_serving.specs.Counts.{most_inputs};
ghost use Rattle.op_serving.specs.Inputs.{brings, flushed, gathers, give, most_brought, places_taken};
ghost use Rattle.op_serving.specs.Reading.{feeds, frames_at, goes_first, held_in, is_peer, is_read, joins_others, links, read, replaced};
ghost use Rattle.op_queues.specs.Hearing.{HeardInRange};
ghost use Rattle.op_driver.specs.Driver.{Acts, Does, Loses, Rests, IsDrained};
ghost use Rattle.op_driver.specs.Dealing.{Deals, DealsAll, Handles, HandlesAlone, Taken, framed, greeted, makes_way, tells_now};

use super::Driver;
use op_command::Said;
use op_outside::Conn;
use op_queues::{Front, of_no_command};
use op_serving::{Core, Heard};
use op_types::{Command, Input, Members, Msg, NoMemory, Pid, Request, Shared};

impl<K: Core> Driver<K> {
    /// Bytes that a connection read, and all that they complete. Where they find no memory, its session is
    /// lost.
    pub fn read(&mut self, conn: Conn, bytes: &[u8])
        requires open { is_open conn self.old.loop ≡ true }
        requires at { self.old.loop.place.at ≢ 0 }
        requires frames { self.old.loop.place.frames ≡ 0 }
        requires none { IsDrained self.old.loop }
        ensures acts { Acts K.stores (λ l s. read l K.line conn bytes.now s) self.old self.new }
        ensures rests { Rests self.old.loop self.new.loop }
        ensures most { most_inputs self.new.loop ≤ most_inputs self.old.loop + length bytes.now }
    {
        match self.feed(conn, bytes) {
            Ok(held) => self.deal_all(conn, held),
            Err(_) => self.lose(conn),
        }
    }

    /// Deals with what stands at the front of a session, so often, or up to what ends it.
    fn deal_all(&mut self, conn: Conn, most: usize)
        requires at { self.old.loop.place.at ≢ 0 }
        requires frames { self.old.loop.place.frames ≡ 0 }
        requires none { IsDrained self.old.loop }
        ensures deals { DealsAll K.stores K.line conn most self.old self.new }
        ensures most { most_inputs self.new.loop ≤ most_inputs self.old.loop }
    {
        let mut frames = 0;
        let mut left = most;
        'fronts: while left > 0 {
            left -= 1;
            match self.deal_front(conn, frames) {
                Some(now) => frames = now,
                None => return,
            }
        }
    }

    /// Adds bytes to what a session has read. Gives how many it holds then. Without memory nothing changes.
    fn feed(&mut self, conn: Conn, bytes: &[u8]) -> Result<usize, NoMemory>
        ensures held { IfOk result (λ n. n ≡ held_in (find conn self.new.loop.sessions)) }
        ensures ok { OnOk result (self.new ≡ record self.old { loop = feeds conn bytes.now self.old.loop }) }
        ensures err { OnErr result (self.new ≡ self.old) }
    {
        self.sessions.feed(conn, bytes)
    }

    /// Deals with what stands at the front of a session, behind so many frames of this read. Gives how many
    /// there are then, or None where no more is to be dealt with.
    fn deal_front(&mut self, conn: Conn, frames: u64) -> Option<u64>
        requires at { self.old.loop.place.at ≢ 0 }
        requires frames { self.old.loop.place.frames ≡ frames }
        requires none { IsDrained self.old.loop }
        requires room { frames < u64.MAX }
        ensures deals { Deals K.stores K.line conn frames result self.old self.new }
        ensures most { most_inputs self.new.loop ≤ most_inputs self.old.loop }
    {
        match self.take_front(conn) {
            Ok(Front::Waits) => None,
            Ok(Front::Refused) => {
                self.end(conn);
                None
            }
            Ok(Front::Hello(peer)) => self.greet(conn, peer, frames),
            Ok(Front::Frame(heard)) => self.take_frame(conn, heard, frames),
            Err(_) => {
                self.lose(conn);
                None
            }
        }
    }

    /// A peer has said who it is: behind what was gathered its earlier session ends, and it goes
    /// up. A stranger's session ends.
    fn greet(&mut self, conn: Conn, peer: Pid, frames: u64) -> Option<u64>
        requires at { self.old.loop.place.at ≢ 0 }
        requires frames { self.old.loop.place.frames ≡ frames }
        requires none { IsDrained self.old.loop }
        ensures taken { Taken K.stores (greeted K.line conn peer frames) conn frames result
            self.old self.new }
        ensures most { most_inputs self.new.loop ≤ most_inputs self.old.loop + 1 }
    {
        if !self.is_peer(peer) {
            self.end(conn);
            return None;
        }
        self.make_way(conn, peer);
        if !self.is_open(conn) {
            return None;
        }
        self.link(peer, conn);
        self.give(&[], Input::Up(peer));
        Some(frames)
    }

    /// What was gathered is given, and then the earlier session of a peer ends, if this connection still has
    /// one.
    fn make_way(&mut self, conn: Conn, peer: Pid)
        requires at { self.old.loop.place.at ≢ 0 }
        requires none { IsDrained self.old.loop }
        ensures does { Does K.stores (λ l s. makes_way l conn peer s) self.old self.new }
        ensures stays { Stays self.old.loop self.new.loop }
        ensures none { IsDrained self.new.loop }
        ensures most { most_inputs self.new.loop ≤ most_inputs self.old.loop }
    {
        self.flush();
        if self.is_open(conn) {
            self.replace(peer);
        }
    }

    /// The session of a peer ends, if it has one.
    fn replace(&mut self, peer: Pid)
        requires at { self.old.loop.place.at ≢ 0 }
        requires none { IsDrained self.old.loop }
        ensures does { Does K.stores (λ l s. replaced l (session_of peer self.old.loop) s) self.old self.new }
        ensures stays { Stays self.old.loop self.new.loop }
        ensures none { IsDrained self.new.loop }
        ensures most { most_inputs self.new.loop ≤ most_inputs self.old.loop }
    {
        if let Some(earlier) = self.session_of(peer) {
            self.end(earlier);
        }
    }

    /// Whether an id is that of a known peer. The own id is none.
    fn is_peer(&self, id: Pid) -> bool
        ensures peer { result ≡ is_peer id self.now.loop }
        ensures range { IsTrue result → IsPid id }
    {
        self.sessions.is_peer(id)
    }

    /// A connection is from now on this peer's session.
    fn link(&mut self, peer: Pid, conn: Conn)
        requires { IsPid peer }
        ensures { self.new ≡ record self.old { loop = links peer conn self.old.loop } }
    {
        self.sessions.link(peer, conn);
    }

    /// A frame that says this: it is dealt with and counted, unless it ends the session.
    fn take_frame(&mut self, conn: Conn, heard: Heard, frames: u64) -> Option<u64>
        requires open { is_open conn self.old.loop ≡ true }
        requires at { self.old.loop.place.at ≢ 0 }
        requires frames { self.old.loop.place.frames ≡ frames }
        requires none { IsDrained self.old.loop }
        requires range { HeardInRange heard × (frames < u64.MAX) }
        ensures taken { Taken K.stores (framed K.line conn heard frames) conn frames result
            self.old self.new }
        ensures most { most_inputs self.new.loop ≤ most_inputs self.old.loop + 1 }
    {
        match self.hear(conn, heard) {
            Ok(()) => {}
            Err(_) => return None,
        }
        let counted = self.count_frame(conn, frames)?;
        self.drain();
        Some(counted)
    }

    /// One more frame of this read was dealt with, if its session is still there.
    fn count_frame(&mut self, conn: Conn, frames: u64) -> Option<u64>
        requires { frames < u64.MAX }
        ensures some { IfSome result (λ k. (k ≡ frames + 1) × (is_open conn self.old.loop ≡ true)
            × (self.new ≡ record self.old { loop = frames_at (frames + 1) self.old.loop })) }
        ensures none { IfNone result ((is_open conn self.old.loop ≡ false) × (self.new ≡ self.old)) }
        ensures most { most_inputs self.new.loop ≤ most_inputs self.old.loop }
    {
        if !self.is_open(conn) {
            return None;
        }
        self.begin_frame(frames + 1);
        Some(frames + 1)
    }

    /// So many frames of this read were dealt with.
    fn begin_frame(&mut self, frames: u64)
        ensures { self.new ≡ record self.old { loop = frames_at frames self.old.loop } }
    {
        self.sessions.begin_frame(frames);
    }

    /// What a frame says is dealt with: all before which something has to be given comes behind what was
    /// gathered. Where that finds no memory, its session is lost.
    fn hear(&mut self, conn: Conn, heard: Heard) -> Result<(), NoMemory>
        requires open { is_open conn self.old.loop ≡ true }
        requires at { self.old.loop.place.at ≢ 0 }
        requires none { IsDrained self.old.loop }
        requires range { HeardInRange heard }
        ensures ok { OnOk result (Handles K.stores K.line conn heard self.old self.new) }
        ensures err { OnErr result (Loses K.stores conn self.old self.new) }
        ensures most { most_inputs self.new.loop ≤ most_inputs self.old.loop + 1 }
    {
        if self.goes_first(conn, &heard) {
            return self.hear_alone(conn, heard);
        }
        if !self.has_gathered() {
            return self.hear_alone(conn, heard);
        }
        self.flush_some();
        if self.is_open(conn) {
            match self.hear_alone(conn, heard) {
                Ok(()) => {}
                Err(_) => {}
            }
        }
        Ok(())
    }

    /// Whether nothing has to be given before what a frame says: it joins what was gathered, or it is a read,
    /// and nothing that its connection brought waits to be given.
    fn goes_first(&self, conn: Conn, heard: &Heard) -> bool
        ensures { result ≡ goes_first conn heard.now self.now.loop }
    {
        joins_others(heard) || (is_read(heard) && !self.sessions.has_brought(conn))
    }

    /// What a frame says is dealt with by itself. Where that finds no memory, its session is lost.
    fn hear_alone(&mut self, conn: Conn, heard: Heard) -> Result<(), NoMemory>
        requires open { is_open conn self.old.loop ≡ true }
        requires at { self.old.loop.place.at ≢ 0 }
        requires none { IsDrained self.old.loop }
        requires range { HeardInRange heard }
        ensures ok { OnOk result (HandlesAlone K.stores K.line conn heard self.old self.new) }
        ensures err { OnErr result (Loses K.stores conn self.old self.new) }
        ensures most { most_inputs self.new.loop ≤ most_inputs self.old.loop + 1 }
    {
        match heard {
            Heard::Message(from, message) => self.deliver(conn, from, message),
            Heard::Foreign => Ok(()),
            Heard::Noise => {
                self.end(conn);
                Ok(())
            }
            Heard::Asks(request) => self.ask(conn, request),
            Heard::Mistake(at) => self.tell(conn, Said::BadRequest(at)),
        }
    }

    /// What a client asks.
    fn ask(&mut self, conn: Conn, request: Request) -> Result<(), NoMemory>
        requires open { is_open conn self.old.loop ≡ true }
        requires none { IsDrained self.old.loop }
        requires range { RequestInRange request }
        ensures ok { OnOk result (HandlesAlone K.stores K.line conn (Asks request) self.old self.new) }
        ensures err { OnErr result (Loses K.stores conn self.old self.new) }
        ensures most { most_inputs self.new.loop ≤ most_inputs self.old.loop + 1 }
    {
        match request {
            Request::Command(command) => self.propose(conn, command),
            Request::Stop(members) => self.stop(conn, members),
            Request::Trim => {
                self.give(&[conn], Input::TrimNow);
                Ok(())
            }
            Request::Read(read) => {
                self.give(&[conn], Input::Read(read));
                Ok(())
            }
            Request::Status => self.tell_status(conn),
            Request::End => {
                self.tell(conn, Said::Ended)?;
                self.note_end();
                Ok(())
            }
        }
    }

    /// A client asks to end the configuration. Where it names a server that the node doesn't know, it is
    /// told the first such one, and nothing is proposed.
    fn stop(&mut self, conn: Conn, members: Shared<Members>) -> Result<(), NoMemory>
        requires open { is_open conn self.old.loop ≡ true }
        requires none { IsDrained self.old.loop }
        requires range { MembersInRange members }
        ensures ok { OnOk result
            (HandlesAlone K.stores K.line conn (Asks (request.Stop members)) self.old self.new) }
        ensures err { OnErr result (Loses K.stores conn self.old self.new) }
        ensures most { most_inputs self.new.loop ≤ most_inputs self.old.loop + 1 }
    {
        match self.stranger_among(members.get().as_slice()) {
            Some(id) => self.tell(conn, Said::Stranger(id)),
            None => {
                self.give(&[conn], Input::Stop(members));
                Ok(())
            }
        }
    }

    /// The first of these servers that the node doesn't know, if there is one.
    fn stranger_among(&self, members: &[Pid]) -> Option<Pid>
        requires { AreRising 0 members.now }
        ensures is { result ≡ stranger_in (keys_of self.now.loop.peers) members.now }
        ensures range { IfSome result IsPid }
    {
        self.sessions.stranger_among(members)
    }

    /// An end request was read.
    fn note_end(&mut self)
        ensures { self.new ≡ record self.old { loop = record self.old.loop { ending = true } } }
    {
        self.sessions.end();
    }

    /// A peer's message is gathered; with the most that may be all are given at once.
    fn deliver(&mut self, conn: Conn, from: Pid, message: Msg) -> Result<(), NoMemory>
        requires open { is_open conn self.old.loop ≡ true }
        requires none { IsDrained self.old.loop }
        requires range { IsPid from × MsgInRange message }
        ensures ok { OnOk result
            (HandlesAlone K.stores K.line conn (Message from message) self.old self.new) }
        ensures err { OnErr result (Loses K.stores conn self.old self.new) }
        ensures most { most_inputs self.new.loop ≤ most_inputs self.old.loop + 1 }
    {
        match self.bring(conn, from, message) {
            Ok(full) => {
                self.flush_if(full);
                Ok(())
            }
            Err(_) => {
                self.lose(conn);
                Err(NoMemory)
            }
        }
    }

    /// A client's command is gathered; with the most that one input may have all are given at once.
    fn propose(&mut self, conn: Conn, command: Command) -> Result<(), NoMemory>
        requires open { is_open conn self.old.loop ≡ true }
        requires none { IsDrained self.old.loop }
        requires range { CommandInRange command }
        ensures ok { OnOk result
            (HandlesAlone K.stores K.line conn (Asks (request.Command command)) self.old self.new) }
        ensures err { OnErr result (Loses K.stores conn self.old self.new) }
        ensures most { most_inputs self.new.loop ≤ most_inputs self.old.loop + 1 }
    {
        match self.gather(conn, command) {
            Ok(full) => {
                self.flush_if(full);
                Ok(())
            }
            Err(_) => {
                self.lose(conn);
                Err(NoMemory)
            }
        }
    }

    /// All that was gathered is given together, if there is as much as may be.
    fn flush_if(&mut self, full: bool)
        requires { IsDrained self.old.loop }
        ensures does { Does K.stores (λ l s. if full then flushed l s else s) self.old self.new }
        ensures stays { Stays self.old.loop self.new.loop }
        ensures none { IsDrained self.new.loop }
        ensures most { most_inputs self.new.loop ≤ most_inputs self.old.loop }
    {
        if full {
            self.flush();
        }
    }

    /// A message is gathered. Gives whether there are as many as may be. Without memory nothing changes.
    fn bring(&mut self, conn: Conn, from: Pid, message: Msg) -> Result<bool, NoMemory>
        requires { IsPid from × MsgInRange message }
        ensures ok { OnOk result
            (self.new ≡ record self.old { loop = brings conn (from, message) self.old.loop }) }
        ensures full { IfOk result (λ full. full ≡ nat_le most_brought (length self.new.loop.brought)) }
        ensures err { OnErr result (self.new ≡ self.old) }
    {
        self.sessions.bring(conn, from, message)
    }

    /// A command is gathered. Gives whether there are as many as one input may have. Without memory nothing
    /// changes.
    fn gather(&mut self, conn: Conn, command: Command) -> Result<bool, NoMemory>
        requires { CommandInRange command }
        ensures ok { OnOk result
            (self.new ≡ record self.old { loop = gathers conn command self.old.loop }) }
        ensures full { IfOk result
            (λ full. full ≡ nat_le most_commands (places_taken self.new.loop.gathered)) }
        ensures err { OnErr result (self.new ≡ self.old) }
    {
        self.sessions.gather(conn, command)
    }

    /// A client is told where the node stands.
    fn tell_status(&mut self, conn: Conn) -> Result<(), NoMemory>
        requires open { is_open conn self.old.loop ≡ true }
        ensures ok { OnOk result (self.new ≡ tells_now conn (Status (K.line self.old.node)) self.old) }
        ensures err { OnErr result (Loses K.stores conn self.old self.new) }
        ensures most { most_inputs self.new.loop ≤ most_inputs self.old.loop }
    {
        match self.core.status(self.sessions.alloc()) {
            Ok(line) => self.tell(conn, Said::Status(line)),
            Err(_) => {
                self.lose(conn);
                Err(NoMemory)
            }
        }
    }

    /// A client is told something that is of no command.
    fn tell(&mut self, conn: Conn, said: Said) -> Result<(), NoMemory>
        requires open { is_open conn self.old.loop ≡ true }
        requires said { SaidInRange said }
        ensures ok { OnOk result (self.new ≡ tells_now conn said self.old) }
        ensures err { OnErr result (Loses K.stores conn self.old self.new) }
        ensures most { most_inputs self.new.loop ≤ most_inputs self.old.loop }
    {
        let told = of_no_command(said);
        match self.sessions.queue_reply(conn, &told) {
            Ok(()) => Ok(()),
            Err(_) => {
                self.lose(conn);
                Err(NoMemory)
            }
        }
    }
}

/// Whether a frame says a message, a command, or nothing to this node.
fn joins_others(heard: &Heard) -> bool
    ensures { result ≡ joins_others heard.now }
{
    match heard {
        Heard::Message(_, _) => true,
        Heard::Asks(Request::Command(_)) => true,
        Heard::Foreign => true,
        _ => false,
    }
}

/// Whether a frame says a read.
fn is_read(heard: &Heard) -> bool
    ensures { result ≡ is_read heard.now }
{
    match heard {
        Heard::Asks(Request::Read(_)) => true,
        _ => false,
    }
}
