//! What is handed out of a step: messages, answers, and what else clients are told.
ghost use Rattle.std.specs.Prelude.{◌≡◌, ◌≤◌, All, length, OnOk, OnErr, IfOk, IfSome, Some, None, true, false};
ghost use Rattle.std.specs.FinMap as map;
ghost use Rattle.op_types.specs.Ranges.{IsPid};
ghost use Rattle.op_command.specs.Replies.{said_of as denied};
ghost use Rattle.op_command.specs.Ranges.{ReplyInRange, DenialInRange, OutcomeInRange, RefusalInRange, SaidInRange};
ghost use Rattle.op_serving.specs.declared.wanted.Wanted.TheVariants.{Trim};
ghost use Rattle.op_serving.specs.Wire.{fits_peer, peer_frame, client_frame};
ghost use Rattle.op_serving.specs.State.{find, waits_for};
ghost use Rattle.op_serving.specs.Room.{count_at, has_room, goes_ahead, kept, placed, without_first, moved};
ghost use Rattle.op_serving.specs.Ranges.{KeyInRange, KeyAtInRange, WantedInRange, SendInRange, ReplyInRange as AnswerInRange};
ghost use Rattle.op_serving.specs.Losses.{settled, Does};
ghost use Rattle.op_serving.specs.Handing.{made_way, sent, sent_at, sent_all, forgotten, replied, replied_all, asked, asked_by_one, of_command, no_command, said_each, said_of_refusal, said_of_outcome, said_of_read, said_of_denial, told, told_all, waits_if_asked, waits_unless, proposed, excused, given_up};
ghost use Rattle.op_queues.specs.Asked.{AwaitedInRange};

use super::Sessions;
use crate::asked::{denied, of_command, of_no_command, refusal};
use crate::asker_table::{forget, put_asker};
use crate::encoding::{fits_peer, is_short};
use crate::session_table::add;
use crate::unsent::Unsent;
use crate::untold::Untold;
use op_command::{ClientReply, Said};
use op_conns::Encode;
use op_outside::Conn;
use op_serving::{Awaited, Key, MOST_BEHIND, Wanted, begins_anew, is_excess, is_urgent};
use op_types::{Msg, NoMemory, Outcome, Pid, Refusal, Replies, Reply, Sends};
use std::collections::BTreeMap;
use std::mem;

impl Sessions {
    /// A message for a peer without a session is lost, and one that is too long for its peer. Before one
    /// waits at a session, what waits behind there moves up.
    pub fn send(&mut self, message: (Pid, Msg))
        requires { SendInRange message }
        ensures { Does (λ marks s. settled marks (sent message s)) self.old self.new }
    {
        let Some(conn) = self.session_of(message.0) else {
            drop(message);
            return;
        };
        match self.fits(&message) {
            Ok(true) => self.send_fitting(conn, message),
            Ok(false) => drop(message),
            Err(_) => {
                drop(message);
                self.lose(conn);
            }
        }
    }

    /// Messages, in their order.
    pub fn send_all(&mut self, sends: Sends)
        requires { All SendInRange sends }
        ensures { Does (λ marks s. settled marks (sent_all sends s)) self.old self.new }
    {
        for message in sends.into_vec() {
            self.send(message);
        }
    }

    /// Whether its peer takes a message. Only one that is longer than a part of a long message is encoded to
    /// see that.
    fn fits(&self, message: &(Pid, Msg)) -> Result<bool, NoMemory>
        requires { SendInRange message.now }
        ensures { IfOk result (λ fits. fits ≡ fits_peer self.now.me message.now.0 message.now.1) }
    {
        if is_short(self.me, message.0, &message.1) {
            return Ok(true);
        }
        fits_peer(self.alloc, self.me, message.0, &message.1)
    }

    /// A message that is too much for what waits behind for a connection is dropped. For each other one what
    /// waits behind makes way, where it begins anew, or else moves up, as far as there is room; then it
    /// waits, too.
    fn send_fitting(&mut self, conn: Conn, message: (Pid, Msg))
        requires { SendInRange message }
        ensures { Does (λ marks s. settled marks (sent_at (Some conn) message s)) self.old self.new }
    {
        if is_excess(&message.1.body, self.behind.count(conn)) {
            drop(message);
            return;
        }
        self.make_way(conn, &message.1);
        self.move_up(conn);
        let is_ahead = self.goes_ahead(conn, &message.1);
        let unsent = Unsent::new(self.me, message);
        if is_ahead {
            self.put_ahead(conn, &unsent);
            // It is a frame now.
            drop(unsent);
        } else {
            self.put_behind(conn, unsent);
        }
    }

    /// What waits behind for a connection is dropped for a message that begins anew.
    fn make_way(&mut self, conn: Conn, message: &Msg)
        ensures { self.new ≡ made_way conn message.now self.old }
    {
        if begins_anew(&message.body) {
            self.behind.forget(conn);
        }
    }

    /// What waits behind for a connection moves up, as far as there is room.
    fn move_up(&mut self, conn: Conn)
        ensures { Does (λ marks s. settled marks (moved conn s)) self.old self.new }
    {
        'behind: while self.has_room(conn) {
            let Some(unsent) = self.first_behind(conn) else {
                return;
            };
            self.put_ahead(conn, &unsent);
            // It is a frame now.
            drop(unsent);
        }
    }

    /// The first message that waits behind for a connection, if there is one. It waits no more.
    fn first_behind(&mut self, conn: Conn) -> Option<Unsent>
        ensures first { result ≡ find conn self.old.behind }
        ensures rest { self.new ≡ record self.old { behind = without_first conn self.old.behind } }
    {
        self.behind.take_first(conn)
    }

    /// Whether there is room for a frame more at a connection.
    fn has_room(&self, conn: Conn) -> bool
        ensures { result ≡ has_room (find conn self.now.sessions) }
    {
        match self.sessions.get(&conn) {
            Some(session) => session.has_room(),
            None => true,
        }
    }

    /// Whether a message goes ahead of what waits behind for a connection.
    fn goes_ahead(&self, conn: Conn, message: &Msg) -> bool
        ensures { result ≡
            goes_ahead message.now (find conn self.now.sessions) (count_at conn self.now.behind) }
    {
        let behind = self.behind.count(conn);
        is_urgent(&message.body) || (self.has_room(conn) && behind == 0) || behind >= MOST_BEHIND
    }

    /// A message waits for a connection, as a frame. Where that finds no memory, the session is lost.
    fn put_ahead(&mut self, conn: Conn, unsent: &Unsent)
        ensures does { Does (λ marks s. settled marks (waits_for conn unsent.now s)) self.old self.new }
        ensures fewer { length self.new.behind ≤ length self.old.behind }
    {
        match self.queue_frame(conn, unsent) {
            Ok(()) => {}
            Err(_) => self.lose(conn),
        }
    }

    /// A message waits behind for a connection, if that is open. Where that finds no memory, the session is
    /// lost.
    fn put_behind(&mut self, conn: Conn, unsent: Unsent)
        ensures { Does (λ marks s. settled marks (placed false (conn, unsent) s)) self.old self.new }
    {
        if !self.is_open(conn) {
            drop(unsent);
            return;
        }
        match self.keep(conn, unsent) {
            Ok(()) => {}
            Err(_) => self.lose(conn),
        }
    }

    /// A message waits behind. Without memory nothing changes.
    fn keep(&mut self, conn: Conn, unsent: Unsent) -> Result<(), NoMemory>
        ensures ok { OnOk result (self.new ≡ kept true (conn, unsent) self.old) }
        ensures err { OnErr result (self.new ≡ self.old) }
    {
        self.behind.push(conn, unsent)
    }

    /// A frame waits for a connection: it is encoded into what does. Without memory nothing changes.
    fn queue_frame<E: Encode>(&mut self, conn: Conn, frame: &E) -> Result<(), NoMemory>
        ensures ok { OnOk result (self.new ≡ waits_for conn (E.bytes frame.now) self.old) }
        ensures err { OnErr result (self.new ≡ self.old) }
    {
        let is_over = add(&mut self.sessions, conn, frame)?;
        self.overfull = self.overfull || is_over;
        Ok(())
    }

    /// Where the answer to a command or a read goes: to the session that asked last. Then nobody waits.
    fn asker(&mut self, key: Awaited) -> Option<Conn>
        ensures conn { result ≡ map.get self.old.askers key }
        ensures new { self.new ≡ forgotten key self.old }
    {
        forget(&mut self.askers, key)
    }

    /// A command or a read is asked for: who asked for it before waits no more, and this session does. Where
    /// that finds no memory, the session is lost.
    fn ask(&mut self, read: bool, conn: Conn, key: Key)
        requires { KeyInRange key }
        ensures { Does (λ marks s. settled marks (asked_by_one read (conn, key) s)) self.old self.new }
    {
        if !self.is_open(conn) {
            self.asker((read, key));
            return;
        }
        match self.note(conn, (read, key)) {
            Ok(()) => {}
            Err(_) => self.lose(conn),
        }
    }

    /// Notes who asks last for a command or a read. Without memory nothing changes, and nobody had asked.
    fn note(&mut self, conn: Conn, key: Awaited) -> Result<(), NoMemory>
        requires { AwaitedInRange key }
        ensures ok { OnOk result
            (self.new ≡ record self.old { askers = map.insert self.old.askers key conn }) }
        ensures err { OnErr result (self.new ≡ self.old) }
        ensures absent { OnErr result (map.get self.old.askers key ≡ None) }
    {
        put_asker(&mut self.askers, conn, key)
    }

    /// Commands are asked for, in their order.
    fn ask_all(&mut self, keys: &[(Conn, Key)])
        requires { All KeyAtInRange keys.now }
        ensures { Does (λ marks s. settled marks (asked false keys.now s)) self.old self.new }
    {
        for (conn, key) in keys {
            self.ask(false, *conn, *key);
        }
    }

    /// What becomes of what was asked for: commands wait for their answers, or each is told why it is
    /// refused; a read waits where the members are asked, and of all else what becomes of it is told.
    pub fn propose(&mut self, wanted: Option<Wanted>, outcome: Option<Outcome>)
        requires wanted { IfSome wanted WantedInRange }
        requires outcome { IfSome outcome OutcomeInRange }
        ensures { Does (λ marks s. settled marks (proposed wanted outcome s)) self.old self.new }
    {
        match wanted {
            None => {}
            Some(Wanted::Commands(keys)) => self.propose_all(keys.as_slice(), refusal(outcome)),
            Some(Wanted::Stop(conn)) => self.tell_outcome(conn, outcome),
            Some(Wanted::Trim(conn)) => self.tell_outcome(conn, outcome),
            Some(Wanted::Read(conn, key)) => self.propose_read(conn, key, outcome),
        }
    }

    /// Commands wait for their answers, or each is told why it is refused.
    fn propose_all(&mut self, keys: &[(Conn, Key)], why: Option<Refusal>)
        requires keys { All KeyAtInRange keys.now }
        requires why { IfSome why RefusalInRange }
        ensures { Does (λ marks s. settled marks (told_all (said_of_refusal keys.now why)
            (asked false (waits_unless why keys.now) s))) self.old self.new }
    {
        match why {
            None => self.ask_all(keys),
            Some(why) => self.deny_all(keys, Some(why)),
        }
    }

    /// A read waits for its answer where the members are asked; else what becomes of it is told.
    fn propose_read(&mut self, conn: Conn, key: Key, outcome: Option<Outcome>)
        requires key { KeyInRange key }
        requires outcome { IfSome outcome OutcomeInRange }
        ensures { Does (λ marks s. settled marks (told_all (said_of_read conn key outcome)
            (asked true (waits_if_asked conn key outcome) s))) self.old self.new }
    {
        match outcome {
            None => {}
            Some(Outcome::Asked) => self.ask(true, conn, key),
            Some(outcome) => self.tell_key(conn, key, Said::Outcome(outcome)),
        }
    }

    /// A client is told something of a command or a read.
    fn tell_key(&mut self, conn: Conn, key: Key, said: Said)
        requires key { KeyInRange key }
        requires said { SaidInRange said }
        ensures { Does (λ marks s. settled marks (told conn (of_command key said) s)) self.old self.new }
    {
        let what = of_command(key, said);
        self.answer(conn, &what);
    }

    /// An outcome is told, if there is one.
    fn tell_outcome(&mut self, conn: Conn, outcome: Option<Outcome>)
        requires { IfSome outcome OutcomeInRange }
        ensures { Does (λ marks s. settled marks (told_all (said_of_outcome conn outcome) s))
            self.old self.new }
    {
        match outcome {
            None => {}
            Some(outcome) => self.tell(conn, Said::Outcome(outcome)),
        }
    }

    /// Clients whose input was not done are told why; None stands for want of memory.
    pub fn excuse(&mut self, wanted: Option<Wanted>, why: Option<Refusal>)
        requires wanted { IfSome wanted WantedInRange }
        requires why { DenialInRange why }
        ensures { Does (λ marks s. settled marks (excused wanted why s)) self.old self.new }
    {
        match wanted {
            None => {}
            Some(Wanted::Commands(keys)) => self.deny_all(keys.as_slice(), why),
            Some(Wanted::Stop(conn)) => self.tell(conn, denied(why)),
            Some(Wanted::Trim(conn)) => self.deny_trim(conn, why),
            Some(Wanted::Read(conn, key)) => self.deny(conn, key, why),
        }
    }

    /// Each of these commands is told why it was not done.
    fn deny_all(&mut self, keys: &[(Conn, Key)], why: Option<Refusal>)
        requires keys { All KeyAtInRange keys.now }
        requires why { DenialInRange why }
        ensures { Does (λ marks s. settled marks (told_all (said_each keys.now (denied why)) s))
            self.old self.new }
    {
        for (conn, key) in keys {
            self.deny(*conn, *key, why);
        }
    }

    /// A command or a read is told why it was not done.
    fn deny(&mut self, conn: Conn, key: Key, why: Option<Refusal>)
        requires key { KeyInRange key }
        requires why { DenialInRange why }
        ensures { Does (λ marks s. settled marks (told conn (of_command key (denied why)) s))
            self.old self.new }
    {
        self.tell_key(conn, key, denied(why));
    }

    /// Who asked for trimming is told why it was not done, but not that it was lost.
    fn deny_trim(&mut self, conn: Conn, why: Option<Refusal>)
        requires { DenialInRange why }
        ensures { Does (λ marks s. settled marks (told_all (said_of_denial (Trim conn) why) s))
            self.old self.new }
    {
        match why {
            None => {}
            Some(why) => self.tell(conn, denied(Some(why))),
        }
    }

    /// A client is told something that is of no command.
    fn tell(&mut self, conn: Conn, said: Said)
        requires { SaidInRange said }
        ensures { Does (λ marks s. settled marks (told conn (no_command said) s)) self.old self.new }
    {
        let what = of_no_command(said);
        self.answer(conn, &what);
    }

    /// The answer to a command, or to a read, goes to the session that asked last for it.
    pub fn reply(&mut self, read: bool, decided: Reply)
        requires { AnswerInRange decided }
        ensures { Does (λ marks s. settled marks (replied read decided s)) self.old self.new }
    {
        let Reply {
            client,
            seq,
            answer,
        } = decided;
        let Some(conn) = self.asker((read, (client, seq))) else {
            return;
        };
        let told = ClientReply {
            client,
            seq,
            said: Said::Answer(answer),
        };
        self.answer(conn, &told);
    }

    /// Answers to commands, or to reads, in their order.
    pub fn reply_all(&mut self, read: bool, replies: Replies)
        requires { All AnswerInRange replies }
        ensures { Does (λ marks s. settled marks (replied_all read replies s)) self.old self.new }
    {
        for decided in replies.into_vec() {
            self.reply(read, decided);
        }
    }

    /// A disk failed, with this count since: all that wait for an answer are told, and nobody waits any more.
    pub fn give_up(&mut self, count: u64)
        ensures { Does (λ marks s. settled marks (given_up count s)) self.old self.new }
    {
        let askers = mem::replace(&mut self.askers, BTreeMap::new(self.alloc));
        let why = Refusal::StorageFailed { count };
        for ((_read, key), conn) in askers {
            self.deny(conn, key, Some(why));
        }
    }

    /// A client is told something at a connection.
    pub fn answer(&mut self, conn: Conn, told: &ClientReply)
        requires { ReplyInRange told.now }
        ensures { Does (λ marks s. settled marks (waits_for conn (client_frame told.now) s))
            self.old self.new }
    {
        match self.queue_reply(conn, told) {
            Ok(()) => {}
            Err(_) => self.lose(conn),
        }
    }

    /// Adds a reply to what waits for a connection. Without memory nothing changes.
    pub fn queue_reply(&mut self, conn: Conn, told: &ClientReply) -> Result<(), NoMemory>
        requires { ReplyInRange told.now }
        ensures ok { OnOk result (self.new ≡ waits_for conn (client_frame told.now) self.old) }
        ensures err { OnErr result (self.new ≡ self.old) }
    {
        self.queue_frame(conn, &Untold::new(told))
    }
}
