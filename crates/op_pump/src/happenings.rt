ghost use Rattle.std.specs.Prelude.{◌≡◌, ◌≢◌, ◌≤◌, ◌<◌, ◌+◌, ◌*◌, ◌∷◌, [], ℕ, true, OnOk, IfSome, IfNone};
ghost use Rattle.op_outside.specs.Nets.{most_happenings};
ghost use Rattle.op_serving.specs.Counts.{most_inputs};
ghost use Rattle.op_serving.specs.State.{is_open};
ghost use Rattle.op_serving.specs.Turns.{happens_at};
ghost use Rattle.op_serving.specs.Pump.{Settings, Stage, asks, piece_len, reads, writes, writes_place};
ghost use Rattle.op_driver.specs.Driver.{Acts, IsIdle, Rests};
ghost use Rattle.op_pump.specs.Moments.{IsResting, StaysIdle, moment, reached, Goes, On, IsIdleAt, read_at, happened};

use crate::pump::Pump;
use op_outside::{Conn, Got, Happening, Net};
use op_serving::{Core, Kind, ServeEnd};

/// The place of the writes, behind that of the last happening.
const WRITES_PLACE: u8 = 65;

impl<K: Core> Pump<K> {
    /// What happened, in its order; then what was gathered is given.
    pub fn take_happenings<N: Net>(&mut self, net: &mut N, count: usize) -> Result<(), ServeEnd>
        requires most { count ≤ most_happenings }
        requires given { N.given net.old ≡ count }
        requires idle { IsIdleAt self.old.driver.loop.place.turn 0 self.old.driver.loop }
        ensures goes { (o : Settings) → Goes K.stores o K.line []
            (moment (asks 0 count) self.old.timer self.old.driver)
            (moment (reached result (writes 0)) self.new.timer self.new.driver)
            (N.told net.old, N.fault_count net.old) (N.told net.new, N.fault_count net.new) }
        ensures idle { OnOk result
            (IsIdleAt self.old.driver.loop.place.turn writes_place self.new.driver.loop) }
        ensures timer { self.new.timer ≡ self.old.timer }
        ensures most { most_inputs self.new.driver.loop ≤ most_inputs self.old.driver.loop
            + count * piece_len }
    {
        for i in 0..count {
            self.take_happening(net, i)?;
        }
        self.end_happenings(net)
    }

    /// Behind the last happening what was gathered is given.
    fn end_happenings<N: Net>(&mut self, net: &mut N) -> Result<(), ServeEnd>
        requires idle { IsResting self.old.driver.loop }
        requires at { self.old.driver.loop.place.at < writes_place }
        ensures goes { (o : Settings) (k : ℕ) → Goes K.stores o K.line []
            (moment (asks k k) self.old.timer self.old.driver)
            (moment (reached result (writes 0)) self.new.timer self.new.driver)
            (N.told net.old, N.fault_count net.old) (N.told net.new, N.fault_count net.new) }
        ensures idle { OnOk result
            (IsIdleAt self.old.driver.loop.place.turn writes_place self.new.driver.loop) }
        ensures timer { self.new.timer ≡ self.old.timer }
        ensures most { most_inputs self.new.driver.loop ≤ most_inputs self.old.driver.loop }
    {
        self.driver.begin_happening(WRITES_PLACE);
        self.driver.flush();
        self.settle(net)
    }

    /// One happening.
    fn take_happening<N: Net>(&mut self, net: &mut N, i: usize) -> Result<(), ServeEnd>
        requires most { i < most_happenings }
        requires given { i < N.given net.old }
        requires idle { IsIdleAt self.old.driver.loop.place.turn i self.old.driver.loop }
        ensures goes { (o : Settings) (k : ℕ) → i < k → Goes K.stores o K.line []
            (moment (asks i k) self.old.timer self.old.driver)
            (moment (reached result (asks (i + 1) k)) self.new.timer self.new.driver)
            (N.told net.old, N.fault_count net.old) (N.told net.new, N.fault_count net.new) }
        ensures given { N.given net.new ≡ N.given net.old }
        ensures idle { OnOk result (IsIdleAt self.old.driver.loop.place.turn (i + 1) self.new.driver.loop) }
        ensures timer { self.new.timer ≡ self.old.timer }
        ensures most { most_inputs self.new.driver.loop ≤ most_inputs self.old.driver.loop + piece_len }
    {
        let happening = net.ready(i);
        self.driver.begin_happening(i as u8 + 1);
        match self.to_read(happening) {
            Some(conn) => self.read_from(net, conn),
            None => {
                self.happen(happening);
                self.settle(net)
            }
        }
    }

    /// The connection that is to be read, if it has a session.
    fn to_read(&self, happening: Happening) -> Option<Conn>
        ensures { result ≡ read_at happening self.now.driver.loop }
    {
        match happening {
            Happening::Readable(conn) if self.driver.is_open(conn) => Some(conn),
            _ => None,
        }
    }

    /// A happening without a read.
    fn happen(&mut self, happening: Happening)
        requires idle { IsIdle self.old.driver.loop }
        requires at { self.old.driver.loop.place.at ≢ 0 }
        ensures acts { Acts K.stores (λ l s. happened l happening s) self.old.driver self.new.driver }
        ensures rests { Rests self.old.driver.loop self.new.driver.loop }
        ensures most { most_inputs self.new.driver.loop ≤ most_inputs self.old.driver.loop + 2 }
        ensures timer { self.new.timer ≡ self.old.timer }
    {
        match happening {
            Happening::Accepted(conn) => self.admit(conn, Kind::Unknown),
            Happening::Ended(conn) => self.driver.end(conn),
            Happening::Readable(_) => {}
            Happening::Writable(_) => {}
        }
    }

    /// Exactly one read, and all that it completes.
    fn read_from<N: Net>(&mut self, net: &mut N, conn: Conn) -> Result<(), ServeEnd>
        requires open { is_open conn self.old.driver.loop ≡ true }
        requires idle { IsIdle self.old.driver.loop }
        requires at { self.old.driver.loop.place.at ≢ 0 }
        requires frames { self.old.driver.loop.place.frames ≡ 0 }
        ensures on { (o : Settings) (i k : ℕ) → On K.stores o K.line []
            (moment (reads conn i k) self.old.timer self.old.driver)
            (moment (reached result (asks (i + 1) k)) self.new.timer self.new.driver)
            (N.told net.old, N.fault_count net.old) (N.told net.new, N.fault_count net.new) }
        ensures given { N.given net.new ≡ N.given net.old }
        ensures idle { OnOk result (StaysIdle self.old.driver.loop self.new.driver.loop) }
        ensures timer { self.new.timer ≡ self.old.timer }
        ensures most { most_inputs self.new.driver.loop ≤ most_inputs self.old.driver.loop + piece_len }
    {
        match self.room.read(net, conn) {
            Ok(Got::Bytes(n)) => {
                self.driver.read(conn, self.room.front(n));
                self.settle(net)
            }
            Ok(Got::NotYet) => Ok(()),
            Ok(Got::Ended) => {
                self.driver.end(conn);
                self.settle(net)
            }
            Err(_) => Err(ServeEnd::NetFault),
        }
    }
}
