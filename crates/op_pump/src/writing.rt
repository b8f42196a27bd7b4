ghost use Rattle.std.specs.Prelude.{◌≡◌, ◌≢◌, ◌≤◌, ◌<◌, ◌↔◌, ◌∷◌, [], ℕ, Some, Ok, IsTrue, OnOk, IfOk, IfSome, length};
ghost use Rattle.op_serving.specs.Counts.{most_inputs};
ghost use Rattle.op_serving.specs.State.{find};
ghost use Rattle.op_serving.specs.Turns.{queue_in, waiting_from};
ghost use Rattle.op_serving.specs.Pump.{Settings, turn, writes};
ghost use Rattle.op_pump.specs.Moments.{IsResting, StaysIdle, moment, reached, Goes, IsIdleAt, Writes, Waits, Lessens};
ghost use Rattle.op_driver.specs.Driver.{hello_left};

use crate::pump::Pump;
use op_outside::{Conn, Net, Took};
use op_serving::{Core, ServeEnd};

impl<K: Core> Pump<K> {
    /// Writes every queue that isn't empty, by rising connection.
    pub fn write_all<N: Net>(&mut self, net: &mut N) -> Result<(), ServeEnd>
        requires idle { IsResting self.old.driver.loop }
        requires at { self.old.driver.loop.place.at ≢ 0 }
        ensures goes { (o : Settings) → Goes K.stores o K.line []
            (moment (writes 0) self.old.timer self.old.driver)
            (moment (reached result turn) self.new.timer self.new.driver)
            (N.told net.old, N.fault_count net.old) (N.told net.new, N.fault_count net.new) }
        ensures idle { OnOk result (StaysIdle self.old.driver.loop self.new.driver.loop) }
        ensures timer { self.new.timer ≡ self.old.timer }
        ensures most { most_inputs self.new.driver.loop ≤ most_inputs self.old.driver.loop }
    {
        let mut next = self.driver.next_to_write(0);
        'queues: while let Some(conn) = next {
            next = self.write_queue(net, conn)?;
        }
        Ok(())
    }

    /// Writes to a connection until it takes no more, or nothing waits for it; what is left of the own hello
    /// comes first. Gives the next connection to which bytes are to be written.
    fn write_queue<N: Net>(&mut self, net: &mut N, conn: Conn) -> Result<Option<Conn>, ServeEnd>
        requires idle { IsResting self.old.driver.loop }
        requires at { self.old.driver.loop.place.at ≢ 0 }
        requires waits { 0 < length (queue_in (find conn self.old.driver.loop.sessions)) }
        ensures writes { (o : Settings) → Writes K.stores o K.line conn result
            self.old.timer self.old.driver self.new.driver
            (N.told net.old, N.fault_count net.old) (N.told net.new, N.fault_count net.new) }
        ensures waits { IfOk result (Waits conn self.new.driver.loop) }
        ensures behind { IfOk result (λ next. next ≢ Some conn) }
        ensures idle { OnOk result (StaysIdle self.old.driver.loop self.new.driver.loop) }
        ensures timer { self.new.timer ≡ self.old.timer }
        ensures most { most_inputs self.new.driver.loop ≤ most_inputs self.old.driver.loop }
    {
        let next = self.write_hello(net, conn)?;
        if is_conn(next, conn) {
            return self.pour_out(net, conn);
        }
        Ok(next)
    }

    /// Writes what is left of the own hello to a connection, if it takes that. Gives the next connection to
    /// which bytes are to be written.
    fn write_hello<N: Net>(&mut self, net: &mut N, conn: Conn) -> Result<Option<Conn>, ServeEnd>
        requires idle { IsResting self.old.driver.loop }
        requires at { self.old.driver.loop.place.at ≢ 0 }
        requires waits { 0 < length (queue_in (find conn self.old.driver.loop.sessions)) }
        ensures writes { (o : Settings) → Writes K.stores o K.line conn result
            self.old.timer self.old.driver self.new.driver
            (N.told net.old, N.fault_count net.old) (N.told net.new, N.fault_count net.new) }
        ensures waits { IfOk result (Waits conn self.new.driver.loop) }
        ensures no_hello { result ≡ Ok (Some conn) → hello_left conn self.new.driver.loop ≡ 0 }
        ensures idle { OnOk result (StaysIdle self.old.driver.loop self.new.driver.loop) }
        ensures timer { self.new.timer ≡ self.old.timer }
        ensures most { most_inputs self.new.driver.loop ≤ most_inputs self.old.driver.loop }
    {
        let mut next = Some(conn);
        'hello: while is_conn(next, conn) && self.driver.hello_left(conn) > 0 {
            next = self.write_one(net, conn)?;
        }
        Ok(next)
    }

    /// Writes what waits for a connection, if it takes that, where no hello is left. Gives the next
    /// connection to which bytes are to be written.
    fn pour_out<N: Net>(&mut self, net: &mut N, conn: Conn) -> Result<Option<Conn>, ServeEnd>
        requires idle { IsResting self.old.driver.loop }
        requires at { self.old.driver.loop.place.at ≢ 0 }
        requires waits { 0 < length (queue_in (find conn self.old.driver.loop.sessions)) }
        requires no_hello { hello_left conn self.old.driver.loop ≡ 0 }
        ensures writes { (o : Settings) → Writes K.stores o K.line conn result
            self.old.timer self.old.driver self.new.driver
            (N.told net.old, N.fault_count net.old) (N.told net.new, N.fault_count net.new) }
        ensures waits { IfOk result (Waits conn self.new.driver.loop) }
        ensures behind { IfOk result (λ next. next ≢ Some conn) }
        ensures idle { OnOk result (StaysIdle self.old.driver.loop self.new.driver.loop) }
        ensures timer { self.new.timer ≡ self.old.timer }
        ensures most { most_inputs self.new.driver.loop ≤ most_inputs self.old.driver.loop }
    {
        let mut next = Some(conn);
        'queue: while is_conn(next, conn) {
            next = self.write_one(net, conn)?;
        }
        Ok(next)
    }

    /// One write to a connection. Gives the next connection to which bytes are to be written: the same while
    /// it takes some, and more waits.
    fn write_one<N: Net>(&mut self, net: &mut N, conn: Conn) -> Result<Option<Conn>, ServeEnd>
        requires idle { IsResting self.old.driver.loop }
        requires at { self.old.driver.loop.place.at ≢ 0 }
        requires waits { 0 < length (queue_in (find conn self.old.driver.loop.sessions)) }
        ensures writes { (o : Settings) → Writes K.stores o K.line conn result
            self.old.timer self.old.driver self.new.driver
            (N.told net.old, N.fault_count net.old) (N.told net.new, N.fault_count net.new) }
        ensures waits { IfOk result (Waits conn self.new.driver.loop) }
        ensures less { result ≡ Ok (Some conn) → Lessens conn self.old.driver.loop self.new.driver.loop }
        ensures idle { OnOk result (StaysIdle self.old.driver.loop self.new.driver.loop) }
        ensures timer { self.new.timer ≡ self.old.timer }
        ensures most { most_inputs self.new.driver.loop ≤ most_inputs self.old.driver.loop }
    {
        match net.write(conn, self.driver.waiting(conn)) {
            Ok(Took::Bytes(n)) => {
                self.driver.wrote(conn, n);
                self.settle(net)?;
                Ok(self.driver.next_to_write(conn))
            }
            Ok(Took::NotYet) => Ok(self.driver.next_behind(conn)),
            Ok(Took::Ended) => {
                self.driver.end(conn);
                self.settle(net)?;
                Ok(self.driver.next_behind(conn))
            }
            Err(_) => Err(ServeEnd::NetFault),
        }
    }
}

/// Whether this is the connection.
fn is_conn(next: Option<Conn>, conn: Conn) -> bool
    ensures { IsTrue result ↔ (next ≡ Some conn) }
{
    match next {
        Some(other) => other == conn,
        None => false,
    }
}
