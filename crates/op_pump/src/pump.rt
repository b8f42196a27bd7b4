ghost use Rattle.std.specs.Prelude.{◌≡◌, ◌≤◌, ◌+◌, OnOk};
ghost use Rattle.op_serving.specs.Counts.{hello_in, most_inputs};
ghost use Rattle.op_driver.specs.Driver.{Acts, FromCalm, Rests, IsIdle, IsDrained, MayBegin};
ghost use Rattle.op_pump.specs.Moments.{StaysIdle, IsIdleAt, Closes, Settles, admitted};

use crate::room::Room;
use crate::timer::Timer;
use op_driver::Driver;
use op_outside::{Conn, Net};
use op_serving::{Core, Kind, ServeEnd};

/// A node that is served, and what the loop keeps beside it.
#[derive(Drop)]
pub struct Pump<K: Core> {
    /// The node with its sessions.
    pub driver: Driver<K>,
    /// The turns and ticks.
    pub timer: Timer,
    /// Room for what a read gives.
    pub room: Room,
}

impl<K: Core> Pump<K> {
    /// Closes the connections that the driver gave, in their order. With the last mark serving stops.
    pub fn settle<N: Net>(&mut self, net: &mut N) -> Result<(), ServeEnd>
        requires { IsDrained self.old.driver.loop }
        ensures settles { Settles self.old.driver result self.new.driver
            (N.told net.old, N.fault_count net.old) (N.told net.new, N.fault_count net.new) }
        ensures most { most_inputs self.new.driver.loop ≤ most_inputs self.old.driver.loop }
        ensures given { N.given net.new ≡ N.given net.old }
        ensures idle { OnOk result (StaysIdle self.old.driver.loop self.new.driver.loop) }
        ensures timer { self.new.timer ≡ self.old.timer }
    {
        self.close_all(net);
        if self.driver.is_full() {
            return Err(ServeEnd::Starved);
        }
        Ok(())
    }

    /// Closes the connections that the driver gave, in their order.
    fn close_all<N: Net>(&mut self, net: &mut N)
        ensures closes { Closes self.old.driver self.new.driver
            (N.told net.old, N.fault_count net.old) (N.told net.new, N.fault_count net.new) }
        ensures most { most_inputs self.new.driver.loop ≤ most_inputs self.old.driver.loop }
        ensures given { N.given net.new ≡ N.given net.old }
        ensures timer { self.new.timer ≡ self.old.timer }
    {
        'closes: while let Some(conn) = self.driver.next_close() {
            net.close(conn);
        }
    }

    /// A new connection has a session, unless one of its number has.
    pub fn admit(&mut self, conn: Conn, kind: Kind)
        requires idle { IsIdle self.old.driver.loop }
        requires kind { MayBegin kind }
        ensures acts { Acts K.stores (λ l s. admitted l conn kind s) self.old.driver self.new.driver }
        ensures calm { self.old.driver.loop.place.at ≡ 0 → FromCalm self.old.driver self.new.driver }
        ensures rests { Rests self.old.driver.loop self.new.driver.loop }
        ensures most { most_inputs self.new.driver.loop ≤ most_inputs self.old.driver.loop
            + 2 + hello_in kind }
        ensures core { self.new.driver.core ≡ self.old.driver.core }
        ensures timer { self.new.timer ≡ self.old.timer }
    {
        if self.driver.is_open(conn) {
            return;
        }
        self.driver.join(conn, kind);
    }
}
