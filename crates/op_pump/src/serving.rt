ghost use Rattle.std.specs.Prelude.{◌≡◌, ◌≤◌, ◌<◌, ◌+◌, ◌*◌, ◌&&◌, length, not, nat_lt, if◌then◌else◌, true, false, IfOk, OnErr};
ghost use Rattle.op_types.specs.Ranges.{IsPid};
ghost use Rattle.op_pump.specs.Counts.{IsLimited, most_in_turn};
ghost use Rattle.op_pump.specs.Moments.{IsResting, IsIdleAt, PeersInRange, set_of, TurnsGo};
ghost use Rattle.op_pump.specs.Serving.{IsUnserved, ServesNode, begun};
ghost use Rattle.op_serving.specs.Counts.{most_inputs};
ghost use Rattle.op_serving.specs.Losses.{last_count};
ghost use Rattle.op_serving.specs.declared.serve_end.ServeEnd.TheVariants as ends;

use crate::pump::Pump;
use crate::room::Room;
use crate::timer::Timer;
use op_driver::Driver;
use op_outside::{Clock, Net};
use op_queues::Sessions;
use op_serving::{Core, Mark, ServeEnd};
use op_setup::Settings;
use op_types::{NoMemory, Pid};
use std::alloc::Global;

/// A node that was served.
#[derive(Drop)]
pub struct Served<K> {
    /// The node.
    pub core: K,
    /// How serving ended, and what was lost for want of memory, in order. `NoMemory` comes only before the
    /// first turn, where nothing is done yet but that the clock is read once.
    pub end: Result<(ServeEnd, Vec<Mark>), NoMemory>,
}

/// Serves until an end request or the last turn, and says what was lost for want of memory.
pub fn serve<K: Core, N: Net, C: Clock>(
    alloc: Global,
    core: K,
    net: &mut N,
    clock: &mut C,
    settings: &Settings,
) -> Served<K>
    requires peers { PeersInRange settings.now }
    requires limits { IsLimited settings.now }
    requires ready { K.ready core }
    ensures serves { IfOk result.end (λ end. ServesNode K.standing K.stores settings.now K.line
        end.0 end.1.items core result.core
        (N.told net.old, N.fault_count net.old) (N.told net.new, N.fault_count net.new)
        (C.answers clock.old) (C.answers clock.new)) }
    ensures unserved { OnErr result.end (IsUnserved core result.core net.old net.new
        (C.answers clock.old) (C.answers clock.new)) }
    ensures ready { K.ready result.core }
{
    let start = clock.millis();
    match begin(alloc, core.me(), settings) {
        Ok((sessions, room)) => {
            let mut pump = Pump {
                driver: Driver::new(core, sessions),
                timer: Timer::new(settings.turns, start, settings.tick_ms),
                room,
            };
            let end = pump.take_turns(net, clock, settings);
            let Pump { driver, .. } = pump;
            let (core, sessions) = driver.into_parts();
            Served {
                core,
                end: Ok((end, sessions.into_lost())),
            }
        }
        Err(_) => Served {
            core,
            end: Err(NoMemory),
        },
    }
}

/// Before the first turn every peer is known, and none has a session.
fn begin(alloc: Global, me: Pid, settings: &Settings) -> Result<(Sessions, Room), NoMemory>
    requires me { IsPid me }
    requires peers { PeersInRange settings.now }
    ensures { IfOk result (λ r. r.0 ≡ begun settings.now.peers me) }
{
    let mut sessions = Sessions::new(alloc, me)?;
    for peer in settings.peers.as_slice() {
        sessions.know(peer.0)?;
    }
    let room = Room::new(alloc)?;
    Ok((sessions, room))
}

impl<K: Core> Pump<K> {
    /// Takes the turns.
    fn take_turns<N: Net, C: Clock>(
        &mut self,
        net: &mut N,
        clock: &mut C,
        settings: &Settings,
    ) -> ServeEnd
        requires peers { PeersInRange settings.now }
        requires idle { IsResting self.old.driver.loop }
        requires turns { self.old.driver.loop.place.turn + self.old.timer.left ≤ last_count }
        ensures goes { TurnsGo K.stores (set_of settings.now) K.line result
            self.old.timer self.old.driver self.new.timer self.new.driver
            (N.told net.old, N.fault_count net.old) (N.told net.new, N.fault_count net.new)
            (C.answers clock.old) (C.answers clock.new) }
        ensures most { most_inputs self.new.driver.loop ≤ most_inputs self.old.driver.loop
            + self.old.timer.left * most_in_turn (length settings.now.peers) }
    {
        'turns: while self.has_turn() {
            match self.take_turn(net, clock, settings) {
                Ok(()) => {}
                Err(end) => return end,
            }
        }
        self.end()
    }

    /// Whether another turn is to be taken.
    fn has_turn(&self) -> bool
        ensures is { result ≡ (nat_lt 0 self.now.timer.left && not self.now.driver.loop.ending) }
        ensures left { result ≡ true → 0 < self.now.timer.left }
        ensures ending { result ≡ true → self.now.driver.loop.ending ≡ false }
    {
        self.timer.left > 0 && !self.driver.is_ending()
    }

    /// How it ends where no turn is to be taken any more.
    fn end(&self) -> ServeEnd
        ensures { result ≡ (if self.now.driver.loop.ending then ends.Ended else ends.TurnsOver) }
    {
        if self.driver.is_ending() {
            ServeEnd::Ended
        } else {
            ServeEnd::TurnsOver
        }
    }
}
