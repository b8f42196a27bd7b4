ghost use Rattle.std.specs.Prelude.{◌≡◌, [], ◌∷◌, Some};
ghost use Rattle.op_outside.specs.Telling.{Grows};
ghost use Rattle.op_memory.specs.FakeClocks.{ClockState, next_time, Ticks};

use op_outside::Clock;
use std::alloc::Global;
use std::collections::VecDeque;
use std::marker::Model;

/// A clock in memory, which keeps its answers.
#[derive(Drop)]
pub struct FakeClock {
    script: VecDeque<u64>,
    last: u64,
    step: u64,
    kept: Vec<u64>,
    forgot: bool,
}

impl Model for FakeClock {
    ghost use Rattle.op_memory.specs.Fakes.{told_of};
    ghost use Rattle.op_memory.specs.FakeClocks.{ClockState};

    ghost Value = { ClockState };

    ghost view = { λ c. record {
      script = c.script.items;
      last = c.last;
      step = c.step;
      told = told_of c.forgot c.kept.items;
    } };
}

impl FakeClock {
    /// Gives these times in milliseconds, and later ones that each go on by `step`.
    pub fn new(alloc: Global, script: VecDeque<u64>, step: u64) -> FakeClock
        ensures { result ≡ record { script = script.items; last = 0; step = step; told = Some [] } }
    {
        FakeClock {
            script,
            last: 0,
            step,
            kept: Vec::new(alloc),
            forgot: false,
        }
    }
}

impl Clock for FakeClock {
    ghost answers = { λ c. c.told };

    fn millis(&mut self) -> u64
        ensures tells { Grows self.old.told (result ∷ []) self.new.told }
        ensures answer { result ≡ next_time self.old }
        ensures ticks { Ticks self.old self.new }
    {
        self.last = match self.script.pop_front() {
            Some(millis) => millis,
            None => self.last.saturating_add(self.step),
        };
        if self.kept.push(self.last).is_err() {
            self.forgot = true;
        }
        self.last
    }
}
