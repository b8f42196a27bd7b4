ghost use Rattle.std.specs.Prelude.{None};

use op_outside::Clock;
use std::time::{self, Instant};

/// The system's clock that doesn't go back. It tells none of its answers.
#[derive(Drop)]
pub struct MonotonicClock<R: time::Clock + Drop> {
    rt: R,
    start: Option<Instant>,
    last: u64,
}

impl<R: time::Clock + Drop> MonotonicClock<R> {
    /// Counts from its first answer on.
    pub fn new(rt: R) -> Self {
        MonotonicClock {
            rt,
            start: None,
            last: 0,
        }
    }

    /// The milliseconds since the start, where the system tells the time.
    fn read(&mut self) -> Option<u64> {
        let now = Instant::now(&self.rt).ok()?;
        let start = *self.start.get_or_insert(now);
        let since = now.checked_duration_since(start)?;
        u64::try_from(since.as_millis()).ok()
    }
}

impl<R: time::Clock + Drop> Clock for MonotonicClock<R> {
    ghost answers = { λ _. None };

    /// Where the system doesn't tell the time, the last answer again.
    fn millis(&mut self) -> u64 {
        if let Some(millis) = self.read() {
            self.last = self.last.max(millis);
        }
        self.last
    }
}
