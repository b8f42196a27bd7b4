ghost use Rattle.std.specs.Prelude.{◌≡◌, ◌≤◌, ◌<◌, ◌-◌, true, false};
ghost use Rattle.op_serving.specs.Pump.{last_time, next_due};
ghost use Rattle.op_pump.specs.Moments.{set_out};

/// By how many ticks the round behind a late tick is longer at most.
const MOST_TICKS_LONGER: u64 = 10;

/// How many turns are left, and when the next tick is due.
#[derive(Clone, Copy, Debug, PartialEq, Eq)]
pub struct Timer {
    /// The turns that are left.
    pub left: u64,
    /// The clock's last answer.
    pub last: u64,
    /// When the next tick is due.
    pub due: u64,
}

impl Timer {
    /// Before the first turn: the first tick is due so long after the start.
    pub fn new(turns: u64, start: u64, tick_ms: u64) -> Timer
        ensures is { result ≡ set_out turns start tick_ms }
        ensures range { result.left ≤ last_time }
    {
        Timer {
            left: turns,
            last: start,
            due: start.saturating_add(tick_ms),
        }
    }

    /// How long to wait at most.
    pub fn patience(&self) -> u64
        ensures { result ≡ self.now.due - self.now.last }
    {
        self.due.saturating_sub(self.last)
    }

    /// Whether a tick is due at this time.
    pub fn is_due(&self, now: u64) -> bool
        ensures due { result ≡ true → self.now.due ≤ now }
        ensures early { result ≡ false → now < self.now.due }
    {
        self.due <= now
    }

    /// The tick that is due is given at this time. The round behind a late one is longer by twice what it
    /// was late, and by ten ticks at most: a node that was paused for an hour is soon back.
    pub fn tick(&mut self, now: u64, tick_ms: u64)
        requires { self.old.due ≤ now }
        ensures { self.new ≡ record self.old { last = now; due = next_due tick_ms self.old.due now } }
    {
        let late = now - self.due;
        self.last = now;
        let longer = late
            .saturating_add(late)
            .min(tick_ms.saturating_mul(MOST_TICKS_LONGER));
        self.due = now.saturating_add(tick_ms).saturating_add(longer);
    }
}
