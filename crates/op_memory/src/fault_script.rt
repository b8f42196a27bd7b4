ghost use Rattle.std.specs.Prelude.{◌≡◌, None, false, OnOk, OnErr};
ghost use Rattle.op_memory.specs.FaultScripts.{next_fate, fate_where, is_due, reaches, IsScript, IsSameScript};
ghost use Rattle.op_memory.specs.FaultScripts.{MakesCall, MakesCallWhere, FailsAt, StopsAt, Kills, Clears};

use crate::call_fate::CallFate;
use std::alloc::AllocError;

/// Which calls fail, and in which one the disk stops. Calls count from 1.
#[derive(Drop)]
pub struct FaultScript {
    made: u64,
    fails: Vec<u64>,
    stop: Option<u64>,
    is_stopped: bool,
    is_killed: bool,
}

impl FaultScript {
    /// A script in which these calls fail, and of which none was made.
    pub fn new(fails: Vec<u64>) -> FaultScript
        ensures { IsScript 0 fails.items None false false result }
    {
        FaultScript {
            made: 0,
            fails,
            stop: None,
            is_stopped: false,
            is_killed: false,
        }
    }

    /// This call is to fail too. Without memory nothing has changed.
    pub fn fail_at(&mut self, call: u64) -> Result<(), AllocError>
        ensures told { OnOk result (FailsAt call self.old self.new) }
        ensures same { OnErr result (IsSameScript self.old self.new) }
    {
        self.fails.push(call)?;
        Ok(())
    }

    /// The disk is to stop in this call, and not where it was to before.
    pub fn stop_at(&mut self, call: u64)
        ensures { StopsAt call self.old self.new }
    {
        self.stop = Some(call);
    }

    /// Each call fails from now on, but for one in which the disk stops.
    pub fn kill(&mut self)
        ensures { Kills self.old self.new }
    {
        self.is_killed = true;
    }

    /// Whether each call fails.
    pub fn is_killed(&self) -> bool
        ensures { result ≡ self.now.is_killed }
    {
        self.is_killed
    }

    /// Whether the disk has stopped.
    pub fn is_stopped(&self) -> bool
        ensures { result ≡ self.now.is_stopped }
    {
        self.is_stopped
    }

    /// Whether the disk was told to stop in the next call, and has not stopped.
    pub fn stops_next(&self) -> bool
        ensures { result ≡ is_due self.now }
    {
        if self.is_stopped {
            return false;
        }
        match self.stop {
            Some(call) => self.made.saturating_add(1) >= call,
            None => false,
        }
    }

    /// How many calls were made, up to 2^64 - 1.
    pub fn made(&self) -> u64
        ensures { result ≡ self.now.made }
    {
        self.made
    }

    /// No call is to fail any more, unless the disk was killed, and it is not to stop: one that has stopped
    /// runs again.
    pub fn clear(&mut self)
        ensures { Clears self.old self.new }
    {
        self.fails.clear();
        self.stop = None;
        self.is_stopped = false;
    }

    /// The fate of the next call, where the power is on. After the one in which the disk stops, each fails.
    pub fn next_fate(&mut self) -> CallFate
        ensures fate { result ≡ next_fate self.old }
        ensures goes { MakesCall self.old self.new }
    {
        self.fate_where(false)
    }

    /// The fate of the next call: where the power is off, the disk stops in it.
    pub fn fate_where(&mut self, is_off: bool) -> CallFate
        ensures fate { result ≡ fate_where is_off self.old }
        ensures goes { MakesCallWhere is_off self.old self.new }
    {
        self.made = self.made.saturating_add(1);
        if self.is_stopped {
            return CallFate::Fails;
        }
        if is_off || self.is_due() {
            self.is_stopped = true;
            return CallFate::Stops;
        }
        if self.is_killed || self.fails.contains(&self.made) {
            return CallFate::Fails;
        }
        CallFate::Runs
    }

    /// Whether the disk is to stop in this call.
    fn is_due(&self) -> bool
        ensures { result ≡ reaches self.now.stop self.now.made }
    {
        match self.stop {
            Some(call) => self.made >= call,
            None => false,
        }
    }
}
