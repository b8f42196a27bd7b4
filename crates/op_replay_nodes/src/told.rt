//! What the areas of a node are told of its plan, before a step or an opening.
ghost use Rattle.std.specs.Prelude.{◌≡◌, true, IfOk};
ghost use Rattle.op_replay_nodes.specs.Plans.{is_stop};

use crate::awaited::Awaited;
use crate::plan::Plan;
use op_areas::{Arming, CallAt, Stop};
use op_memory::Power;
use op_types::NoMemory;
use std::alloc::Global;

/// How many calls of each disk can be named.
const CALLS_OF_DISK: u8 = 50;

/// Nothing that was pending took place in this image.
pub const SYNCED_IMAGE: u8 = 0;

/// One of a node's two areas.
#[derive(Clone, Copy, Debug, PartialEq, Eq)]
pub enum Which {
    First,
    Second,
}

/// How often each of a node's areas has failed.
#[derive(Clone, Copy, Debug, PartialEq, Eq)]
pub struct Faults {
    /// The first area.
    pub first: u64,
    /// The second area.
    pub second: u64,
}

/// What areas are told of a node's plan: all their copies share a power switch while the node is to stop.
#[derive(Drop)]
pub struct Told {
    /// The plan.
    pub plan: Plan,
    /// How often the areas had failed before.
    pub faults: Faults,
    /// The switch.
    pub power: Power,
}

impl Faults {
    /// How often this area has failed.
    fn of(self, which: Which) -> u64 {
        match which {
            Which::First => self.first,
            Which::Second => self.second,
        }
    }

    /// A stop between two steps, of both areas.
    pub fn stops_between(self) -> (Stop, Stop) {
        (
            self.stop_between(Which::First),
            self.stop_between(Which::Second),
        )
    }

    /// The same of one that has failed so often.
    fn stop_between(self, which: Which) -> Stop {
        Stop {
            image: SYNCED_IMAGE,
            copy: None,
            faults: self.of(which),
        }
    }
}

impl Told {
    /// What is told of this plan.
    pub fn new(alloc: Global, plan: Plan, faults: Faults) -> Result<Told, NoMemory>
        ensures { IfOk result (λ told. told.plan ≡ plan) }
    {
        Ok(Told {
            plan,
            faults,
            power: Power::new(alloc)?,
        })
    }

    /// What both areas are told.
    pub fn armings(&self) -> Result<(Arming, Arming), NoMemory> {
        Ok((self.arming(Which::First)?, self.arming(Which::Second)?))
    }

    /// What one of them is told.
    fn arming(&self, which: Which) -> Result<Arming, NoMemory> {
        match self.plan.awaited {
            Awaited::Nothing => Ok(Arming::Nothing),
            Awaited::Stop { call, .. } => Ok(Arming::Stop {
                power: self.power.share()?,
                at: call_at(which, call),
            }),
            Awaited::Failure { call } => match call_at(which, call) {
                Some(at) => Ok(Arming::Fail { at }),
                None => Ok(Arming::Nothing),
            },
        }
    }

    /// Whether the node stopped, as it was to.
    pub fn has_stopped(&self) -> bool
        ensures { result ≡ true → is_stop self.now.plan.awaited ≡ true }
    {
        self.plan.awaited.is_stop() && self.power.is_off()
    }

    /// That stop, of both areas.
    pub fn stops(&self) -> (Stop, Stop) {
        (self.stop(Which::First), self.stop(Which::Second))
    }

    /// The same of one of them.
    fn stop(&self, which: Which) -> Stop {
        match self.plan.awaited {
            Awaited::Stop { call, image } => Stop {
                image,
                copy: copy_at(which, call),
                faults: self.faults.of(which),
            },
            Awaited::Nothing | Awaited::Failure { .. } => self.faults.stop_between(which),
        }
    }
}

/// What one of the areas is told where this disk is killed.
pub fn killing(which: Which, disk: u8) -> Arming {
    match copy_of(which, disk) {
        Some(copy) => Arming::Kill { copy },
        None => Arming::Nothing,
    }
}

/// Which copy of this area a disk is, if it is one: disks 1 and 2 hold the areas, 3 and 4 the second copies.
fn copy_of(which: Which, disk: u8) -> Option<u8> {
    match (which, disk) {
        (Which::First, 1) | (Which::Second, 2) => Some(0),
        (Which::First, 3) | (Which::Second, 4) => Some(1),
        _ => None,
    }
}

/// In which copy of this area a call is made, if it is one of its: the first calls are disk 1's, then come
/// those of disk 2, and so on.
fn copy_at(which: Which, call: u8) -> Option<u8> {
    copy_of(which, call.saturating_sub(1) / CALLS_OF_DISK + 1)
}

/// The same, with the number of the call in its disk.
fn call_at(which: Which, call: u8) -> Option<CallAt> {
    match copy_at(which, call) {
        Some(copy) => Some(CallAt {
            copy,
            call: call.saturating_sub(1) % CALLS_OF_DISK + 1,
        }),
        None => None,
    }
}
