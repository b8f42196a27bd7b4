//! What is planned for the disks of a node.
ghost use Rattle.std.specs.Prelude.{◌≡◌};
ghost use Rattle.op_runs.specs.Possible.{IsDisk};
ghost use Rattle.op_replay_nodes.specs.Plans.{is_quiet, killed_with, lets_fail, lost_in};

use crate::awaited::Awaited;

/// What is planned for the disks of a node.
#[derive(Clone, Copy, Debug, PartialEq, Eq)]
pub struct Plan {
    /// What awaits its next step or opening.
    pub awaited: Awaited,
    /// Which of its disks are killed.
    pub killed: Killed,
}

/// Which disks of a node are killed: 1 and 2 hold its areas, 3 and 4 the second copies.
#[derive(Clone, Copy, Debug, PartialEq, Eq)]
pub struct Killed {
    /// Disk 1.
    pub first: bool,
    /// Disk 2.
    pub second: bool,
    /// Disk 3.
    pub third: bool,
    /// Disk 4.
    pub fourth: bool,
}

impl Plan {
    /// Nothing is planned.
    pub const NONE: Plan = Plan {
        awaited: Awaited::Nothing,
        killed: Killed {
            first: false,
            second: false,
            third: false,
            fourth: false,
        },
    };

    /// Nothing awaits the node, and none of its areas, mirrored or not, is lost.
    pub fn is_quiet(self, is_mirrored: bool) -> bool
        ensures { result ≡ is_quiet is_mirrored self }
    {
        match self.awaited {
            Awaited::Nothing => !self.killed.is_lost(is_mirrored),
            Awaited::Stop { .. } | Awaited::Failure { .. } => false,
        }
    }

    /// Whether a call of its areas, mirrored or not, may fail.
    pub fn lets_fail(self, is_mirrored: bool) -> bool
        ensures { result ≡ lets_fail is_mirrored self }
    {
        match self.awaited {
            Awaited::Failure { .. } => true,
            Awaited::Nothing | Awaited::Stop { .. } => self.killed.is_lost(is_mirrored),
        }
    }
}

impl Killed {
    /// Whether an area is lost, where each is mirrored or not.
    pub fn is_lost(self, is_mirrored: bool) -> bool
        ensures { result ≡ lost_in is_mirrored self }
    {
        if is_mirrored {
            self.first && self.third || self.second && self.fourth
        } else {
            self.first || self.second
        }
    }

    /// This disk is killed too.
    pub fn with(self, disk: u8) -> Killed
        ensures { result ≡ killed_with disk self }
    {
        let mut killed = self;
        match disk {
            1 => killed.first = true,
            2 => killed.second = true,
            3 => killed.third = true,
            _ => killed.fourth = true,
        }
        killed
    }
}
