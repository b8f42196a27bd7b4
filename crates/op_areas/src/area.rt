ghost use Rattle.std.specs.Prelude.{◌≡◌, ℕ, Bool, List, [], IfOk, OnOk};
ghost use Rattle.op_memory.specs.MemDisks.{BeginsAnew};
ghost use Rattle.op_areas.specs.Media.{HoldNoMore, HoldWhatIsLeft};

use crate::arming::Arming;
use crate::stop::Stop;
use op_outside::Disk;
use op_types::NoMemory;
use std::alloc::Global;

/// What the opening of an area gives, where there was memory.
#[derive(Drop)]
pub enum Opening<A, C> {
    /// The area.
    Opened(A),
    /// Its copies, where none of them could be opened.
    Failed(C),
}

/// An area of a node. While the node is down its bytes are held by closed copies.
pub trait Area: Disk {
    ghost use Rattle.op_areas.specs.Areas.{IsOpening};

    /// Whether it has two copies.
    const IS_MIRRORED: bool;

    /// What holds its bytes while its node is down.
    type Copies: Drop;

    ghost IS_MIRRORED: { Bool };

    /// What may be read of these copies once they are opened.
    ghost holds: { Self.Copies → List ℕ → Type 0 };

    /// Empty copies.
    fn empty(alloc: Global) -> Result<Self::Copies, NoMemory>
        ensures { IfOk result (λ copies. (x : List ℕ) → holds copies x → x ≡ []) };

    /// Opens an area.
    fn open(alloc: Global, copies: Self::Copies) -> Result<Opening<Self, Self::Copies>, NoMemory>
        ensures { IfOk result (IsOpening Self.state holds copies) };

    /// Closes an area, of which no call found no memory.
    fn close(self) -> Result<Self::Copies, NoMemory>
        ensures { IfOk result (HoldWhatIsLeft holds (Self.state self)) };

    /// What a stop leaves of closed copies.
    fn left(alloc: Global, copies: &Self::Copies, stop: Stop) -> Result<Self::Copies, NoMemory>
        ensures { IfOk result (HoldNoMore holds copies.now) };

    /// The same area, whose copies are armed so, and of which no call found no memory.
    fn armed(self, arming: Arming) -> Result<Self, NoMemory>
        ensures { IfOk result (λ area. BeginsAnew (Self.state self) (Self.state area)) };

    /// Arms closed copies, of which no call found no memory. They keep their calls.
    fn arm(copies: &mut Self::Copies, arming: Arming) -> Result<(), NoMemory>
        ensures { OnOk result (HoldNoMore holds copies.old copies.new) };

    /// How often an area had failed whose closed copies these are.
    fn faults_of(copies: &Self::Copies) -> u64;
}
