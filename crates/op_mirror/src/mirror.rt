ghost use Rattle.op_mirror.specs.Copies.{AreAlike};
ghost use Rattle.op_mirror.specs.Marks.{AreMarked};

use crate::gone::Gone;
use op_outside::Disk;

/// Two copies. A call that changes them is made on both; a copy in which a call failed is called no more.
#[derive(Drop)]
pub struct Mirror<D: Disk> {
    pub(crate) first: D,
    pub(crate) second: D,
    /// The copy that failed first.
    pub(crate) gone: Gone,
    /// Both have failed.
    pub(crate) is_dead: bool,
    /// How often a call found no copy, or lost the last one.
    pub(crate) faults: u64,
    /// How many calls were made of it.
    pub(crate) calls: u64,
    /// How often the copies had failed when the mirror was made.
    pub(crate) first_mark: u64,
    pub(crate) second_mark: u64,
    ghost alike: { AreAlike gone (D.state first) (D.state second) },
    ghost marked: { AreMarked gone is_dead faults
        first_mark (D.state first).faults second_mark (D.state second).faults },
}
