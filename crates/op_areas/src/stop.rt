/// A stop, and what it leaves of an area's copies.
#[derive(Clone, Copy, Debug, PartialEq, Eq)]
pub struct Stop {
    /// Which image it leaves.
    pub image: u8,
    /// The copy in whose call it came, 0 or 1, if it came in one of this area.
    pub copy: Option<u8>,
    /// How often the area had failed before: it counts on from there.
    pub faults: u64,
}
