use op_memory::MemDisk;

/// The closed copies of a mirrored area.
#[derive(Drop)]
pub struct DiskPair {
    /// The first one.
    pub first: MemDisk,
    /// The second one.
    pub second: MemDisk,
}
