/// Whether the area in use stays within its bound, once changes were stored.
#[derive(Clone, Copy, PartialEq, Eq)]
pub enum Bound {
    /// It does: where a checkpoint was due, it was made.
    Kept,
    /// A checkpoint is due, and there was no memory for it.
    Passed,
}
