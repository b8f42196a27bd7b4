/// What becomes of a call.
#[derive(Clone, Copy, PartialEq, Eq, Debug)]
pub enum CallFate {
    /// It is made.
    Runs,
    /// It fails, and changes nothing.
    Fails,
    /// The disk stops in it: it fails, a write or a cut is then pending, and each later call fails.
    Stops,
}
