use op_memory::Power;

/// A call of one of an area's copies, from now on.
#[derive(Clone, Copy, Debug, PartialEq, Eq)]
pub struct CallAt {
    /// The copy: 0, or 1 for the second one.
    pub copy: u8,
    /// The number of the call, from 1.
    pub call: u8,
}

/// What is done to the copies of an area. Nothing changes of what they hold.
#[derive(Drop)]
pub enum Arming {
    /// Nothing.
    Nothing,
    /// They share this power switch, and one of them, if one is named, stops in this call.
    Stop { power: Power, at: Option<CallAt> },
    /// This call fails.
    Fail { at: CallAt },
    /// No call is to stop or to fail any more, and no switch is shared. A copy that was killed stays so.
    Clear,
    /// Each call of this copy fails from now on.
    Kill { copy: u8 },
    /// They no longer keep the calls up to their last sync.
    Forget,
}
