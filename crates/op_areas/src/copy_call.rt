ghost use Rattle.std.specs.Prelude.{◌≡◌};
ghost use Rattle.op_areas.specs.Calls.{first_call, second_call};

/// How far the call of one copy had come when the stop came.
#[derive(Clone, Copy, Debug, PartialEq, Eq)]
pub(crate) enum CopyCall {
    /// The stop came in it.
    Stopped,
    /// It was done.
    Done,
    /// It wasn't made.
    Missing,
}

impl CopyCall {
    /// Of the first copy, where the stop came in a call of this one: that copy is called first.
    fn of_first(copy: Option<u8>) -> CopyCall
        ensures { result ≡ first_call copy }
    {
        let Some(copy) = copy else {
            return CopyCall::Missing;
        };
        if copy == 0 {
            CopyCall::Stopped
        } else if copy == 1 {
            CopyCall::Done
        } else {
            CopyCall::Missing
        }
    }

    /// The same of the second copy.
    fn of_second(copy: Option<u8>) -> CopyCall
        ensures { result ≡ second_call copy }
    {
        if copy == Some(1) {
            CopyCall::Stopped
        } else {
            CopyCall::Missing
        }
    }
}

/// The same of both copies.
#[derive(Clone, Copy, Debug, PartialEq, Eq)]
pub(crate) struct CopyCalls {
    /// Of the first one.
    pub(crate) first: CopyCall,
    /// Of the second one.
    pub(crate) second: CopyCall,
}

impl CopyCalls {
    /// Where the stop came in a call of this copy, 0 or 1, or in none of theirs.
    pub(crate) fn of(copy: Option<u8>) -> CopyCalls
        ensures first { result.first ≡ first_call copy }
        ensures second { result.second ≡ second_call copy }
    {
        CopyCalls {
            first: CopyCall::of_first(copy),
            second: CopyCall::of_second(copy),
        }
    }
}
