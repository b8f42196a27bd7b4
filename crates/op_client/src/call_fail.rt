use op_types::NoMemory;

/// Why a call has no reply.
#[derive(Clone, Copy, Debug, PartialEq, Eq)]
pub enum CallFail {
    /// The dial gave no connection, the connection ended, or the first frame was too long or no reply.
    NoReply,
    /// All waits were taken, and no whole frame had come.
    TurnsOver,
    /// A call of the net failed.
    NetFault,
    /// No memory was found for the request, or for what was read.
    NoMemory,
}

impl From<NoMemory> for CallFail {
    ghost use Rattle.std.specs.Prelude.{◌≡◌};
    ghost use Rattle.op_client.specs.declared.call_fail.CallFail.TheVariants as fail;

    ghost from_gives = { λ _ e. e ≡ fail.NoMemory };

    fn from(_e: NoMemory) -> CallFail {
        CallFail::NoMemory
    }
}
