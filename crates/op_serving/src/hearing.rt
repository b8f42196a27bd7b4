use op_types::{Msg, Pid, Request};

/// What the body of a frame says to this node.
#[derive(Drop)]
pub enum Heard {
    /// A message from its peer.
    Message(Pid, Msg),
    /// A message that is not from its peer, or not to this node.
    Foreign,
    /// No message.
    Noise,
    /// A client's request.
    Asks(Request),
    /// No request: it is bad at this byte offset.
    Mistake(u64),
}
