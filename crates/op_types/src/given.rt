use crate::{Outcome, Replies, Sends};

/// What a step of a node gives out, once it is stored.
#[derive(Drop)]
pub struct Given {
    /// Messages, each to a node.
    pub sends: Sends,
    /// Answers, each to a client that waited here.
    pub replies: Replies,
    /// Answers to reads, each to whoever asked it.
    pub read_replies: Replies,
    /// What a proposal, a wish to trim or a read is answered at once.
    pub outcome: Option<Outcome>,
}
