use op_types::{Outcome, Replies, Sends};

/// What a step gives out, once it is stored.
#[derive(Drop)]
pub struct Given {
    /// Messages, each to a node.
    pub sends: Sends,
    /// Answers, each to a client that waited here.
    pub replies: Replies,
    /// What a proposal is answered at once.
    pub outcome: Option<Outcome>,
}
