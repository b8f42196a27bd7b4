use crate::{Ballot, Blob, Entries};

/// A part of a promise whose entries are too long for one message: what the promise tells but its entries,
/// and a run of them.
#[derive(Drop)]
pub struct PromisedRun {
    /// The round in which the sender accepted its log.
    pub accepted: Ballot,
    /// The log's length, trimmed entries too.
    pub len: u64,
    /// How many entries the sender has decided.
    pub decided: u64,
    /// Where the promise's entries begin.
    pub start: u64,
    /// Where this run begins.
    pub at: u64,
    /// The run.
    pub run: Entries,
}

/// A part of an accept sync whose entries are too long for one message: from where to where its entries go,
/// and a run of them.
#[derive(Drop)]
pub struct SyncRun {
    /// Where the accept sync's entries begin.
    pub start: u64,
    /// Where they end.
    pub end: u64,
    /// Where this run begins.
    pub at: u64,
    /// The run.
    pub run: Entries,
}

/// A piece of a base that is too long for one message.
#[derive(Drop)]
pub struct Piece {
    /// The position of the closed list at which the base stands.
    pub at: u64,
    /// How many bytes the base has.
    pub total: u64,
    /// The place of the piece's first byte among them.
    pub from: u64,
    /// The piece.
    pub bytes: Blob,
}
