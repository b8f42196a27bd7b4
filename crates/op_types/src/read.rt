use crate::Blob;

/// A read of a key's value, which takes no entry of the log.
#[derive(Debug, PartialEq, Eq, Drop)]
pub struct Read {
    /// Who asks.
    pub client: u64,
    /// The client's number of it; commands have numbers of their own.
    pub seq: u64,
    /// What is read.
    pub key: Blob,
}
