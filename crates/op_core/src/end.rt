/// How inputs ended that were stored together.
#[derive(Clone, Copy)]
pub enum End {
    /// All of them were stored, or refused, or found what is stored to be damaged.
    Settled,
    /// A disk failed.
    Broke,
    /// The last of them found no memory.
    Lost,
}
