/// What the program is given of its host, beside the disks.
#[derive(Drop)]
pub struct Host<N, C, S, K, P> {
    /// Sockets, for a node and for a call.
    pub net: N,
    /// The clock that a node ticks by.
    pub clock: C,
    /// Standard input: a schedule, or settings.
    pub input: S,
    /// Standard output.
    pub out: K,
    /// Standard error, which the status's line is told to.
    pub err: K,
    /// The child programs of a cluster.
    pub children: P,
}
