use op_types::{Part, Pid};
use std::alloc::Global;

/// A node at its part: what each of its steps there reads, and none changes.
#[derive(Clone, Copy)]
pub struct Member<'a> {
    /// Where steps take memory.
    pub alloc: Global,
    /// The node's id.
    pub me: Pid,
    /// What it stores of its configuration.
    pub part: &'a Part,
}
