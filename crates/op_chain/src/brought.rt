use op_kv::Map;
use op_types::{Batch, Input};

/// What an input brings of a closed list.
#[derive(Drop)]
pub(crate) enum Brought {
    /// The changes by which the node holds it, and the service after the closed list, if the node has all of
    /// it then.
    Changes(Batch, Option<Map>),
    /// Nothing that the node takes: this is the input.
    Nothing(Input),
}
