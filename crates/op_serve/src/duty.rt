use op_setup::Settings;
use op_types::Pid;

/// Who serves, and how.
#[derive(Clone, Copy)]
pub(crate) struct Duty<'a> {
    /// The server's id.
    pub id: Pid,
    /// The settings of its node.
    pub settings: &'a Settings,
    /// Where its folder is to be told that the node has begun, as a byte offset, if it is.
    pub begins_at: Option<u64>,
}
