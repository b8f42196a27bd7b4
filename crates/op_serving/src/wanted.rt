use crate::keys::{Key, Keys};
use op_outside::Conn;

/// What clients ask a node to do.
#[derive(Drop)]
pub enum Wanted {
    /// These commands, each asked for at its connection. Each waits for its answer, or is refused at once.
    Commands(Keys),
    /// The end of the configuration. What becomes of it is told at once, at this connection.
    Stop(Conn),
    /// Trimming. What becomes of it is told at once at this connection, but for its loss.
    Trim(Conn),
    /// A read, by its client and its number. It waits for its answer at this connection, or is refused at
    /// once.
    Read(Conn, Key),
}
