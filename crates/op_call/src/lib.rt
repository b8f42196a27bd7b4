//! The command `call`: a node is asked, and its reply is written as a line.
#![tactic(auto)]

mod calling;
mod lines;

pub use calling::call_node;
pub use lines::reply_line;
