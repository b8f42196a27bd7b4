//! A node that joins: what it asks for, what it holds of what comes, and whether it has the whole closed
//! list; and bases in pieces.
#![tactic(auto)]

mod asking;
mod covering;
mod fail;
mod holding;
mod pieces;
mod staging;

pub use asking::plan;
pub use covering::whole;
pub use fail::WholeFail;
pub use holding::{take_base, take_entries};
pub use pieces::{piece_count, piece_of};
pub use staging::{add_piece, completed, fresh_pieces, stage_piece, whole_with};
