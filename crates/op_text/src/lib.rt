//! Numbers, keys and values as words, and answers, ballots and nodes as text.
#![tactic(auto)]

mod answers;
mod ballot;
mod decoding;
mod laws;
mod nodes;
mod numbers;
mod operands;
mod percent;
mod pieces;
mod put;
mod row;
mod words;
mod writes;

pub use answers::{put_answer, put_cause, put_outcome};
pub use ballot::put_ballot;
pub use decoding::{bytes_of, is_key, is_value, key, value};
pub use laws::encoding_is_unambiguous;
pub use numbers::{client_number, number, pid};
pub use operands::{cas_operation, forget_operation, put_operation};
pub use percent::put_encoded;
pub use pieces::{answer_text, node_line, outcome_text};
pub use put::{put_named, put_number, put_spaced};
pub use row::{MOST_DIGITS, OUTCOME_BYTES, ROW_BYTES, Row};
pub use words::is_name;
pub use writes::many_operation;
