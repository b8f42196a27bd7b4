//! Short texts, written from the last piece to the first.
ghost use Rattle.std.specs.Prelude.{◌≡◌, ◌+◌, ◌≤◌, ◌++◌, [], decimal, length};
ghost use Rattle.op_text.specs.Answers.{outcome_text, refusal_text};

use crate::numbers::BASE;
use itoa::write_digits;
use op_types::{Outcome, Refusal};
use std::marker::Model;

/// How many bytes a row has room for.
pub const ROW_BYTES: usize = 96;

/// The most digits that a number has.
pub const MOST_DIGITS: usize = 20;

/// The most bytes that the text of a refusal has: a word of 7 letters, a space and a number.
const REFUSAL_BYTES: usize = MOST_DIGITS + 8;

/// The most bytes that the text of an outcome has: a word of 8 letters, and two numbers, each behind a space.
pub const OUTCOME_BYTES: usize = 2 * MOST_DIGITS + 10;

/// A short text, which each piece is put before: so a number's digits lie in their place at once.
#[derive(Drop)]
pub struct Row {
    bytes: [u8; ROW_BYTES],
    start: usize,
}

impl Model for Row {
    ghost use Rattle.std.specs.Prelude.{List, ℕ, ◌≤◌, drop};

    ghost Value = { List ℕ };

    ghost view = { λ r. drop r.start r.bytes };

    ghost invariant = { λ r. r.start ≤ 96 };
}

impl Row {
    /// No bytes.
    pub fn new() -> Self
        ensures { result ≡ [] }
    {
        Row {
            bytes: [0; ROW_BYTES],
            start: ROW_BYTES,
        }
    }

    /// Puts a number before the text, in decimal digits.
    pub fn number(&mut self, n: u64)
        requires { length self.old + MOST_DIGITS ≤ ROW_BYTES }
        ensures put { self.new ≡ decimal n ++ self.old }
        ensures longer { length self.new ≤ length self.old + MOST_DIGITS }
    {
        // Most numbers of a report have one digit.
        if n < BASE {
            self.start -= 1;
            self.bytes[self.start] = b'0' + n as u8;
            return;
        }
        self.start = write_digits(n, &mut self.bytes, self.start);
    }

    /// Puts a word before the text.
    #[inline(always)]
    pub fn word(&mut self, word: &[u8])
        requires { length self.old + length word.now ≤ ROW_BYTES }
        ensures put { self.new ≡ word.now ++ self.old }
        ensures longer { length self.new ≡ length self.old + length word.now }
    {
        let start = self.start - word.len();
        self.bytes[start..self.start].copy_from_slice(word);
        self.start = start;
    }

    /// Puts what a proposal was answered before the text.
    pub fn outcome(&mut self, outcome: &Outcome)
        requires { length self.old + OUTCOME_BYTES ≤ ROW_BYTES }
        ensures put { self.new ≡ outcome_text outcome.now ++ self.old }
        ensures longer { length self.new ≤ length self.old + OUTCOME_BYTES }
    {
        match outcome {
            Outcome::Appended(conf, pos) => {
                self.number(*pos);
                self.word(b" ");
                self.number(u64::from(*conf));
                self.word(b"appended ");
            }
            Outcome::Buffered => self.word(b"buffered"),
            Outcome::Forwarded(pid) => {
                self.number(u64::from(*pid));
                self.word(b"forwarded ");
            }
            Outcome::Asked => self.word(b"asked"),
            Outcome::NotLeading => self.word(b"notleading"),
            Outcome::Refused(cause) => {
                self.refusal(cause);
                self.word(b"refused ");
            }
        }
    }

    /// Puts why a proposal was refused before the text.
    fn refusal(&mut self, refusal: &Refusal)
        requires { length self.old + REFUSAL_BYTES ≤ ROW_BYTES }
        ensures put { self.new ≡ refusal_text refusal.now ++ self.old }
        ensures longer { length self.new ≤ length self.old + REFUSAL_BYTES }
    {
        match refusal {
            Refusal::StorageFailed { count } => {
                self.number(*count);
                self.word(b"storage ");
            }
            Refusal::PendingStop { pos } => {
                self.number(*pos);
                self.word(b"pending ");
            }
            Refusal::NoLeader => self.word(b"noleader"),
            Refusal::PositionsEnd => self.word(b"end"),
        }
    }

    /// The text.
    pub fn as_slice(&self) -> &[u8]
        ensures { result.now ≡ self.now }
    {
        &self.bytes[self.start..]
    }
}
