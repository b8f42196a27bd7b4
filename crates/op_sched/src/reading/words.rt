//! The words of a line.
ghost use Rattle.std.specs.Prelude.{◌≡◌, ◌≤◌, length, map, take};
ghost use Rattle.op_sched.specs.Grammar.{words_of};

use op_types::MOST_WRITES;

/// How many words stand before the writes of a `many`: its name, a server, a client, and the number of its
/// command.
const WORDS_BEFORE_WRITES: usize = 4;

/// How many words a put has that stands among writes: its name, a key and a value.
const WORDS_OF_A_PUT: usize = 3;

/// How many words of a line are read: one more than the longest form has, which is a `many` of as many puts
/// as there may be. A line with as many is of no form, so its other words need no place.
pub const MOST_WORDS: usize = WORDS_BEFORE_WRITES + WORDS_OF_A_PUT * MOST_WRITES + 1;

/// Places for the first words of a line.
pub type Words<'a> = [&'a [u8]; MOST_WORDS];

/// Puts the first words of a line in the first places, and returns how many they are. What stands in the
/// other places stays.
pub fn split_words<'a>(words: &mut Words<'a>, line: &'a [u8]) -> usize
    ensures few { result ≤ MOST_WORDS }
    ensures within { result ≤ length words.new }
    ensures split { map (λ x. x.now) (take result words.new) ≡ take MOST_WORDS (words_of line.now) }
{
    let mut count = 0;
    let mut rest = line;
    while count < MOST_WORDS {
        let Some(end) = rest.iter().position(|b| *b == b' ') else {
            words[count] = rest;
            return count + 1;
        };
        words[count] = &rest[..end];
        rest = &rest[end + 1..];
        count += 1;
    }
    count
}
