//! Numbers, read from their decimal digits.
ghost use Rattle.std.specs.Prelude.{◌≡◌, ◌^◌, ◌<◌, decimal};
ghost use Rattle.op_types.specs.Ranges.{IsPid, IsNumber};
ghost use Rattle.op_text.specs.Found.{IsFound};
ghost use Rattle.op_text.specs.Digits.{IsValueOf};

use op_types::{GREATEST_NUMBER, GREATEST_PID, Pid};

/// How many digits there are: each counts so many times what the one after it does.
pub const BASE: u64 = 10;

/// The value of the digits that a word is.
fn value_of(word: &[u8]) -> Option<u64>
    ensures { IsFound (IsValueOf word.now) result }
{
    let mut value: u64 = 0;
    for byte in word {
        if !byte.is_ascii_digit() {
            return None;
        }
        value = value
            .checked_mul(BASE)?
            .checked_add(u64::from(*byte - b'0'))?;
    }
    Some(value)
}

/// The number that a word writes with no sign and no leading zero.
pub fn number(word: &[u8]) -> Option<u64>
    ensures { IsFound (λ n. (n < 2 ^ 64) × (word.now ≡ decimal n)) result }
{
    let (first, more) = word.split_first()?;
    if *first == b'0' && !more.is_empty() {
        return None;
    }
    value_of(word)
}

/// The server's id that a word writes.
#[tactic(auto, using(std::proofs::lemmas::Fmt::decimal_injective))]
pub fn pid(word: &[u8]) -> Option<Pid>
    ensures { IsFound (λ p. IsPid p × (word.now ≡ decimal p)) result }
{
    let n = number(word)?;
    if 1 <= n && n <= u64::from(GREATEST_PID) {
        Some(n as Pid)
    } else {
        None
    }
}

/// The client, or its command's number, that a word writes.
#[tactic(auto, using(std::proofs::lemmas::Fmt::decimal_injective))]
pub fn client_number(word: &[u8]) -> Option<u64>
    ensures { IsFound (λ n. IsNumber n × (word.now ≡ decimal n)) result }
{
    let n = number(word)?;
    if 1 <= n && n <= GREATEST_NUMBER {
        Some(n)
    } else {
        None
    }
}
