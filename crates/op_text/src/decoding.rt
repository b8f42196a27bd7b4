//! Keys and values, read from their percent encoding.
ghost use Rattle.std.specs.Prelude.{◌≡◌, ◌≤◌, ◌<◌, ◌↔◌, ℕ, List, true, length, IfOk, IfSome, IfNone, IsTrue};
ghost use Rattle.std.specs.Fmt.{digit_glyph};
ghost use Rattle.op_types.specs.Ranges.{IsKey, IsValue};
ghost use Rattle.op_text.specs.Found.{IsFound};
ghost use Rattle.op_text.specs.Percent.{AreEncoded, BeginsEncoded, BeginsEscaped, CountsEncoded, EncodesCount, IsEncoded, IsEncodedWithin};

use crate::percent::{all_plain, is_plain};
use op_types::{Blob, MOST_KEY_BYTES, MOST_VALUE_BYTES, NoMemory};
use std::alloc::Global;

/// How many letters a byte's escape has.
const ESCAPE_LETTERS: usize = 3;

/// The value of an upper-case hexadecimal digit.
fn digit(glyph: u8) -> Option<u8>
    ensures { IsFound (λ d. (d < 16) × (glyph ≡ digit_glyph true d)) result }
{
    match glyph {
        b'0'..=b'9' => Some(glyph - b'0'),
        b'A'..=b'F' => Some(glyph - b'A' + 10),
        _ => None,
    }
}

/// The byte whose escape begins a word, and the word after it.
fn escaped_byte(word: &[u8]) -> Option<(u8, &[u8])>
    ensures found { IfSome result (λ x. BeginsEscaped word.now x.0 x.1.now) }
    ensures none { IfNone result ((b : ℕ) (more : List ℕ) → BeginsEscaped word.now b more → ⊥) }
{
    let [b'%', high, low, after @ ..] = word else {
        return None;
    };
    let byte = digit(*high)? * 16 + digit(*low)?;
    if is_plain(byte) {
        return None;
    }
    Some((byte, after))
}

/// The byte whose encoding begins a word, and the word after it.
fn first_byte(word: &[u8]) -> Option<(u8, &[u8])>
    ensures found { IfSome result (λ x. BeginsEncoded word.now x.0 x.1.now) }
    ensures shorter { IfSome result (λ x. length x.1.now < length word.now) }
    ensures none { IfNone result ((b : ℕ) (more : List ℕ) → BeginsEncoded word.now b more → ⊥) }
{
    let (first, after) = word.split_first()?;
    if is_plain(*first) {
        return Some((*first, after));
    }
    escaped_byte(word)
}

/// The bytes whose encodings a word is, one after the other.
fn all_bytes(alloc: Global, word: &[u8]) -> Result<Option<Blob>, NoMemory>
    ensures { IfOk result (IsFound (AreEncoded word.now)) }
{
    if all_plain(word) {
        return Ok(Some(Blob::from_slice(alloc, word)?));
    }
    let mut bytes = Vec::with_capacity(alloc, word.len())?;
    let mut rest = word;
    while !rest.is_empty() {
        let Some((byte, after)) = first_byte(rest) else {
            return Ok(None);
        };
        bytes.push(byte)?;
        rest = after;
    }
    Ok(Some(Blob::from_vec(bytes)?))
}

/// The bytes that a key's or a value's word encodes, however many they are; `None` where the word is no
/// encoding.
pub fn bytes_of(alloc: Global, word: &str) -> Result<Option<Blob>, NoMemory>
    ensures { IfOk result (IsFound (IsEncoded word.now)) }
{
    decode_percent(alloc, word.as_bytes())
}

/// As `bytes_of`, of a word that need not be text.
fn decode_percent(alloc: Global, word: &[u8]) -> Result<Option<Blob>, NoMemory>
    ensures { IfOk result (IsFound (IsEncoded word.now)) }
{
    match word {
        [] => Ok(None),
        [b'%'] => Ok(Some(Blob::from_vec(Vec::new(alloc))?)),
        _ => all_bytes(alloc, word),
    }
}

/// The bytes that a word encodes, if there are from `least` to `most`. A word that is too long for them takes
/// no memory.
fn bytes_within(
    alloc: Global,
    word: &[u8],
    least: usize,
    most: usize,
) -> Result<Option<Blob>, NoMemory>
    requires { 1 ≤ most }
    ensures { IfOk result (IsFound (IsEncodedWithin least most word.now)) }
{
    // Most words have no escapes, and so are their own bytes.
    if !word.is_empty() && least <= word.len() && word.len() <= most && all_plain(word) {
        return Ok(Some(Blob::from_slice(alloc, word)?));
    }
    decoded_within(alloc, word, least, most)
}

/// The bytes that a word encodes, with or without escapes, if there are from `least` to `most`. A word that
/// is too long for them takes no memory.
#[inline(never)]
fn decoded_within(
    alloc: Global,
    word: &[u8],
    least: usize,
    most: usize,
) -> Result<Option<Blob>, NoMemory>
    requires { 1 ≤ most }
    ensures { IfOk result (IsFound (IsEncodedWithin least most word.now)) }
{
    // No bytes are encoded with one letter.
    if most < word.len() / ESCAPE_LETTERS {
        return Ok(None);
    }
    let Some(blob) = decode_percent(alloc, word)? else {
        return Ok(None);
    };
    let count = blob.as_slice().len();
    if least <= count && count <= most {
        Ok(Some(blob))
    } else {
        Ok(None)
    }
}

/// How many bytes' encodings a word is, one after the other. No memory is taken.
fn count_of(word: &[u8]) -> Option<usize>
    ensures { IsFound (CountsEncoded word.now) result }
{
    let mut count = 0;
    let mut rest = word;
    while !rest.is_empty() {
        let Some((_, after)) = first_byte(rest) else {
            return None;
        };
        count += 1;
        rest = after;
    }
    Some(count)
}

/// How many bytes a word encodes. No memory is taken.
fn decoded_len(word: &[u8]) -> Option<usize>
    ensures { IsFound (EncodesCount word.now) result }
{
    if word == b"%".as_slice() {
        return Some(0);
    }
    if word.is_empty() {
        return None;
    }
    count_of(word)
}

/// Whether a word encodes from `least` to `most` bytes. No memory is taken.
fn is_within(word: &[u8], least: usize, most: usize) -> bool
    ensures { IsTrue result ↔ ((bytes : List ℕ) × IsEncodedWithin least most word.now bytes) }
{
    match decoded_len(word) {
        Some(count) => least <= count && count <= most,
        None => false,
    }
}

/// Whether a word encodes a key. No memory is taken.
pub fn is_key(word: &[u8]) -> bool
    ensures { IsTrue result ↔ ((key : List ℕ) × IsKey key × IsEncoded word.now key) }
{
    is_within(word, 1, MOST_KEY_BYTES)
}

/// Whether a word encodes a value. No memory is taken.
pub fn is_value(word: &[u8]) -> bool
    ensures { IsTrue result ↔ ((value : List ℕ) × IsValue value × IsEncoded word.now value) }
{
    is_within(word, 0, MOST_VALUE_BYTES)
}

/// The key that a word encodes.
pub fn key(alloc: Global, word: &[u8]) -> Result<Option<Blob>, NoMemory>
    ensures { IfOk result (IsFound (λ key. IsKey key × IsEncoded word.now key)) }
{
    bytes_within(alloc, word, 1, MOST_KEY_BYTES)
}

/// The value that a word encodes.
pub fn value(alloc: Global, word: &[u8]) -> Result<Option<Blob>, NoMemory>
    ensures { IfOk result (IsFound (λ value. IsValue value × IsEncoded word.now value)) }
{
    bytes_within(alloc, word, 0, MOST_VALUE_BYTES)
}
