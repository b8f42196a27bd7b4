//! A client's writes, read from the words of these. A word is whatever lends its bytes.
ghost use Rattle.std.specs.Prelude.{◌≡◌, ◌<◌, ◌∷◌, ◌++◌, ◌↔◌, [], codes, length, map, IfOk, IfErr, IfSome, IfNone, IsTrue};
ghost use Rattle.op_text.specs.Found.{IsFound};
ghost use Rattle.op_text.specs.Operations.{AreOperands, AreOperandsOf, IsWriteOf};
ghost use Rattle.op_text.specs.Writes.{BeginWithWrite, IsSomeWrite, words_of};

use crate::decoding::{is_key, is_value, key, value};
use crate::words::is_name;
use op_types::{MOST_WRITES, NoMemory, Op, Write, Writes};
use std::alloc::Global;
use std::convert::AsSlice;

/// What stands behind a write's name.
#[derive(Clone, Copy)]
enum WriteWords<'a> {
    /// `put`: a key and a value.
    Put(&'a [u8], &'a [u8]),
    /// `del`: a key.
    Del(&'a [u8]),
}

/// A write's name and as many words as stand behind it, which begin these words, and the words behind them.
fn first_words<W: AsSlice<u8>>(words: &[W]) -> Option<(WriteWords<'_>, &[W])>
    ensures found { IfSome result (λ x. map W.items words.now ≡ words_of x.0 ++ map W.items x.1.now) }
    ensures shorter { IfSome result (λ x. length x.1.now < length words.now) }
    ensures none { IfNone result (BeginWithWrite (map W.items words.now) → ⊥) }
{
    let (name, words) = words.split_first()?;
    if is_name(name.as_slice(), b"put") {
        return put_words(words);
    }
    if is_name(name.as_slice(), b"del") {
        return del_words(words);
    }
    None
}

/// The key and the value that begin the words behind a put's name, and the words behind them.
fn put_words<W: AsSlice<u8>>(words: &[W]) -> Option<(WriteWords<'_>, &[W])>
    ensures found { IfSome result (λ x.
        codes "put" ∷ map W.items words.now ≡ words_of x.0 ++ map W.items x.1.now) }
    ensures shorter { IfSome result (λ x. length x.1.now < length words.now) }
    ensures none { IfNone result (length words.now < 2) }
{
    let (key, words) = words.split_first()?;
    let (value, words) = words.split_first()?;
    Some((WriteWords::Put(key.as_slice(), value.as_slice()), words))
}

/// The key that begins the words behind a del's name, and the words behind it.
fn del_words<W: AsSlice<u8>>(words: &[W]) -> Option<(WriteWords<'_>, &[W])>
    ensures found { IfSome result (λ x.
        codes "del" ∷ map W.items words.now ≡ words_of x.0 ++ map W.items x.1.now) }
    ensures shorter { IfSome result (λ x. length x.1.now < length words.now) }
    ensures none { IfNone result (length words.now < 1) }
{
    let (key, words) = words.split_first()?;
    Some((WriteWords::Del(key.as_slice()), words))
}

/// Whether these are a write's. No memory is taken.
fn is_write(words: WriteWords<'_>) -> bool
    ensures { IsTrue result ↔ IsSomeWrite (words_of words.entry) }
{
    match words {
        WriteWords::Put(key, value) => {
            if !is_key(key) {
                return false;
            }
            is_value(value)
        }
        WriteWords::Del(key) => is_key(key),
    }
}

/// The write that these are.
fn write_of(alloc: Global, words: WriteWords<'_>) -> Result<Option<Write>, NoMemory>
    ensures { IfOk result (IsFound (IsWriteOf (words_of words.entry))) }
{
    match words {
        WriteWords::Put(key, value) => put_write(alloc, key, value),
        WriteWords::Del(key) => del_write(alloc, key),
    }
}

/// The put of the key and the value that these words encode.
fn put_write(alloc: Global, key_word: &[u8], value_word: &[u8]) -> Result<Option<Write>, NoMemory>
    ensures { IfOk result (IsFound (IsWriteOf (codes "put" ∷ key_word.now ∷ value_word.now ∷ []))) }
{
    let Some(key) = key(alloc, key_word)? else {
        return Ok(None);
    };
    let Some(value) = value(alloc, value_word)? else {
        return Ok(None);
    };
    Ok(Some(Write::Put(key, value)))
}

/// The del of the key that this word encodes.
fn del_write(alloc: Global, key_word: &[u8]) -> Result<Option<Write>, NoMemory>
    ensures { IfOk result (IsFound (IsWriteOf (codes "del" ∷ key_word.now ∷ []))) }
{
    match key(alloc, key_word)? {
        Some(key) => Ok(Some(Write::Del(key))),
        None => Ok(None),
    }
}

/// Whether words are those of a `many`: its writes, one after the other. No memory is taken.
fn are_writes<W: AsSlice<u8>>(words: &[W]) -> bool
    ensures { IsTrue result ↔ AreOperands (codes "many") (map W.items words.now) }
{
    let mut count = 0;
    let mut rest = words;
    while let Some((first, after)) = first_words(rest) {
        if count == MOST_WRITES {
            return false;
        }
        if !is_write(first) {
            return false;
        }
        count += 1;
        rest = after;
    }
    if !rest.is_empty() {
        return false;
    }
    0 < count
}

/// The `many` of the writes that these words are, one after the other. Memory is taken only for words that
/// are such.
pub fn many_operation<W: AsSlice<u8>>(alloc: Global, words: &[W]) -> Result<Option<Op>, NoMemory>
    ensures found { IfOk result (IsFound (AreOperandsOf (codes "many") (map W.items words.now))) }
    ensures memory { IfErr result (λ _. AreOperands (codes "many") (map W.items words.now)) }
{
    if !are_writes(words) {
        return Ok(None);
    }
    let mut writes = Vec::new(alloc);
    let mut rest = words;
    while let Some((first, after)) = first_words(rest) {
        let Some(write) = write_of(alloc, first)? else {
            return Ok(None);
        };
        writes.push(write)?;
        rest = after;
    }
    Ok(Some(Op::Many(Writes::from_vec(alloc, writes)?)))
}
