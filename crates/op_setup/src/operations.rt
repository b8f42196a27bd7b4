//! A client's operations. Each reads the words after its command's number, and takes memory only where they
//! are its own.
ghost use Rattle.std.specs.Prelude.{map, codes, string_bytes, IfOk, IfErr};
ghost use Rattle.op_text.specs.Found.{IsFound};
ghost use Rattle.op_text.specs.Operations.{AreKeyOnly, AreOperands, AreOperandsOf};
ghost use Rattle.op_setup.specs.Requests.{AreSomeKeyOnly};

use crate::arguments::bytes;
use op_text::{
    cas_operation, forget_operation, is_key, is_value, key, many_operation, put_operation,
};
use op_types::{Blob, NoMemory, Op};
use std::alloc::Global;

/// The one key that words encode.
pub fn one_key(alloc: Global, words: &[String]) -> Result<Option<Blob>, NoMemory>
    ensures found { IfOk result (IsFound (AreKeyOnly (map string_bytes words.now))) }
    ensures memory { IfErr result (λ _. AreSomeKeyOnly (map string_bytes words.now)) }
{
    let [word] = words else {
        return Ok(None);
    };
    let word = bytes(word);
    if !is_key(word) {
        return Ok(None);
    }
    key(alloc, word)
}

/// `put`: a key and a value.
fn put(alloc: Global, words: &[String]) -> Result<Option<Op>, NoMemory>
    ensures found { IfOk result (IsFound (AreOperandsOf (codes "put") (map string_bytes words.now))) }
    ensures memory { IfErr result (λ _. AreOperands (codes "put") (map string_bytes words.now)) }
{
    let [key_word, value_word] = words else {
        return Ok(None);
    };
    let (key_word, value_word) = (bytes(key_word), bytes(value_word));
    if !is_key(key_word) || !is_value(value_word) {
        return Ok(None);
    }
    put_operation(alloc, key_word, value_word)
}

/// `del`: a key.
fn del(alloc: Global, words: &[String]) -> Result<Option<Op>, NoMemory>
    ensures found { IfOk result (IsFound (AreOperandsOf (codes "del") (map string_bytes words.now))) }
    ensures memory { IfErr result (λ _. AreOperands (codes "del") (map string_bytes words.now)) }
{
    match one_key(alloc, words)? {
        Some(key) => Ok(Some(Op::Del(key))),
        None => Ok(None),
    }
}

/// `get`: a key.
fn get(alloc: Global, words: &[String]) -> Result<Option<Op>, NoMemory>
    ensures found { IfOk result (IsFound (AreOperandsOf (codes "get") (map string_bytes words.now))) }
    ensures memory { IfErr result (λ _. AreOperands (codes "get") (map string_bytes words.now)) }
{
    match one_key(alloc, words)? {
        Some(key) => Ok(Some(Op::Get(key))),
        None => Ok(None),
    }
}

/// `cas`: a key, the value that it is to have, and the one that it gets then.
fn cas(alloc: Global, words: &[String]) -> Result<Option<Op>, NoMemory>
    ensures found { IfOk result (IsFound (AreOperandsOf (codes "cas") (map string_bytes words.now))) }
    ensures memory { IfErr result (λ _. AreOperands (codes "cas") (map string_bytes words.now)) }
{
    let [key_word, old_word, new_word] = words else {
        return Ok(None);
    };
    let (key_word, old_word, new_word) = (bytes(key_word), bytes(old_word), bytes(new_word));
    if !is_key(key_word) || !is_value(old_word) || !is_value(new_word) {
        return Ok(None);
    }
    cas_operation(alloc, key_word, old_word, new_word)
}

/// `forget`: the client that is forgotten.
fn forget(words: &[String]) -> Option<Op>
    ensures { IsFound (AreOperandsOf (codes "forget") (map string_bytes words.now)) result }
{
    match words {
        [client] => forget_operation(bytes(client)),
        _ => None,
    }
}

/// The operation of this name that words say.
pub fn operation(alloc: Global, name: &str, words: &[String]) -> Result<Option<Op>, NoMemory>
    ensures found { IfOk result (IsFound (AreOperandsOf name.now (map string_bytes words.now))) }
    ensures memory { IfErr result (λ _. AreOperands name.now (map string_bytes words.now)) }
{
    match name {
        "put" => put(alloc, words),
        "del" => del(alloc, words),
        "get" => get(alloc, words),
        "cas" => cas(alloc, words),
        "many" => many_operation(alloc, words),
        "forget" => Ok(forget(words)),
        _ => Ok(None),
    }
}
