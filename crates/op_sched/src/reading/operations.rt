//! A client's operations. Each reads the words after its command's number.
ghost use Rattle.std.specs.Prelude.{◌≡◌, map, codes, IfOk};
ghost use Rattle.op_text.specs.Found.{IsFound};
ghost use Rattle.op_sched.specs.Forms.{op_form_name};
ghost use Rattle.op_text.specs.Operations.{AreKeyOnly, AreOperandsOf};

use op_text::{cas_operation, forget_operation, is_name, key, many_operation, put_operation};
use op_types::{Blob, NoMemory, Op};
use std::alloc::Global;

/// The forms of a client's operation, each with a name of its own.
#[derive(Clone, Copy)]
pub enum OpForm {
    /// `put`
    Put,
    /// `del`
    Del,
    /// `get`
    Get,
    /// `cas`
    Cas,
    /// `many`
    Many,
    /// `forget`
    Forget,
}

/// The form of operation that a word names.
pub fn op_form_of(word: &[u8]) -> Option<OpForm>
    ensures { IsFound (λ form. word.now ≡ op_form_name form) result }
{
    if is_name(word, b"put") {
        Some(OpForm::Put)
    } else if is_name(word, b"del") {
        Some(OpForm::Del)
    } else if is_name(word, b"get") {
        Some(OpForm::Get)
    } else if is_name(word, b"cas") {
        Some(OpForm::Cas)
    } else if is_name(word, b"many") {
        Some(OpForm::Many)
    } else if is_name(word, b"forget") {
        Some(OpForm::Forget)
    } else {
        None
    }
}

/// The one key that words encode.
fn one_key(alloc: Global, words: &[&[u8]]) -> Result<Option<Blob>, NoMemory>
    ensures { IfOk result (IsFound (AreKeyOnly (map (λ x. x.now) words.now))) }
{
    match words {
        [word] => key(alloc, word),
        _ => Ok(None),
    }
}

/// `put`: a key and a value.
fn put(alloc: Global, words: &[&[u8]]) -> Result<Option<Op>, NoMemory>
    ensures { IfOk result (IsFound (AreOperandsOf (codes "put") (map (λ x. x.now) words.now))) }
{
    match words {
        [key, value] => put_operation(alloc, key, value),
        _ => Ok(None),
    }
}

/// `del`: a key.
fn del(alloc: Global, words: &[&[u8]]) -> Result<Option<Op>, NoMemory>
    ensures { IfOk result (IsFound (AreOperandsOf (codes "del") (map (λ x. x.now) words.now))) }
{
    match one_key(alloc, words)? {
        Some(key) => Ok(Some(Op::Del(key))),
        None => Ok(None),
    }
}

/// `get`: a key.
fn get(alloc: Global, words: &[&[u8]]) -> Result<Option<Op>, NoMemory>
    ensures { IfOk result (IsFound (AreOperandsOf (codes "get") (map (λ x. x.now) words.now))) }
{
    match one_key(alloc, words)? {
        Some(key) => Ok(Some(Op::Get(key))),
        None => Ok(None),
    }
}

/// `cas`: a key, the value that it is to have, and the one that it gets then.
fn cas(alloc: Global, words: &[&[u8]]) -> Result<Option<Op>, NoMemory>
    ensures { IfOk result (IsFound (AreOperandsOf (codes "cas") (map (λ x. x.now) words.now))) }
{
    match words {
        [key, old, new] => cas_operation(alloc, key, old, new),
        _ => Ok(None),
    }
}

/// `forget`: the client that is forgotten.
fn forget(words: &[&[u8]]) -> Option<Op>
    ensures { IsFound (AreOperandsOf (codes "forget") (map (λ x. x.now) words.now)) result }
{
    match words {
        [client] => forget_operation(client),
        _ => None,
    }
}

/// The operation of this form that words say.
pub fn operation(alloc: Global, form: OpForm, words: &[&[u8]]) -> Result<Option<Op>, NoMemory>
    ensures { IfOk result (IsFound (AreOperandsOf (op_form_name form) (map (λ x. x.now) words.now))) }
{
    match form {
        OpForm::Put => put(alloc, words),
        OpForm::Del => del(alloc, words),
        OpForm::Get => get(alloc, words),
        OpForm::Cas => cas(alloc, words),
        OpForm::Many => many_operation(alloc, words),
        OpForm::Forget => Ok(forget(words)),
    }
}
