//! The request that words ask for.
ghost use Rattle.std.specs.Prelude.{◌∷◌, map, codes, string_bytes, IfOk, IfErr};
ghost use Rattle.op_text.specs.Found.{IsFound};
ghost use Rattle.op_text.specs.Operations.{IsReadOf};
ghost use Rattle.op_setup.specs.Requests.{IsCommand, IsCommandOf, IsRead};
ghost use Rattle.op_setup.specs.Tasks.{IsRequest, IsRequestOf};

use crate::arguments::bytes;
use crate::member_ids::members;
use crate::operations::{one_key, operation};
use op_text::client_number;
use op_types::{Command, NoMemory, Read, Request, Shared};
use std::alloc::Global;

/// The command of an operation of this name: a client, the number of its command, and the operation's own
/// words.
fn command(alloc: Global, name: &str, words: &[String]) -> Result<Option<Command>, NoMemory>
    ensures found { IfOk result (IsFound (IsCommandOf (name.now ∷ map string_bytes words.now))) }
    ensures memory { IfErr result (λ _. IsCommand (name.now ∷ map string_bytes words.now)) }
{
    let [client, seq, words @ ..] = words else {
        return Ok(None);
    };
    let Some(client) = client_number(bytes(client)) else {
        return Ok(None);
    };
    let Some(seq) = client_number(bytes(seq)) else {
        return Ok(None);
    };
    let Some(op) = operation(alloc, name, words)? else {
        return Ok(None);
    };
    Ok(Some(Command { client, seq, op }))
}

/// A client's read: a client, the number of its read, and a key.
fn read(alloc: Global, words: &[String]) -> Result<Option<Read>, NoMemory>
    ensures found { IfOk result (IsFound (IsReadOf (map string_bytes words.now))) }
    ensures memory { IfErr result (λ _. IsRead (map string_bytes words.now)) }
{
    let [client, seq, words @ ..] = words else {
        return Ok(None);
    };
    let Some(client) = client_number(bytes(client)) else {
        return Ok(None);
    };
    let Some(seq) = client_number(bytes(seq)) else {
        return Ok(None);
    };
    let Some(key) = one_key(alloc, words)? else {
        return Ok(None);
    };
    Ok(Some(Read { client, seq, key }))
}

/// `stop`: the members of the next configuration.
fn stop(alloc: Global, words: &[String]) -> Result<Option<Request>, NoMemory>
    ensures found { IfOk result (IsFound (IsRequestOf (codes "stop" ∷ map string_bytes words.now))) }
    ensures memory { IfErr result (λ _. IsRequest (codes "stop" ∷ map string_bytes words.now)) }
{
    match members(words)? {
        Some(members) => Ok(Some(Request::Stop(Shared::new(alloc, members)?))),
        None => Ok(None),
    }
}

/// The request that words ask for. Memory is taken only for words that are a request's.
pub fn request(alloc: Global, words: &[String]) -> Result<Option<Request>, NoMemory>
    ensures found { IfOk result (IsFound (IsRequestOf (map string_bytes words.now))) }
    ensures memory { IfErr result (λ _. IsRequest (map string_bytes words.now)) }
{
    let Some((name, words)) = words.split_first() else {
        return Ok(None);
    };
    match name.as_str() {
        "stop" => stop(alloc, words),
        "read" => match read(alloc, words)? {
            Some(read) => Ok(Some(Request::Read(read))),
            None => Ok(None),
        },
        "trim" if words.is_empty() => Ok(Some(Request::Trim)),
        "status" if words.is_empty() => Ok(Some(Request::Status)),
        "end" if words.is_empty() => Ok(Some(Request::End)),
        name => match command(alloc, name, words)? {
            Some(command) => Ok(Some(Request::Command(command))),
            None => Ok(None),
        },
    }
}
