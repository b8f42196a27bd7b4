//! A client's read.
ghost use Rattle.std.specs.Prelude.{map, IfOk};
ghost use Rattle.op_text.specs.Found.{IsFound};
ghost use Rattle.op_text.specs.Operations.{IsReadOf};

use op_text::{client_number, key};
use op_types::{NoMemory, Read};
use std::alloc::Global;

/// The read that words say: a client, the number of its read, and a key.
pub fn client_read(alloc: Global, words: &[&[u8]]) -> Result<Option<Read>, NoMemory>
    ensures { IfOk result (IsFound (IsReadOf (map (λ x. x.now) words.now))) }
{
    let [client, seq, key_word] = words else {
        return Ok(None);
    };
    let Some(client) = client_number(client) else {
        return Ok(None);
    };
    let Some(seq) = client_number(seq) else {
        return Ok(None);
    };
    let Some(key) = key(alloc, key_word)? else {
        return Ok(None);
    };
    Ok(Some(Read { client, seq, key }))
}
