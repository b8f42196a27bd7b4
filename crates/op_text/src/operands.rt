//! A client's operations, read from the words of what they are done with.
ghost use Rattle.std.specs.Prelude.{◌∷◌, [], codes, IfOk};
ghost use Rattle.op_text.specs.Found.{IsFound};
ghost use Rattle.op_text.specs.Operations.{AreOperandsOf};

use crate::decoding::{key, value};
use crate::numbers::client_number;
use op_types::{NoMemory, Op};
use std::alloc::Global;

/// The `put` of the key and the value that these words encode.
pub fn put_operation(
    alloc: Global,
    key_word: &[u8],
    value_word: &[u8],
) -> Result<Option<Op>, NoMemory>
    ensures { IfOk result (IsFound (AreOperandsOf (codes "put") (key_word.now ∷ value_word.now ∷ []))) }
{
    let Some(key) = key(alloc, key_word)? else {
        return Ok(None);
    };
    let Some(value) = value(alloc, value_word)? else {
        return Ok(None);
    };
    Ok(Some(Op::Put(key, value)))
}

/// The `cas` of what these words encode: a key, the value that it is to have, and the one that it gets then.
pub fn cas_operation(
    alloc: Global,
    key_word: &[u8],
    old_word: &[u8],
    new_word: &[u8],
) -> Result<Option<Op>, NoMemory>
    ensures { IfOk result (IsFound (AreOperandsOf (codes "cas")
        (key_word.now ∷ old_word.now ∷ new_word.now ∷ []))) }
{
    let Some(key) = key(alloc, key_word)? else {
        return Ok(None);
    };
    let Some(old) = value(alloc, old_word)? else {
        return Ok(None);
    };
    let Some(new) = value(alloc, new_word)? else {
        return Ok(None);
    };
    Ok(Some(Op::Cas(key, old, new)))
}

/// The `forget` of the client that this word writes.
pub fn forget_operation(client_word: &[u8]) -> Option<Op>
    ensures { IsFound (AreOperandsOf (codes "forget") (client_word.now ∷ [])) result }
{
    Some(Op::Forget(client_number(client_word)?))
}
