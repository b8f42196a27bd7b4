//! The bytes of a base, from what a map keeps and what stands over it.
ghost use Rattle.std.specs.Prelude.{◌≡◌, ◌++◌, OnOk, length, map};
ghost use Rattle.std.specs.List.{flat_map};
ghost use Rattle.std.specs.Int.{w8, w16, w64, to_be_bytes};
ghost use Rattle.std.specs.Map.Iter.{deref_pair};
ghost use Rattle.op_spec.specs.Service.{pair_bytes, client_bytes, answer_bytes};

use crate::reading::{ABSENT, DONE, VALUE};
use op_fields::{put_u8, put_u16, put_u64};
use op_types::{Answer, Applied, Blob, NoMemory};
use std::collections::BTreeMap;

/// The tag of `Stale`, which is never kept.
const STALE: u8 = 4;

/// How many lengths one byte tells apart.
const ONE_BYTE: usize = 1 << 8;

/// How many lengths two bytes tell apart.
const TWO_BYTES: usize = 1 << 16;

/// Appends the count of these pairs, and the pairs.
pub(crate) fn put_pairs(out: &mut Vec<u8>, pairs: &BTreeMap<&Blob, &Blob>) -> Result<(), NoMemory>
    ensures { OnOk result (let shown = map deref_pair pairs.now.entries in
        out.new.items ≡ out.old.items ++ to_be_bytes w64 (length shown) ++ flat_map pair_bytes shown) }
{
    put_u64(out, pairs.len() as u64)?;
    'pairs: for (key, value) in pairs {
        put_pair(out, key, value)?;
    }
    Ok(())
}

/// Appends the count of these clients, and the clients.
pub(crate) fn put_clients(
    out: &mut Vec<u8>,
    clients: &BTreeMap<&u64, &Applied>,
) -> Result<(), NoMemory>
    ensures { OnOk result (let shown = map deref_pair clients.now.entries in
        out.new.items ≡ out.old.items ++ to_be_bytes w64 (length shown) ++ flat_map client_bytes shown) }
{
    put_u64(out, clients.len() as u64)?;
    'clients: for (client, last) in clients {
        put_client(out, **client, last)?;
    }
    Ok(())
}

fn put_pair(out: &mut Vec<u8>, key: &Blob, value: &Blob) -> Result<(), NoMemory>
    ensures { OnOk result (out.new.items ≡ out.old.items ++ pair_bytes (key.now, value.now)) }
{
    put_one_byte(out, key.as_slice().len())?;
    out.extend_from_slice(key.as_slice())?;
    put_value(out, value)?;
    Ok(())
}

fn put_value(out: &mut Vec<u8>, value: &Blob) -> Result<(), NoMemory>
    ensures { OnOk result (out.new.items
        ≡ out.old.items ++ (to_be_bytes w16 (length value.now) ++ value.now)) }
{
    put_two_bytes(out, value.as_slice().len())?;
    out.extend_from_slice(value.as_slice())?;
    Ok(())
}

#[tactic(auto, unfolding(op_fields::specs::Form::encoded))]
fn put_client(out: &mut Vec<u8>, client: u64, last: &Applied) -> Result<(), NoMemory>
    ensures { OnOk result (out.new.items ≡ out.old.items ++ client_bytes (client, last.now)) }
{
    put_u64(out, client)?;
    put_u64(out, last.seq)?;
    put_answer(out, &last.answer)?;
    Ok(())
}

#[tactic(auto, unfolding(op_fields::specs::Form::encoded))]
fn put_answer(out: &mut Vec<u8>, answer: &Answer) -> Result<(), NoMemory>
    ensures { OnOk result (out.new.items ≡ out.old.items ++ answer_bytes answer.now) }
{
    match answer {
        Answer::Done => put_u8(out, DONE)?,
        Answer::Value(value) => {
            put_u8(out, VALUE)?;
            put_value(out, value)?;
        }
        Answer::Absent => put_u8(out, ABSENT)?,
        Answer::Stale => put_u8(out, STALE)?,
        Answer::Dropped(_) => {}
    }
    Ok(())
}

/// Appends the lowest byte of a length.
fn put_one_byte(out: &mut Vec<u8>, len: usize) -> Result<(), NoMemory>
    ensures { OnOk result (out.new.items ≡ out.old.items ++ to_be_bytes w8 len) }
{
    put_u8(out, (len % ONE_BYTE) as u8)?;
    Ok(())
}

/// Appends the two lowest bytes of a length.
fn put_two_bytes(out: &mut Vec<u8>, len: usize) -> Result<(), NoMemory>
    ensures { OnOk result (out.new.items ≡ out.old.items ++ to_be_bytes w16 len) }
{
    put_u16(out, (len % TWO_BYTES) as u16)?;
    Ok(())
}
