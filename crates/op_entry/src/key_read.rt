ghost use Rattle.std.specs.Prelude.{◌≡◌, ◌++◌, OnOk, OnErr};
ghost use Rattle.op_fields.specs.Prefixes.{KeepsPrefix};
ghost use Rattle.op_fields.specs.Taken.{Gives};
ghost use Rattle.op_entry.specs.Forms.{key_read};

use crate::command::{key_at, put_key};
use op_fields::{NoMemory, TakeFail, put_u64, u64_in};
use op_types::{GREATEST_NUMBER, Read};
use std::alloc::Global;

/// Appends a read. Without memory a part of it may be appended.
#[tactic(auto, using(op_fields::proofs::Prefixes::kept_through))]
pub fn put_read(out: &mut Vec<u8>, r: &Read) -> Result<(), NoMemory>
    requires { key_read.fits r.now }
    ensures ok { OnOk result (out.new.items ≡ out.old.items ++ key_read.text r.now) }
    ensures err { OnErr result (KeepsPrefix out.old.items out.new.items) }
{
    put_u64(out, r.client)?;
    put_u64(out, r.seq)?;
    put_key(out, &r.key)
}

/// The read at a byte offset, and the offset after it.
pub fn read_at(alloc: Global, bytes: &[u8], at: usize) -> Result<(Read, usize), TakeFail>
    ensures { Gives result (key_read.read bytes.now at) }
{
    let (client, at) = u64_in(bytes, at, 1, GREATEST_NUMBER)?;
    let (seq, at) = u64_in(bytes, at, 1, GREATEST_NUMBER)?;
    let (key, at) = key_at(alloc, bytes, at)?;
    Ok((Read { client, seq, key }, at))
}
