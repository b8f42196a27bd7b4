//! How many bytes entries take in a message, and how a list of them is cut into runs.
ghost use Rattle.std.specs.Prelude.{◌≡◌, ◌<◌, ◌≤◌, ◌*◌, ◌^◌, ◌∷◌, ◌++◌, [], length, take, drop, nat_le, IfSome, IfNone};
ghost use Rattle.op_types.specs.Limits.{most_writes, most_part_bytes};
ghost use Rattle.op_types.specs.Cutting.{key_size, value_size, write_size, writes_size, op_size, entry_size, entries_size, cut};
ghost use Rattle.op_types.specs.declared.log.Entry.TheVariants as logged;

use crate::{Blob, Command, Entry, MOST_PART_BYTES, Op, Write, Writes};

/// How many bytes a part takes at most, as sizes are counted.
const MOST_BYTES: u128 = MOST_PART_BYTES as u128;

impl Blob {
    /// How many bytes it takes as a key.
    fn key_size(&self) -> u128
        ensures size { result ≡ key_size self.now }
        ensures small { result < 2 ^ 64 }
    {
        1 + self.as_slice().len() as u128
    }

    /// How many bytes it takes as a value.
    fn value_size(&self) -> u128
        ensures size { result ≡ value_size self.now }
        ensures small { result < 2 ^ 64 }
    {
        2 + self.as_slice().len() as u128
    }
}

impl Write {
    /// How many bytes it takes.
    fn size(&self) -> u128
        ensures size { result ≡ write_size self.now }
        ensures small { result < 2 ^ 66 }
    {
        match self {
            Write::Put(key, value) => 1 + key.key_size() + value.value_size(),
            Write::Del(key) => 1 + key.key_size(),
        }
    }
}

impl Writes {
    /// How many bytes they take, one behind the other.
    fn size(&self) -> u128
        ensures size { result ≡ writes_size self.now }
        ensures small { result ≤ most_writes * 2 ^ 66 }
    {
        let mut size = 0;
        'writes: for write in self.as_slice() {
            size += write.size();
        }
        size
    }
}

impl Op {
    /// How many bytes it takes.
    fn size(&self) -> u128
        ensures size { result ≡ op_size self.now }
        ensures small { result < 2 ^ 71 }
    {
        match self {
            Op::Put(key, value) => 1 + key.key_size() + value.value_size(),
            Op::Del(key) | Op::Get(key) => 1 + key.key_size(),
            Op::Cas(key, old, new) => 1 + key.key_size() + old.value_size() + new.value_size(),
            Op::Many(writes) => 1 + 1 + writes.size(),
            Op::Forget(_) => 1 + 8,
        }
    }
}

impl Command {
    /// How many bytes it takes in a message, as an entry.
    pub fn size(&self) -> u128
        ensures size { result ≡ entry_size (logged.Command self.now) }
        ensures small { result < 2 ^ 72 }
    {
        1 + 8 + 8 + self.op.size()
    }
}

impl Entry {
    /// How many bytes it takes in a message.
    pub fn size(&self) -> u128
        ensures size { result ≡ entry_size self.now }
        ensures small { result < 2 ^ 72 }
    {
        match self {
            Entry::Command(command) => command.size(),
            Entry::Stop(stop) => 1 + 4 + 1 + 4 * stop.get().members.len() as u128,
        }
    }
}

/// Whether entries take no more bytes than a part of a long message. Entries behind the first ones that don't
/// fit aren't looked at.
pub fn fits_part(entries: &[Entry]) -> bool
    ensures { result ≡ nat_le (entries_size entries.now) most_part_bytes }
{
    let mut used = 0;
    for entry in entries {
        used += entry.size();
        if MOST_BYTES < used {
            return false;
        }
    }
    true
}

/// The first of the runs into which entries are cut, and the entries behind it, where there are any.
pub fn first_run(entries: &[Entry]) -> Option<(&[Entry], &[Entry])>
    ensures cut { IfSome result (λ x. cut entries.now ≡ x.0.now ∷ cut x.1.now) }
    ensures whole { IfSome result (λ x. entries.now ≡ x.0.now ++ x.1.now) }
    ensures some { IfSome result (λ x. 0 < length x.0.now) }
    ensures none { IfNone result (entries.now ≡ []) }
{
    if entries.is_empty() {
        return None;
    }
    Some(entries.split_at(run_len(entries)))
}

/// How many entries the first run has.
fn run_len(entries: &[Entry]) -> usize
    requires { 0 < length entries.now }
    ensures within { result ≤ length entries.now }
    ensures some { 0 < result }
    ensures cut { cut entries.now ≡ take result entries.now ∷ cut (drop result entries.now) }
{
    let mut used = 0;
    for (i, entry) in entries.iter().enumerate() {
        used += entry.size();
        if 0 < i && MOST_BYTES < used {
            return i;
        }
    }
    entries.len()
}
