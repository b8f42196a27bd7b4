//! A part's log, its suffixes, and the changes that make another log of it.
ghost use Rattle.std.specs.Prelude.{◌≡◌, ◌++◌, ◌-◌, drop, is_some, IfOk, OnOk};
ghost use Rattle.op_spec.specs.Machine.{stop_of, stop_at_end};
ghost use Rattle.op_types.specs.Changes.{len_of};
ghost use Rattle.op_protocol.specs.Parts.{log_from, pending, cutting, appending};
ghost use Rattle.op_plans.specs.Positions.{FitsPositions};

use crate::member::Member;
use op_types::{Batch, Change, Entries, Entry, copy_entries};
use std::alloc::{AllocError as NoMemory, Global};

/// Whether an entry is a stop-sign.
pub fn is_stop(entry: &Entry) -> bool
    ensures { result ≡ is_some (stop_of entry.now) }
{
    match entry {
        Entry::Stop(_) => true,
        Entry::Command(_) => false,
    }
}

/// Whether a stop-sign ends these entries. Only the last one is looked at.
pub fn ends_with_stop(entries: &[Entry]) -> bool
    ensures { result ≡ is_some (stop_at_end entries.now) }
{
    match entries.last() {
        Some(entry) => is_stop(entry),
        None => false,
    }
}

/// The entries after so many.
pub fn suffix(entries: &[Entry], count: u64) -> &[Entry]
    ensures { result.now ≡ drop count entries.now }
{
    if count as usize <= entries.len() {
        &entries[count as usize..]
    } else {
        &[]
    }
}

/// The entries after so many, which are let go. Where all stay, none is copied.
pub fn without_prefix(alloc: Global, entries: Entries, count: u64) -> Result<Entries, NoMemory>
    ensures { IfOk result (λ es. es ≡ drop count entries) }
{
    if count == 0 {
        return Ok(entries);
    }
    copy_entries(alloc, suffix(entries.as_slice(), count))
}

impl Member<'_> {
    /// The length of the log.
    pub fn log_len(&self) -> u64
        requires { FitsPositions self.now.part.now }
        ensures { result ≡ len_of self.now.part.now }
    {
        self.part.trimmed + self.part.tail.len() as u64
    }

    /// Where a stop-sign ends the log.
    pub fn pending(&self) -> Option<u64>
        requires { FitsPositions self.now.part.now }
        ensures { result ≡ pending self.now.part.now }
    {
        if ends_with_stop(self.part.tail.as_slice()) {
            Some(self.log_len() - 1)
        } else {
            None
        }
    }

    /// A copy of the log from a position on.
    pub fn log_from(&self, at: u64) -> Result<Entries, NoMemory>
        ensures { IfOk result (λ es. es ≡ log_from self.now.part.now at) }
    {
        let count = at.saturating_sub(self.part.trimmed);
        copy_entries(self.alloc, suffix(self.part.tail.as_slice(), count))
    }

    /// Adds the change that cuts the log to a length, where that cuts anything.
    pub fn push_cut(&self, batch: &mut Batch, len: u64) -> Result<(), NoMemory>
        requires { FitsPositions self.now.part.now }
        ensures { OnOk result (batch.new ≡ batch.old ++ cutting self.now.part.now len) }
    {
        if len < self.log_len() {
            batch.push(Change::CutTo(len))?;
        }
        Ok(())
    }
}

/// Adds the change that adds entries, if there are any.
pub fn push_append(batch: &mut Batch, entries: Entries) -> Result<(), NoMemory>
    ensures { OnOk result (batch.new ≡ batch.old ++ appending entries) }
{
    if !entries.is_empty() {
        batch.push(Change::Append(entries))?;
    }
    Ok(())
}
