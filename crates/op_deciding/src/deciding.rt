//! What a batch newly decides, of the log as the batch leaves it: nothing is applied for it, and nothing
//! copied.
ghost use Rattle.std.specs.Prelude.{◌≡◌, ◌+◌, ◌-◌, length, take, drop, IfOk, OnOk};
ghost use Rattle.op_protocol.specs.Parts.{part_after, decided_since};
ghost use Rattle.op_protocol.specs.Rows.{newly_decided};
ghost use Rattle.op_deciding.specs.Deciding.{ServesNothing, Continues, IsServed};

use crate::Served;
use op_kv::Map;
use op_types::{Ballot, Change, Entry, NoMemory, Part};
use std::alloc::Global;

/// The entries that a batch newly decides are served, where none were before.
pub fn serve_decided(
    alloc: Global,
    service: &Map,
    part: &Option<Part>,
    batch: &[Change],
    served: &mut Served,
) -> Result<(), NoMemory>
    requires settled { service.now.waiting ≡ 0 }
    requires nothing { ServesNothing service.now.service served.old }
    ensures { OnOk result (IsServed service.now.service (newly_decided part.now batch.now) served.new) }
{
    match part {
        Some(part) => serve_newly(alloc, service, part, batch, served),
        None => Ok(()),
    }
}

/// Where a position stands in a log of which so much is trimmed.
pub fn index(trimmed: u64, pos: u64) -> usize
    ensures { result ≡ pos - trimmed }
{
    pos.saturating_sub(trimmed) as usize
}

/// The entries from one index to another, as far as there are so many.
pub fn between(entries: &[Entry], start: usize, end: usize) -> &[Entry]
    ensures { result.now ≡ drop start (take end entries.now) }
{
    let end = end.min(entries.len());
    let start = start.min(end);
    &entries[start..end]
}

/// How much a part has decided after a batch.
pub fn decided_after(part: &Part, batch: &[Change]) -> u64
    ensures { result ≡ (part_after part.now batch.now).decided }
{
    let mut decided = part.decided;
    'changes: for change in batch {
        if let Change::Decided(len) = change {
            decided = *len;
        }
    }
    decided
}

/// The ballot that a part has promised after a batch.
pub fn promised_after(part: &Part, batch: &[Change]) -> Ballot
    ensures { result ≡ (part_after part.now batch.now).promised }
{
    let mut promised = part.promised;
    'changes: for change in batch {
        if let Change::Promise(ballot) = change {
            promised = *ballot;
        }
    }
    promised
}

/// How much of a part is trimmed after a batch.
pub fn trimmed_after(part: &Part, batch: &[Change]) -> u64
    ensures { result ≡ (part_after part.now batch.now).trimmed }
{
    let mut trimmed = part.trimmed;
    'changes: for change in batch {
        if let Change::Trim(at, _) = change {
            trimmed = *at;
        }
    }
    trimmed
}

/// The entries that a batch newly decides are served after the others.
fn serve_newly(
    alloc: Global,
    service: &Map,
    part: &Part,
    batch: &[Change],
    served: &mut Served,
) -> Result<(), NoMemory>
    requires { service.now.waiting ≡ 0 }
    ensures { OnOk result (Continues service.now.service served.old served.new
        (decided_since part.now (part_after part.now batch.now))) }
{
    let trimmed = trimmed_after(part, batch);
    let log = LogAfter { part, batch };
    let slice = Slice {
        start: index(trimmed, part.decided),
        end: index(trimmed, decided_after(part, batch)),
    };
    serve_between(alloc, service, log, slice, served)?;
    Ok(())
}

/// A part and a batch: the log is that of the part after the batch.
#[derive(Clone, Copy)]
struct LogAfter<'a> {
    part: &'a Part,
    batch: &'a [Change],
}

/// From one index of a log to another.
#[derive(Clone, Copy)]
struct Slice {
    start: usize,
    end: usize,
}

impl Slice {
    /// The same entries of a log that has so many more before it.
    fn behind(self, count: usize) -> Result<Slice, NoMemory>
        ensures start { IfOk result (λ s. s.start ≡ self.start + count) }
        ensures end { IfOk result (λ s. s.end ≡ self.end + count) }
    {
        let start = self.start.checked_add(count).ok_or(NoMemory)?;
        let end = self.end.checked_add(count).ok_or(NoMemory)?;
        Ok(Slice { start, end })
    }
}

/// A slice of the log that a batch leaves is served after the others. Tells that log's length.
fn serve_between(
    alloc: Global,
    service: &Map,
    log: LogAfter,
    slice: Slice,
    served: &mut Served,
) -> Result<usize, NoMemory>
    requires { service.now.waiting ≡ 0 }
    ensures served { OnOk result (Continues service.now.service served.old served.new
        (drop slice.start (take slice.end (part_after log.entry.part.now log.entry.batch.now).tail.items))) }
    ensures len { IfOk result (λ n.
        n ≡ length (part_after log.entry.part.now log.entry.batch.now).tail.items) }
{
    let LogAfter { part, batch } = log;
    let [before @ .., last] = batch else {
        let entries = part.tail.as_slice();
        served.serve(alloc, service, between(entries, slice.start, slice.end))?;
        return Ok(entries.len());
    };
    let log = LogAfter {
        part,
        batch: before,
    };
    match last {
        Change::CutTo(len) => {
            let kept = index(trimmed_after(part, before), *len);
            let end = slice.end.min(kept);
            let len = serve_between(alloc, service, log, Slice { end, ..slice }, served)?;
            Ok(len.min(kept))
        }
        Change::Append(entries) => {
            let len = serve_between(alloc, service, log, slice, served)?;
            serve_appended(alloc, service, entries.as_slice(), len, slice, served)
        }
        Change::Trim(at, _) => {
            let gone = index(trimmed_after(part, before), *at);
            let slice = slice.behind(gone)?;
            let len = serve_between(alloc, service, log, slice, served)?;
            Ok(len.saturating_sub(gone))
        }
        _ => serve_between(alloc, service, log, slice, served),
    }
}

/// What is appended to a log of this length is served after the others, as far as it stands in a slice. Tells
/// the log's length then.
fn serve_appended(
    alloc: Global,
    service: &Map,
    entries: &[Entry],
    len: usize,
    slice: Slice,
    served: &mut Served,
) -> Result<usize, NoMemory>
    requires { service.now.waiting ≡ 0 }
    ensures served { OnOk result (Continues service.now.service served.old served.new
        (drop (slice.start - len) (take (slice.end - len) entries.now))) }
    ensures len { IfOk result (λ n. n ≡ len + length entries.now) }
{
    let first = slice.start.saturating_sub(len);
    let past = slice.end.saturating_sub(len);
    served.serve(alloc, service, between(entries, first, past))?;
    match len.checked_add(entries.len()) {
        Some(whole) => Ok(whole),
        None => Err(NoMemory),
    }
}
