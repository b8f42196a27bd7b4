//! What comes of a closed list is held.
ghost use Rattle.std.specs.Prelude.{◌≡◌, IfOk};
ghost use Rattle.op_segments.specs.Brought.{end_in, held_base, held_entries};

use crate::asking::is_held;
use op_types::{Batch, Blob, Change, Entries, Joining};
use std::alloc::{AllocError as NoMemory, Global};

/// The change by which a base is held, where none is and where it stands in the closed list.
pub fn take_base(alloc: Global, joining: &Joining, at: u64, base: Blob) -> Result<Batch, NoMemory>
    ensures { IfOk result (λ batch. batch ≡ held_base joining.now at base) }
{
    let mut batch = Batch::new(alloc);
    if joining.base.is_some() || joining.len < at {
        return Ok(batch);
    }
    batch.push(Change::JoinBase(at, base))?;
    Ok(batch)
}

/// The change by which entries are held, where they stand in the closed list and bring a position that isn't
/// held.
pub fn take_entries(
    alloc: Global,
    joining: &Joining,
    at: u64,
    entries: Entries,
) -> Result<Batch, NoMemory>
    ensures { IfOk result (λ batch. batch ≡ held_entries joining.now at entries) }
{
    let mut batch = Batch::new(alloc);
    let Some(end) = end_in(joining, at, &entries) else {
        return Ok(batch);
    };
    if is_held(joining, at, end) {
        return Ok(batch);
    }
    batch.push(Change::JoinPart(at, entries))?;
    Ok(batch)
}

/// Where entries end, if there are some and all of them stand in the closed list.
fn end_in(joining: &Joining, at: u64, entries: &Entries) -> Option<u64>
    ensures { result ≡ end_in joining.now at entries.now }
{
    let end = at as u128 + entries.len() as u128;
    if entries.is_empty() || end > joining.len as u128 {
        return None;
    }
    Some(end as u64)
}
