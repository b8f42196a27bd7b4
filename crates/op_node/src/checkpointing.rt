//! The durable state after a batch is laid out as the record of a checkpoint.
ghost use Rattle.std.specs.Prelude.{◌≡◌, IfOk, IfSome};
ghost use Rattle.op_types.specs.Changes.{Applies, durable_after};
ghost use Rattle.op_types.specs.Rooms.{no_needs, with_room};
ghost use Rattle.op_types.specs.declared.durable.Durable as declared;
ghost use Rattle.op_record.specs.Behind.{appending};
ghost use Rattle.op_record.specs.Ranges.{BatchInRange, DurableInRange};
ghost use Rattle.op_record.specs.declared.body.Rec.TheVariants.{Whole};
ghost use Rattle.op_store.specs.Records.{IsBodyOf};

use op_journal::Framed;
use op_store::{framed_behind, framed_whole};
use op_types::{Batch, Change, Durable, Entry, NoMemory, copy_batch};
use std::alloc::Global;

/// The durable state after a batch.
fn after(alloc: Global, durable: &Durable, batch: &Batch) -> Result<Durable, NoMemory>
    requires { Applies (with_room no_needs durable.now) batch.now }
    ensures { IfOk result (λ d. d ≡ durable_after (with_room no_needs durable.now) batch.now) }
{
    let changes = copy_batch(alloc, batch.as_slice())?;
    match durable.copy(alloc)?.after(changes)? {
        Some(after) => Ok(after),
        None => unreachable!(),
    }
}

/// The durable state after a batch as the record of a checkpoint, by a copy that adopts the batch.
fn framed_copy(alloc: Global, durable: &Durable, batch: &Batch) -> Result<Framed, NoMemory>
    requires applies { Applies (with_room no_needs durable.now) batch.now }
    requires range { DurableInRange (with_room no_needs durable.now) }
    requires batch { BatchInRange batch.now }
    ensures { IfOk result (λ x.
        IsBodyOf (Whole (durable_after (with_room no_needs durable.now) batch.now)) x) }
{
    let after = after(alloc, durable, batch)?;
    framed_whole(alloc, &after)
}

/// Lays the durable state after a batch out as the record of a checkpoint. Both are left as they are, and
/// where the batch only appends and decides, neither is copied.
pub fn framed_after(alloc: Global, durable: &Durable, batch: &Batch) -> Result<Framed, NoMemory>
    requires applies { Applies (with_room no_needs durable.now) batch.now }
    requires range { DurableInRange (with_room no_needs durable.now) }
    requires batch { BatchInRange batch.now }
    ensures { IfOk result (λ x.
        IsBodyOf (Whole (durable_after (with_room no_needs durable.now) batch.now)) x) }
{
    match appended(batch.as_slice()) {
        Some((entries, decided)) => framed_behind(alloc, durable, entries, decided),
        None => framed_copy(alloc, durable, batch),
    }
}

/// What a batch appends, and how much it decides, if it does, where it does nothing else.
fn appended(batch: &[Change]) -> Option<(&[Entry], Option<u64>)>
    ensures { IfSome result (λ x. (d : declared.Durable) →
        durable_after d (appending x.0.now x.1) ≡ durable_after d batch.now) }
{
    match batch {
        [Change::Append(entries)] => Some((entries.as_slice(), None)),
        [Change::Decided(len)] => Some((&[], Some(*len))),
        [Change::Append(entries), Change::Decided(len)] => {
            Some((entries.as_slice(), Some(*len)))
        }
        _ => None,
    }
}
