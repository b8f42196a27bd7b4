//! The changes of several steps are stored at once.
ghost use Rattle.std.specs.Prelude.{◌≢◌, List, []};
ghost use Rattle.op_types.specs.Changes.{Applies, durable_after};
ghost use Rattle.op_types.specs.Rooms.{no_needs, with_room};
ghost use Rattle.op_types.specs.declared.changes.Change.{Change};
ghost use Rattle.op_types.specs.declared.durable.Durable as stored;
ghost use Rattle.op_record.specs.Ranges.{DurableInRange};
ghost use Rattle.op_record.specs.declared.body.Rec.TheVariants.{Step, Whole};
ghost use Rattle.op_store.specs.Records.{IsBodyOf};
ghost use Rattle.op_store.specs.Stores.{IsReady, Passes};
ghost use Rattle.op_node.specs.Taking.{StoresAtOnce};
ghost use Rattle.std.specs.Prelude.{◌≡◌};

use crate::bound::Bound;
use op_journal::{DiskFault, Framed};
use op_outside::Disk;
use op_store::{Store, framed_whole};
use op_types::Durable;
use std::alloc::Global;

/// Stores changes that led to this durable state, laid out as one record. Where the chosen area becomes too
/// long a checkpoint follows, if there is memory for it.
pub fn commit_all<D: Disk>(
    alloc: Global,
    store: &mut Store<D>,
    durable: &Durable,
    framed: &Framed,
) -> Result<Bound, DiskFault>
    requires ready { IsReady store.old }
    requires range { DurableInRange (with_room no_needs durable.now) }
    ensures { (d : stored.Durable) (changes : List Change) →
        IsBodyOf (Step changes) framed.now → Applies d changes → changes ≢ [] → durable_after d changes ≡ with_room no_needs durable.now →
        StoresAtOnce D.state d changes store.old store.new result }
{
    if !store.passes(framed) {
        return commit_only(store, framed);
    }
    match framed_whole(alloc, durable) {
        Ok(whole) => commit_then_checkpoint(store, framed, whole),
        Err(_) => commit_past(store, framed),
    }
}

/// Stores changes with which the chosen area doesn't become too long.
fn commit_only<D: Disk>(store: &mut Store<D>, framed: &Framed) -> Result<Bound, DiskFault>
    requires ready { IsReady store.old }
    requires small { Passes store.old framed.now → ⊥ }
    ensures { (d : stored.Durable) (changes : List Change) →
        IsBodyOf (Step changes) framed.now → Applies d changes → changes ≢ [] →
        StoresAtOnce D.state d changes store.old store.new result }
{
    match store.commit(framed) {
        Ok(()) => Ok(Bound::Kept),
        Err(fault) => Err(fault),
    }
}

/// Stores changes with which the chosen area becomes too long, without a checkpoint.
fn commit_past<D: Disk>(store: &mut Store<D>, framed: &Framed) -> Result<Bound, DiskFault>
    requires ready { IsReady store.old }
    requires passes { Passes store.old framed.now }
    ensures { (d : stored.Durable) (changes : List Change) →
        IsBodyOf (Step changes) framed.now → Applies d changes → changes ≢ [] →
        StoresAtOnce D.state d changes store.old store.new result }
{
    match store.commit(framed) {
        Ok(()) => Ok(Bound::Passed),
        Err(fault) => Err(fault),
    }
}

/// Stores changes, and then the whole durable state behind them in the other area.
fn commit_then_checkpoint<D: Disk>(
    store: &mut Store<D>,
    framed: &Framed,
    whole: Framed,
) -> Result<Bound, DiskFault>
    requires ready { IsReady store.old }
    requires passes { Passes store.old framed.now }
    ensures { (d : stored.Durable) (changes : List Change) →
        IsBodyOf (Step changes) framed.now → Applies d changes → changes ≢ [] →
        IsBodyOf (Whole (durable_after d changes)) whole →
        StoresAtOnce D.state d changes store.old store.new result }
{
    if let Err(fault) = store.commit(framed) {
        return Err(fault);
    }
    match store.checkpoint(whole) {
        Ok(()) => Ok(Bound::Kept),
        Err(fault) => Err(fault),
    }
}
