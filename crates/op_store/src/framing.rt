//! A whole durable state, laid out to be written.
ghost use Rattle.std.specs.Prelude.{IfOk};
ghost use Rattle.op_types.specs.Changes.{durable_after};
ghost use Rattle.op_types.specs.Rooms.{no_needs, with_room};
ghost use Rattle.op_record.specs.Behind.{appending};
ghost use Rattle.op_record.specs.Ranges.{DurableInRange};
ghost use Rattle.op_record.specs.declared.body.Rec.TheVariants.{Whole};
ghost use Rattle.op_store.specs.Records.{IsBodyOf};

use op_journal::Framed;
use op_record::{put_whole, put_whole_behind};
use op_types::{Durable, Entry, NoMemory};
use std::alloc::Global;

/// Lays a durable state out as the record that an area begins with. The room that is reserved in it is no
/// matter. It fails where no memory is found for its bytes.
pub fn framed_whole(alloc: Global, durable: &Durable) -> Result<Framed, NoMemory>
    requires { DurableInRange (with_room no_needs durable.now) }
    ensures { IfOk result (IsBodyOf (Whole (with_room no_needs durable.now))) }
{
    let mut bytes = Framed::start(alloc)?;
    put_whole(&mut bytes, durable)?;
    Framed::finish(bytes)
}

/// The same, of the durable state after a batch that isn't adopted yet: it appends these entries, and then so
/// much is decided, if that is named.
pub fn framed_behind(
    alloc: Global,
    durable: &Durable,
    added: &[Entry],
    decided: Option<u64>,
) -> Result<Framed, NoMemory>
    requires { DurableInRange (durable_after (with_room no_needs durable.now) (appending added.now decided)) }
    ensures { IfOk result (IsBodyOf
        (Whole (durable_after (with_room no_needs durable.now) (appending added.now decided)))) }
{
    let mut bytes = Framed::start(alloc)?;
    put_whole_behind(&mut bytes, durable, added, decided)?;
    Framed::finish(bytes)
}
