//! The nodes that never vote.
ghost use Rattle.std.specs.Prelude.{◌≡◌, map, nat_eq, IfOk};
ghost use Rattle.std.specs.List.{list_any};
ghost use Rattle.std.specs.Set.{is_member};
ghost use Rattle.toml.specs.Data.{array};
ghost use Rattle.toml.specs.View.{items_of, table_view, view};
ghost use Rattle.op_types.specs.Ranges.{AreRising};
ghost use Rattle.op_text.specs.Found.{IsFound};
ghost use Rattle.op_setup.specs.Settings.{SetsObservers, id_data};

use crate::toml_keys::members::id_above;
use crate::toml_keys::peers::are_with_all;
use op_outside::Addr;
use op_types::{NoMemory, Pid, Seq, is_among};
use std::alloc::Global;
use toml::{Table, Value};

/// The nodes that never vote: there are none where the key is absent. None where what stands there are no ids
/// of peers that are no members.
pub fn observers(
    alloc: Global,
    table: &Table,
    members: &[Pid],
    peers: &[(Pid, Addr)],
) -> Result<Option<Seq<Pid>>, NoMemory>
    ensures { IfOk result (IsFound (SetsObservers (table_view table.now) members.now peers.now)) }
{
    let Some(value) = table.get("observers") else {
        return Ok(Some(Seq::new(alloc)));
    };
    let Some(ids) = value_ids(alloc, value)? else {
        return Ok(None);
    };
    if !are_with_all(peers, ids.as_slice()) {
        return Ok(None);
    }
    if have_one_of(members, ids.as_slice()) {
        return Ok(None);
    }
    Ok(Some(ids))
}

/// Whether some of these ids is a member's.
fn have_one_of(members: &[Pid], ids: &[Pid]) -> bool
    ensures { result ≡ list_any (λ id. is_member nat_eq members.now id) ids.now }
{
    ids.iter().any(|id| is_among(members, *id))
}

/// The rising ids that a value is.
fn value_ids(alloc: Global, value: &Value) -> Result<Option<Seq<Pid>>, NoMemory>
    ensures { IfOk result
        (IsFound (λ ids. (view value.now ≡ array (items_of (map id_data ids))) × AreRising 0 ids)) }
{
    match value.as_array() {
        Some(values) => rising_ids(alloc, values.as_slice()),
        None => Ok(None),
    }
}

/// The ids of these values, if they are rising ids.
fn rising_ids(alloc: Global, values: &[Value]) -> Result<Option<Seq<Pid>>, NoMemory>
    ensures { IfOk result (IsFound (λ ids. (map view values.now ≡ map id_data ids) × AreRising 0 ids)) }
{
    let mut ids = Seq::new(alloc);
    let mut last = 0;
    for value in values {
        let Some(id) = id_above(last, value) else {
            return Ok(None);
        };
        ids.push(id)?;
        last = id;
    }
    Ok(Some(ids))
}
