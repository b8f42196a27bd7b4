//! The nodes of the cluster.
ghost use Rattle.std.specs.Prelude.{◌≡◌, ◌==◌, ◌≤◌, ◌<◌, ◌^◌, ◌↔◌, decimal, length, string_bytes, Contains, IfOk, IfSome, IfNone, IsTrue, List};
ghost use Rattle.std.specs.List.{list_all, list_any};
ghost use Rattle.std.specs.Map.{keys_of};
ghost use Rattle.toml.specs.Data.{string};
ghost use Rattle.toml.specs.View.{table_view, view};
ghost use Rattle.op_text.specs.Found.{IsFound};
ghost use Rattle.op_setup.specs.Addresses.{AddrInRange, addr_text};
ghost use Rattle.op_setup.specs.Settings.{AreRows, IsAmong, IsRow, Peer, SetsPeers, most_peers};

use crate::addresses::addr;
use crate::config::{MOST_PEERS, Peers};
use crate::toml_keys::values::table_at;
use op_outside::Addr;
use op_text::pid;
use op_types::{NoMemory, Pid};
use std::alloc::Global;
use std::collections::BTreeMap;
use toml::{Table, Value};

/// The nodes of the cluster, if every member is among them.
pub fn peers(alloc: Global, table: &Table, members: &[Pid]) -> Result<Option<Peers>, NoMemory>
    ensures { IfOk result (IsFound (SetsPeers (table_view table.now) members.now)) }
{
    let Some(rows) = table_at(table, "peers") else {
        return Ok(None);
    };
    let Some(peers) = rows_peers(alloc, rows)? else {
        return Ok(None);
    };
    if !are_few(peers.as_slice()) {
        return Ok(None);
    }
    if !are_with_all(peers.as_slice(), members) {
        return Ok(None);
    }
    Ok(Some(peers))
}

/// Whether there are peers, and no more than a cluster has.
fn are_few(peers: &[(Pid, Addr)]) -> bool
    ensures { IsTrue result ↔ ((1 ≤ length peers.now) × (length peers.now ≤ most_peers)) }
{
    !peers.is_empty() && peers.len() <= MOST_PEERS
}

/// Whether each of these ids is among the peers.
pub fn are_with_all(peers: &[(Pid, Addr)], ids: &[Pid]) -> bool
    ensures { result ≡ list_all (λ id. list_any (λ p. p.0 == id) peers.now) ids.now }
{
    ids.iter().all(|id| any_is(peers, *id))
}

/// Whether the own id, where there is one, is among the peers.
pub fn are_with(peers: &[(Pid, Addr)], id: Option<Pid>) -> bool
    ensures { IsTrue result ↔ IsAmong peers.now id }
{
    match id {
        Some(id) => has_id(peers, id),
        None => true,
    }
}

/// Whether an id is among the peers.
fn has_id(peers: &[(Pid, Addr)], id: Pid) -> bool
    ensures { IsTrue result ↔ Contains (keys_of peers.now) id }
{
    any_is(peers, id)
}

/// Whether some peer has this id.
fn any_is(peers: &[(Pid, Addr)], id: Pid) -> bool
    ensures { result ≡ list_any (λ p. p.0 == id) peers.now }
{
    peers.iter().any(|peer| peer.0 == id)
}

/// The peers of a table's rows, by rising id.
fn rows_peers(alloc: Global, rows: &Table) -> Result<Option<Peers>, NoMemory>
    ensures { IfOk result (IsFound (AreRows (table_view rows.now))) }
{
    let Some(by_id) = by_id(alloc, rows)? else {
        return Ok(None);
    };
    Ok(Some(in_order(alloc, by_id)?))
}

/// The entries of a map, in order.
fn in_order(alloc: Global, by_id: BTreeMap<Pid, Addr>) -> Result<Peers, NoMemory>
    ensures { IfOk result (λ peers. peers ≡ by_id.entries) }
{
    Ok(Peers::from_vec(by_id.into_iter().collect(alloc)?))
}

/// The address of each id that a table's rows name.
fn by_id(alloc: Global, rows: &Table) -> Result<Option<BTreeMap<Pid, Addr>>, NoMemory>
    ensures found { IfOk result (λ o. IfSome o (λ m. AreRows (table_view rows.now) m.entries)) }
    ensures none { IfOk result (λ o.
        IfNone o ((peers : List Peer) → AreRows (table_view rows.now) peers → ⊥)) }
{
    let mut by_id = BTreeMap::new(alloc);
    for (key, value) in rows {
        let Some((id, addr)) = peer(key, value) else {
            return Ok(None);
        };
        by_id.insert(id, addr)?;
    }
    Ok(Some(by_id))
}

/// The peer of a row.
fn peer(key: &String, value: &Value) -> Option<(Pid, Addr)>
    ensures { IsFound (IsRow (string_bytes key.now) (view value.now)) result }
{
    let Some(id) = pid(key.as_str().as_bytes()) else {
        return None;
    };
    let Some(addr) = value_addr(value) else {
        return None;
    };
    Some((id, addr))
}

/// The address of a row's value.
fn value_addr(value: &Value) -> Option<Addr>
    ensures { IsFound (λ a. AddrInRange a × (view value.now ≡ string (addr_text a))) result }
{
    match value.as_str() {
        Some(text) => addr(text),
        None => None,
    }
}
