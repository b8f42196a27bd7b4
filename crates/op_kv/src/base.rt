//! Bases that are looked at, and services that are made of them.
ghost use Rattle.std.specs.Prelude.{◌≡◌, option_map, IfOk};
ghost use Rattle.std.specs.Result.{result_ok};
ghost use Rattle.op_kv.specs.Bases.{base, rising_pairs, rising_clients};
ghost use Rattle.op_kv.specs.Looked.{end_of};

use crate::reading::{client_at, pair_at, u64_at};
use op_change::Tables;
use op_types::{Applied, Blob, NoMemory};
use std::alloc::Global;
use std::collections::BTreeMap;

/// The offset after a base that the bytes begin with, if they begin with one.
pub(crate) fn base_end(bytes: &[u8]) -> Option<usize>
    ensures { result ≡ end_of (base.read bytes.now 0) }
{
    let at = pairs_end(bytes, 0)?;
    clients_end(bytes, at)
}

fn pairs_end(bytes: &[u8], first: usize) -> Option<usize>
    ensures { result ≡ end_of (rising_pairs.read bytes.now first) }
{
    let (count, mut at) = u64_at(bytes, first, 0, u64::MAX)?;
    let mut low: &[u8] = &[];
    'pairs: for _ in 0..count {
        let (key, _, next) = pair_at(bytes, at, low)?;
        low = key;
        at = next;
    }
    Some(at)
}

fn clients_end(bytes: &[u8], first: usize) -> Option<usize>
    ensures { result ≡ end_of (rising_clients.read bytes.now first) }
{
    let (count, mut at) = u64_at(bytes, first, 0, u64::MAX)?;
    let mut low = 0;
    'clients: for _ in 0..count {
        let (last, next) = client_at(bytes, at, low)?;
        low = last.client;
        at = next;
    }
    Some(at)
}

/// The tables of the base that the bytes begin with, if they begin with one.
pub(crate) fn tables_of(alloc: Global, bytes: &[u8]) -> Result<Option<Tables>, NoMemory>
    ensures { IfOk result (λ t. t ≡ option_map (λ x. x.0) (result_ok (base.read bytes.now 0))) }
{
    let Some((pairs, at)) = pairs_from(alloc, bytes, 0)? else {
        return Ok(None);
    };
    let Some((clients, _)) = clients_from(alloc, bytes, at)? else {
        return Ok(None);
    };
    Ok(Some(Tables::of(pairs, clients)))
}

fn pairs_from(
    alloc: Global,
    bytes: &[u8],
    first: usize,
) -> Result<Option<(BTreeMap<Blob, Blob>, usize)>, NoMemory>
    ensures { IfOk result (λ r. option_map (λ x. (x.0.entries, x.1)) r
        ≡ result_ok (rising_pairs.read bytes.now first)) }
{
    let Some((count, mut at)) = u64_at(bytes, first, 0, u64::MAX) else {
        return Ok(None);
    };
    let mut pairs = BTreeMap::new(alloc);
    let mut low: &[u8] = &[];
    'pairs: for _ in 0..count {
        let Some((key, value, next)) = pair_at(bytes, at, low) else {
            return Ok(None);
        };
        pairs.insert(
            Blob::from_slice(alloc, key)?,
            Blob::from_slice(alloc, value)?,
        )?;
        low = key;
        at = next;
    }
    Ok(Some((pairs, at)))
}

fn clients_from(
    alloc: Global,
    bytes: &[u8],
    first: usize,
) -> Result<Option<(BTreeMap<u64, Applied>, usize)>, NoMemory>
    ensures { IfOk result (λ r. option_map (λ x. (x.0.entries, x.1)) r
        ≡ result_ok (rising_clients.read bytes.now first)) }
{
    let Some((count, mut at)) = u64_at(bytes, first, 0, u64::MAX) else {
        return Ok(None);
    };
    let mut clients = BTreeMap::new(alloc);
    let mut low = 0;
    'clients: for _ in 0..count {
        let Some((last, next)) = client_at(bytes, at, low) else {
            return Ok(None);
        };
        let applied = Applied {
            seq: last.seq,
            answer: last.told.to_answer(alloc)?,
        };
        clients.insert(last.client, applied)?;
        low = last.client;
        at = next;
    }
    Ok(Some((clients, at)))
}
