//! The entries of a map that stand, where newer ones wait to go to their places: references, and no copies.
ghost use Rattle.std.specs.Prelude.{◌≡◌, OnOk, IfOk, map};
ghost use Rattle.std.specs.Ordering.{nat_cmp};
ghost use Rattle.std.specs.Cmp.Lexicographic.{slice_cmp};
ghost use Rattle.std.specs.List.Sorted.{IsStrictlySortedBy};
ghost use Rattle.std.specs.Map.{keys_of};
ghost use Rattle.std.specs.Map.Iter.{deref_pair};
ghost use Rattle.op_change.specs.Over.{pairs_over, clients_over};
ghost use Rattle.op_overlay.specs.Entries.{entries_over, without};

use crate::change::KvChange;
use crate::tables::Tables;
use op_overlay::insert_all;
use op_types::{Applied, Blob, NoMemory};
use std::alloc::Global;
use std::collections::{BTreeMap, BTreeSet};

impl Tables {
    /// The pairs, with what was written over them.
    pub fn pairs_with<'a>(
        &'a self,
        alloc: Global,
        newer: &'a KvChange,
    ) -> Result<BTreeMap<&'a Blob, &'a Blob>, NoMemory>
        ensures pairs { IfOk result (λ m. map deref_pair m.entries
            ≡ pairs_over self.now.pairs newer.now) }
        ensures order { OnOk result
            (IsStrictlySortedBy (slice_cmp nat_cmp) (keys_of (pairs_over self.now.pairs newer.now))) }
    {
        let mut pairs = BTreeMap::new(alloc);
        insert_all(&mut pairs, &self.pairs)?;
        remove_all(&mut pairs, &newer.gone);
        newer.pairs.insert_over(&mut pairs)?;
        Ok(pairs)
    }

    /// The clients, with what was written over them.
    pub fn clients_with<'a>(
        &'a self,
        alloc: Global,
        newer: &'a KvChange,
    ) -> Result<BTreeMap<&'a u64, &'a Applied>, NoMemory>
        ensures clients { IfOk result (λ m. map deref_pair m.entries
            ≡ clients_over self.now.clients newer.now) }
        ensures order { OnOk result
            (IsStrictlySortedBy nat_cmp (keys_of (clients_over self.now.clients newer.now))) }
    {
        let mut clients = BTreeMap::new(alloc);
        insert_all(&mut clients, &self.clients)?;
        remove_all(&mut clients, &newer.forgotten);
        newer.clients.insert_over(&mut clients)?;
        Ok(clients)
    }
}

/// Takes out what stands at these keys.
fn remove_all<'a, K: Ord, V>(standing: &mut BTreeMap<&'a K, &'a V>, gone: &'a BTreeSet<K>)
    ensures { map deref_pair standing.new.entries
        ≡ without K.cmp (map deref_pair standing.old.entries) gone.now.keys }
{
    'keys: for key in gone {
        standing.remove(&key);
    }
}
