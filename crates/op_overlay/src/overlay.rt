//! Entries that were written over others, and wait to go to their places.
ghost use Rattle.std.specs.Prelude.{◌≡◌, [], OnOk, map, option_copied};
ghost use Rattle.std.specs.Map.{lookup, remove_entry};
ghost use Rattle.std.specs.BTreeMap.{insert_entry, is_at, IsOrdered};
ghost use Rattle.std.specs.List.Sorted.{IsStrictlySortedBy};
ghost use Rattle.std.specs.Map.{keys_of};
ghost use Rattle.std.specs.Map.Iter.{deref_pair};
ghost use Rattle.op_overlay.specs.Entries.{entries_over};
ghost use Rattle.op_overlay.specs.Overlays.{IsExact};

use op_types::NoMemory;
use std::alloc::Global;
use std::collections::BTreeMap;
use std::marker::Model;
use std::mem;

/// Entries by rising key. The one that was written last lies apart, so that one alone takes no memory.
#[derive(Drop)]
pub struct Overlay<K: Ord, V> {
    earlier: BTreeMap<K, V>,
    last: Option<(K, V)>,
}

impl<K: Ord, V> Model for Overlay<K, V> {
    ghost use Rattle.std.specs.Prelude.{List};
    ghost use Rattle.std.specs.BTreeMap.{IsOrdered};
    ghost use Rattle.op_overlay.specs.Overlays.{with_last};

    ghost Value = { List (K × V) };

    ghost view = { λ o. with_last K.cmp o.earlier.entries o.last };

    ghost invariant = { λ o. IsOrdered K.cmp o.earlier };
}

impl<K: Ord + Drop, V: Drop> Overlay<K, V> {
    /// No entries.
    pub fn new(alloc: Global) -> Self
        ensures empty { result ≡ [] }
        ensures order { IsStrictlySortedBy K.cmp (keys_of result) }
    {
        Overlay {
            earlier: BTreeMap::new(alloc),
            last: None,
        }
    }

    /// What stands at a key.
    pub fn get(&self, key: &K) -> Option<&V>
        ensures { option_copied result ≡ lookup (is_at (K.cmp key.now)) self.now }
    {
        match &self.last {
            Some((last, value)) if key.cmp(last).is_eq() => Some(value),
            _ => self.earlier.get(key),
        }
    }

    /// The key gets the value.
    pub fn insert(&mut self, key: K, value: V) -> Result<(), NoMemory>
        ensures entries { OnOk result (self.new ≡ insert_entry K.cmp self.old key value) }
        ensures order { IsStrictlySortedBy K.cmp (keys_of self.new) }
    {
        match mem::replace(&mut self.last, Some((key, value))) {
            Some((key, value)) => {
                self.earlier.insert(key, value)?;
                Ok(())
            }
            None => Ok(()),
        }
    }

    /// The key is taken out.
    pub fn remove(&mut self, key: &K) -> Result<(), NoMemory>
        ensures entries { OnOk result (self.new ≡ remove_entry (is_at (K.cmp key.now)) self.old) }
        ensures order { IsStrictlySortedBy K.cmp (keys_of self.new) }
    {
        if let Some((last, value)) = self.last.take() {
            self.earlier.insert(last, value)?;
        }
        self.earlier.remove(key);
        Ok(())
    }

    /// Moves the entries over those of a map. If memory runs out, the rest of them stays here.
    pub fn move_over(&mut self, below: &mut BTreeMap<K, V>) -> Result<(), NoMemory>
        requires exact { IsExact K.cmp }
        requires order { IsOrdered K.cmp below.old }
        ensures same { entries_over K.cmp below.new.entries self.new
            ≡ entries_over K.cmp below.old.entries self.old }
        ensures ok { OnOk result (self.new ≡ []) }
        ensures order { IsStrictlySortedBy K.cmp (keys_of self.new) }
        ensures below_order { IsOrdered K.cmp below.new }
    {
        below.append(&mut self.earlier)?;
        match self.last.take() {
            Some((key, value)) => match below.insert(key, value) {
                Ok(_) => Ok(()),
                Err(failed) => {
                    self.last = Some(failed.value);
                    Err(NoMemory)
                }
            },
            None => Ok(()),
        }
    }
}

impl<K: Ord, V> Overlay<K, V> {
    /// Inserts references to the entries, in their order.
    pub fn insert_over<'a>(&'a self, standing: &mut BTreeMap<&'a K, &'a V>) -> Result<(), NoMemory>
        requires exact { IsExact K.cmp }
        requires order { IsStrictlySortedBy K.cmp (keys_of (map deref_pair standing.old.entries)) }
        ensures { OnOk result (map deref_pair standing.new.entries
            ≡ entries_over K.cmp (map deref_pair standing.old.entries) self.now) }
    {
        insert_all(standing, &self.earlier)?;
        if let Some((key, value)) = &self.last {
            standing.insert(key, value)?;
        }
        Ok(())
    }
}

/// Inserts references to these entries, in their order.
pub fn insert_all<'a, K: Ord, V>(
    standing: &mut BTreeMap<&'a K, &'a V>,
    entries: &'a BTreeMap<K, V>,
) -> Result<(), NoMemory>
    ensures { OnOk result (map deref_pair standing.new.entries
        ≡ entries_over K.cmp (map deref_pair standing.old.entries) entries.now.entries) }
{
    'entries: for (key, value) in entries {
        standing.insert(key, value)?;
    }
    Ok(())
}
