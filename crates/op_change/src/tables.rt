ghost use Rattle.std.specs.Prelude.{◌≡◌, [], OnOk};
ghost use Rattle.std.specs.Ordering.{nat_cmp};
ghost use Rattle.std.specs.Cmp.Lexicographic.{slice_cmp};
ghost use Rattle.op_spec.specs.Service.{new_service};
ghost use Rattle.op_change.specs.Over.{service_over, nothing_written};
ghost use Rattle.op_overlay.specs.Entries.{without};

use crate::change::KvChange;
use op_types::{Applied, Blob, NoMemory};
use std::alloc::Global;
use std::collections::{BTreeMap, BTreeSet};
use std::marker::Model;

/// The pairs and the clients of a service, each at its place.
#[derive(Drop)]
pub struct Tables {
    pub(crate) pairs: BTreeMap<Blob, Blob>,
    pub(crate) clients: BTreeMap<u64, Applied>,
}

impl Model for Tables {
    ghost use Rattle.std.specs.BTreeMap.{IsOrdered};
    ghost use Rattle.std.specs.Ordering.{nat_cmp};
    ghost use Rattle.std.specs.Cmp.Lexicographic.{slice_cmp};
    ghost use Rattle.op_spec.specs.Service.{Service};

    ghost Value = { Service };

    ghost view = { λ t. record { pairs = t.pairs.entries; clients = t.clients.entries } };

    ghost invariant = { λ t. IsOrdered (slice_cmp nat_cmp) t.pairs × IsOrdered nat_cmp t.clients };
}

impl Tables {
    /// No pairs and no clients.
    pub fn new(alloc: Global) -> Self
        ensures { result ≡ new_service }
    {
        Tables {
            pairs: BTreeMap::new(alloc),
            clients: BTreeMap::new(alloc),
        }
    }

    /// These pairs and clients.
    pub fn of(pairs: BTreeMap<Blob, Blob>, clients: BTreeMap<u64, Applied>) -> Self
        ensures { result ≡ record { pairs = pairs.entries; clients = clients.entries } }
    {
        Tables { pairs, clients }
    }

    /// Moves what a change wrote here. If memory runs out, the rest of it stays there.
    pub fn take_in(&mut self, change: &mut KvChange) -> Result<(), NoMemory>
        ensures same { service_over self.new change.new ≡ service_over self.old change.old }
        ensures ok { OnOk result (change.new ≡ nothing_written) }
    {
        take_out(&mut self.pairs, &mut change.gone);
        take_out(&mut self.clients, &mut change.forgotten);
        change.pairs.move_over(&mut self.pairs)?;
        change.clients.move_over(&mut self.clients)?;
        Ok(())
    }
}

/// Takes out what stands at the keys that are gone. This takes no memory.
fn take_out<K: Ord + Drop, V: Drop>(below: &mut BTreeMap<K, V>, gone: &mut BTreeSet<K>)
    ensures entries { below.new.entries ≡ without K.cmp below.old.entries gone.old.keys }
    ensures gone { gone.new.keys ≡ [] }
{
    'keys: while let Some(key) = gone.pop_first() {
        below.remove(&key);
    }
}
