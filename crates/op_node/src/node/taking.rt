//! Steps that are taken one after the other in memory, and stored together.
ghost use Rattle.std.specs.Prelude.{◌≡◌, ◌++◌, List, [], None, IfOk, OnOk, OnErr};
ghost use Rattle.op_types.specs.declared.changes.Change.{Change};
ghost use Rattle.op_types.specs.declared.durable.Durable.{Durable};
ghost use Rattle.op_node.specs.Nodes.{node_of, stores, AdmitsInput, IsSoundNode};
ghost use Rattle.op_node.specs.Taking.{LaysOut, LeadsFrom, Takes, TakesNone, StoresAtOnce, count_told};

use super::Node;
use crate::bound::Bound;
use crate::gathered::commit_all;
use crate::record::Record;
use op_journal::DiskFault;
use op_outside::Disk;
use op_server::Given;
use op_types::{Input, NoMemory};

impl<D: Disk> Node<D> {
    /// A record of what is to be stored by steps that are taken from now on.
    pub fn record(&self) -> Result<Record, NoMemory>
        ensures { IfOk result (LaysOut []) }
    {
        Record::new(self.alloc)
    }

    /// Takes a step in memory: it is planned with all its memory, what it stores is added to the record, and
    /// it takes effect. What it gives out may be given out once the record is stored. Without memory nothing
    /// changes.
    pub fn take(&mut self, input: Input, gathered: &mut Record) -> Result<Given, NoMemory>
        requires admits { AdmitsInput self.old input }
        requires runs { (node_of self.old).failed ≡ None }
        ensures taken { IfOk result (Takes input self.old self.new) }
        ensures added { (changes : List Change) → LaysOut changes gathered.old →
            OnOk result (LaysOut (changes ++ stores (node_of self.old) input) gathered.new) }
        ensures unchanged { OnErr result (TakesNone self.old self.new) }
        ensures kept { (changes : List Change) → LaysOut changes gathered.old →
            OnErr result (LaysOut changes gathered.new) }
        ensures sound { IsSoundNode self.new }
    {
        let plan = self.seat.plan(input)?;
        gathered.add(plan.batch())?;
        Ok(self.seat.adopt(plan))
    }

    /// Stores what was taken, at once. Where the area becomes too long a checkpoint follows; without memory
    /// for one it answers `Bound::Passed`, and what is stored next tries again. Nothing else takes memory.
    /// Where a disk fails nothing of what was taken may be given out, and the node has failed.
    pub fn store(&mut self, gathered: Record) -> Result<Bound, DiskFault>
        requires sound { IsSoundNode self.old }
        requires runs { (node_of self.old).failed ≡ None }
        requires leads { (d : Durable) × (changes : List Change)
            × LeadsFrom d changes gathered (node_of self.old) }
        ensures stored { (d : Durable) (changes : List Change) →
            LeadsFrom d changes gathered (node_of self.old) →
            StoresAtOnce D.state d changes self.old.store self.new.store result }
        ensures node { node_of self.new ≡ record (node_of self.old) { failed = count_told result } }
        ensures sound { IsSoundNode self.new }
    {
        if gathered.is_empty() {
            return Ok(Bound::Kept);
        }
        let framed = gathered.into_framed();
        match commit_all(self.alloc, &mut self.store, self.seat.durable(), &framed) {
            Ok(bound) => Ok(bound),
            Err(fault) => {
                self.failed = Some(fault.count);
                Err(fault)
            }
        }
    }
}
