//! Which clients wait at a node for a reply.
ghost use Rattle.std.specs.Prelude.{◌≡◌, ◌∷◌, [], map, OnOk};
ghost use Rattle.op_protocol.specs.Serving.{waits, without_waiting};
ghost use Rattle.op_chain.specs.Waiting.{nobody, with_waiters, without_coming};

use op_types::{Command, NoMemory};
use std::alloc::Global;
use std::collections::BTreeSet;
use std::marker::Model;

/// A client, and the number of the command for whose reply it waits.
pub type Waiter = (u64, u64);

/// All that wait, each once. Room for others is made before they wait, so that letting them wait takes no
/// memory. A call takes time that grows with how many are added, and as the logarithm of how many wait.
#[derive(Drop)]
pub struct WaitingSet {
    pairs: BTreeSet<Waiter>,
    /// Those of the pairs that don't wait yet.
    coming: Vec<Waiter>,
}

impl Model for WaitingSet {
    ghost use Rattle.op_chain.specs.Waiting.{WaitingSet, without_coming};

    ghost Value = { WaitingSet };

    ghost view = { λ w. record {
      waiting = without_coming w.pairs.keys w.coming.items;
      next = w.pairs.keys;
    } };
}

impl WaitingSet {
    /// Nobody waits.
    pub fn new(alloc: Global) -> Self
        ensures { result ≡ nobody }
    {
        WaitingSet {
            pairs: BTreeSet::new(alloc),
            coming: Vec::new(alloc),
        }
    }

    /// Makes room for the clients of these commands, which are to wait. Until `let_wait`, and without memory,
    /// nobody waits that didn't.
    pub fn make_room(&mut self, commands: &[Command]) -> Result<(), NoMemory>
        ensures same { self.new.waiting ≡ self.old.waiting }
        ensures room { OnOk result (self.new.next
            ≡ with_waiters self.old.waiting (map (λ c. (c.client, c.seq)) commands.now)) }
    {
        self.give_up_room();
        self.make_more_room(commands)
    }

    /// Room for the clients of these too.
    fn make_more_room(&mut self, commands: &[Command]) -> Result<(), NoMemory>
        ensures same { self.new.waiting ≡ self.old.waiting }
        ensures room { OnOk result (self.new.next
            ≡ with_waiters self.old.next (map (λ c. (c.client, c.seq)) commands.now)) }
    {
        match commands {
            [] => Ok(()),
            [first, rest @ ..] => {
                self.make_one_room((first.client, first.seq))?;
                self.make_more_room(rest)
            }
        }
    }

    /// Room for one more.
    fn make_one_room(&mut self, waiter: Waiter) -> Result<(), NoMemory>
        ensures same { self.new.waiting ≡ self.old.waiting }
        ensures room { OnOk result (self.new.next ≡ with_waiters self.old.next (waiter ∷ [])) }
    {
        self.coming.reserve(1)?;
        if self.pairs.insert(waiter)? {
            self.coming.push_reserved(waiter);
        }
        Ok(())
    }

    /// Whoever has room waits from now on. It takes no memory.
    pub fn let_wait(&mut self)
        ensures waiting { self.new.waiting ≡ self.old.next }
        ensures next { self.new.next ≡ self.old.next }
    {
        self.coming.clear();
    }

    /// The client waits for the number no longer; says whether it did. Room that was made is given up. It
    /// takes no memory.
    pub fn remove(&mut self, client: u64, seq: u64) -> bool
        ensures waited { result ≡ waits self.old.waiting client seq }
        ensures others { self.new.waiting ≡ without_waiting self.old.waiting client seq }
        ensures room { self.new.next ≡ self.new.waiting }
    {
        take_out(&mut self.pairs, &mut self.coming);
        self.pairs.remove(&(client, seq))
    }

    /// Gives up the room that was made. It takes no memory.
    pub fn give_up_room(&mut self)
        ensures waiting { self.new.waiting ≡ self.old.waiting }
        ensures next { self.new.next ≡ self.old.waiting }
    {
        take_out(&mut self.pairs, &mut self.coming);
    }
}

#[tactic(auto, using(crate::proofs::Coming::without_last))]
/// Takes out the pairs that don't wait yet, the last of them first.
fn take_out(pairs: &mut BTreeSet<Waiter>, coming: &mut Vec<Waiter>)
    ensures pairs { pairs.new.keys ≡ without_coming pairs.old.keys coming.old.items }
    ensures coming { coming.new.items ≡ [] }
{
    while let Some(waiter) = coming.pop() {
        pairs.remove(&waiter);
    }
}
