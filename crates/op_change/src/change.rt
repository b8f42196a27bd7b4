ghost use Rattle.std.specs.Prelude.{◌≡◌, ◌++◌, OnOk, IfOk, Bool, option_copied};
ghost use Rattle.std.specs.Ordering.{nat_cmp};
ghost use Rattle.std.specs.Cmp.Lexicographic.{slice_cmp};
ghost use Rattle.std.specs.Map.{remove_entry};
ghost use Rattle.std.specs.BTreeMap.{insert_entry, is_at};
ghost use Rattle.op_spec.specs.Service.{
  value_at,
  is_value,
  told_value,
  pairs_written,
  all_written,
  pairs_after,
  effect_answer,
  forgotten_by,
  clients_without,
  last_of,
  answer_of,
  service_with,
  service_with_effect,
  all_after,
};
ghost use Rattle.op_change.specs.Over.{nothing_written, pairs_over, clients_over, service_over, answers_of, told_again};

use crate::Answers;
use crate::tables::Tables;
use op_overlay::Overlay;
use op_types::{Answer, Applied, Blob, Command, Entry, NoMemory, Op, Write};
use std::alloc::Global;
use std::collections::BTreeSet;
use std::marker::Model;

/// What commands wrote that a map has not taken in: pairs, keys that were taken out, the clients' last
/// commands, and clients that were forgotten. A key's pair stands over its being taken out, and a client's
/// command over its being forgotten.
#[derive(Drop)]
pub struct KvChange {
    pub(crate) pairs: Overlay<Blob, Blob>,
    pub(crate) gone: BTreeSet<Blob>,
    pub(crate) clients: Overlay<u64, Applied>,
    pub(crate) forgotten: BTreeSet<u64>,
}

impl Model for KvChange {
    ghost use Rattle.std.specs.List.Sorted.{IsStrictlySortedBy};
    ghost use Rattle.std.specs.Map.{keys_of};
    ghost use Rattle.std.specs.Ordering.{nat_cmp};
    ghost use Rattle.std.specs.Cmp.Lexicographic.{slice_cmp};
    ghost use Rattle.op_change.specs.Over.{Written};

    ghost Value = { Written };

    ghost view = { λ t. record {
      pairs = t.pairs;
      gone = t.gone.keys;
      clients = t.clients;
      forgotten = t.forgotten.keys;
    } };

    ghost invariant = { λ t.
        IsStrictlySortedBy (slice_cmp nat_cmp) (keys_of t.pairs) × IsStrictlySortedBy nat_cmp (keys_of t.clients) };
}

impl KvChange {
    /// Nothing is written.
    pub fn new(alloc: Global) -> Self
        ensures { result ≡ nothing_written }
    {
        KvChange {
            pairs: Overlay::new(alloc),
            gone: BTreeSet::new(alloc),
            clients: Overlay::new(alloc),
            forgotten: BTreeSet::new(alloc),
        }
    }

    /// Serves the commands among these entries, over the tables below, and adds what they are answered.
    pub fn serve_all(
        &mut self,
        alloc: Global,
        below: &Tables,
        answers: &mut Answers,
        entries: &[Entry],
    ) -> Result<(), NoMemory>
        ensures answers { OnOk result (answers.new
            ≡ answers.old ++ answers_of (service_over below.now self.old) entries.now) }
        ensures change { OnOk result (service_over below.now self.new
            ≡ all_after (service_over below.now self.old) entries.now) }
    {
        'entries: for entry in entries {
            if let Entry::Command(command) = entry {
                answers.push(self.serve(alloc, below, command)?)?;
            }
        }
        Ok(())
    }

    /// What the service of the tables below and of this change answers a command, which takes its effect
    /// here.
    pub fn serve(
        &mut self,
        alloc: Global,
        below: &Tables,
        command: &Command,
    ) -> Result<Answer, NoMemory>
        ensures answer { IfOk result (λ a. a ≡ answer_of (service_over below.now self.old) command.now) }
        ensures effect { OnOk result (service_over below.now self.new
            ≡ service_with (service_over below.now self.old) command.now) }
    {
        match self.told_again(alloc, below, command.client, command.seq)? {
            Some(answer) => Ok(answer),
            None => self.take_effect(alloc, below, command),
        }
    }

    /// What a number is answered that isn't above its client's last one: the last one's answer, or that it is
    /// stale.
    fn told_again(
        &self,
        alloc: Global,
        below: &Tables,
        client: u64,
        seq: u64,
    ) -> Result<Option<Answer>, NoMemory>
        ensures { IfOk result (λ a. a ≡ told_again (last_of (service_over below.now self.now) client) seq) }
    {
        match self.last_of(below, client) {
            Some(last) if seq < last.seq => Ok(Some(Answer::Stale)),
            Some(last) if seq == last.seq => Ok(Some(last.answer.copy()?)),
            _ => Ok(None),
        }
    }

    /// The command takes its effect, and its answer is kept.
    fn take_effect(
        &mut self,
        alloc: Global,
        below: &Tables,
        command: &Command,
    ) -> Result<Answer, NoMemory>
        ensures answer { IfOk result (λ a. a
            ≡ effect_answer command.now.op (pairs_over below.now.pairs self.old)) }
        ensures effect { OnOk result (service_over below.now self.new
            ≡ service_with_effect (service_over below.now self.old) command.now) }
    {
        let answer = self.apply(alloc, below, &command.op)?;
        let last = Applied {
            seq: command.seq,
            answer: answer.copy()?,
        };
        self.keep_last(below, command.client, last)?;
        Ok(answer)
    }

    /// The operation takes its effect on the pairs, or on what is kept of a client.
    fn apply(&mut self, alloc: Global, below: &Tables, op: &Op) -> Result<Answer, NoMemory>
        ensures answer { IfOk result (λ a. a ≡ effect_answer op.now (pairs_over below.now.pairs self.old)) }
        ensures pairs { OnOk result (pairs_over below.now.pairs self.new
            ≡ pairs_after op.now (pairs_over below.now.pairs self.old)) }
        ensures clients { OnOk result (clients_over below.now.clients self.new
            ≡ clients_without (forgotten_by op.now) (clients_over below.now.clients self.old)) }
    {
        match op {
            Op::Put(key, value) => self.put(alloc, below, key, value),
            Op::Del(key) => self.delete(alloc, below, key),
            Op::Get(key) => self.tell(alloc, below, key),
            Op::Cas(key, old, new) => {
                if self.has_value(below, key, old) {
                    self.put(alloc, below, key, new)
                } else {
                    self.tell(alloc, below, key)
                }
            }
            Op::Many(writes) => self.write_all(alloc, below, writes.as_slice()),
            Op::Forget(client) => self.forget(below, *client),
        }
    }

    /// These are written, from the left.
    fn write_all(
        &mut self,
        alloc: Global,
        below: &Tables,
        writes: &[Write],
    ) -> Result<Answer, NoMemory>
        ensures answer { IfOk result (λ a. a ≡ Answer.Done) }
        ensures pairs { OnOk result (pairs_over below.now.pairs self.new
            ≡ all_written (pairs_over below.now.pairs self.old) writes.now) }
        ensures clients { OnOk result
            (clients_over below.now.clients self.new ≡ clients_over below.now.clients self.old) }
    {
        let mut left = writes;
        'writes: while let Some((write, rest)) = left.split_first() {
            self.write(alloc, below, write)?;
            left = rest;
        }
        Ok(Answer::Done)
    }

    /// The key gets the value, or is taken out.
    fn write(&mut self, alloc: Global, below: &Tables, write: &Write) -> Result<Answer, NoMemory>
        ensures answer { IfOk result (λ a. a ≡ Answer.Done) }
        ensures pairs { OnOk result (pairs_over below.now.pairs self.new
            ≡ pairs_written (pairs_over below.now.pairs self.old) write.now) }
        ensures clients { OnOk result
            (clients_over below.now.clients self.new ≡ clients_over below.now.clients self.old) }
    {
        match write {
            Write::Put(key, value) => self.put(alloc, below, key, value),
            Write::Del(key) => self.delete(alloc, below, key),
        }
    }

    /// The key gets the value.
    fn put(
        &mut self,
        alloc: Global,
        below: &Tables,
        key: &Blob,
        value: &Blob,
    ) -> Result<Answer, NoMemory>
        ensures answer { IfOk result (λ a. a ≡ Answer.Done) }
        ensures pairs { OnOk result (pairs_over below.now.pairs self.new
            ≡ insert_entry (slice_cmp nat_cmp) (pairs_over below.now.pairs self.old) key.now value.now) }
        ensures clients { OnOk result
            (clients_over below.now.clients self.new ≡ clients_over below.now.clients self.old) }
    {
        let _ = &below.pairs;
        self.pairs.insert(key.copy()?, value.copy()?)?;
        Ok(Answer::Done)
    }

    /// The key is taken out.
    fn delete(&mut self, alloc: Global, below: &Tables, key: &Blob) -> Result<Answer, NoMemory>
        ensures answer { IfOk result (λ a. a ≡ Answer.Done) }
        ensures pairs { OnOk result (pairs_over below.now.pairs self.new
            ≡ remove_entry (is_at (slice_cmp nat_cmp key.now)) (pairs_over below.now.pairs self.old)) }
        ensures clients { OnOk result
            (clients_over below.now.clients self.new ≡ clients_over below.now.clients self.old) }
    {
        let _ = &below.pairs;
        self.gone.insert(key.copy()?)?;
        self.pairs.remove(key)?;
        Ok(Answer::Done)
    }

    /// What is kept of the client's last command goes.
    fn forget(&mut self, below: &Tables, client: u64) -> Result<Answer, NoMemory>
        ensures answer { IfOk result (λ a. a ≡ Answer.Done) }
        ensures pairs { OnOk result
            (pairs_over below.now.pairs self.new ≡ pairs_over below.now.pairs self.old) }
        ensures clients { OnOk result (clients_over below.now.clients self.new
            ≡ remove_entry (is_at (nat_cmp client)) (clients_over below.now.clients self.old)) }
    {
        let _ = &below.clients;
        self.forgotten.insert(client)?;
        self.clients.remove(&client)?;
        Ok(Answer::Done)
    }

    /// What tells the key's value.
    fn tell(&self, alloc: Global, below: &Tables, key: &Blob) -> Result<Answer, NoMemory>
        ensures { IfOk result (λ a. a ≡ told_value (value_at key.now (pairs_over below.now.pairs self.now))) }
    {
        match self.value_of(below, key) {
            Some(value) => Ok(Answer::Value(value.copy()?)),
            None => Ok(Answer::Absent),
        }
    }

    /// Whether the key has this value.
    fn has_value(&self, below: &Tables, key: &Blob, value: &Blob) -> bool
        ensures { result ≡ is_value value.now (value_at key.now (pairs_over below.now.pairs self.now)) }
    {
        match self.value_of(below, key) {
            Some(found) => found == value,
            None => false,
        }
    }

    /// A key's value, as it is written here or else stands below.
    pub fn value_of<'a>(&'a self, below: &'a Tables, key: &Blob) -> Option<&'a Blob>
        ensures { option_copied result ≡ value_at key.now (pairs_over below.now.pairs self.now) }
    {
        let _ = &below.pairs;
        match self.pairs.get(key) {
            Some(value) => Some(value),
            None if self.gone.contains(key) => None,
            None => below.pairs.get(key),
        }
    }

    /// The client's last command is this one.
    fn keep_last(&mut self, below: &Tables, client: u64, last: Applied) -> Result<(), NoMemory>
        ensures clients { OnOk result (clients_over below.now.clients self.new
            ≡ insert_entry nat_cmp (clients_over below.now.clients self.old) client last) }
        ensures rest { OnOk result (self.new ≡ record self.old { clients = self.new.clients }) }
    {
        let _ = &below.clients;
        self.clients.insert(client, last)?;
        Ok(())
    }

    /// A client's last command, as it is kept here or else below, where it isn't forgotten.
    fn last_of<'a>(&'a self, below: &'a Tables, client: u64) -> Option<&'a Applied>
        ensures { option_copied result ≡ last_of (service_over below.now self.now) client }
    {
        let _ = &below.clients;
        match self.clients.get(&client) {
            Some(last) => Some(last),
            None if self.forgotten.contains(&client) => None,
            None => below.clients.get(&client),
        }
    }
}
