//! Reads that a step answers, or gives up.
ghost use Rattle.std.specs.Prelude.{◌≡◌, false, map, Some, None, option_map, if◌then◌else◌, IfOk, OnOk};
ghost use Rattle.op_types.specs.declared.events.Input as input;
ghost use Rattle.op_reads.specs.Reads.{without_answered};
ghost use Rattle.op_protocol.specs.Reading as table;
ghost use Rattle.op_protocol.specs.Reading.{read_reply, dropped_read, leads_on, adopted_of, answered_of, given_up_in};
ghost use Rattle.op_chain.specs.Plans as chains;
ghost use Rattle.op_server.specs.Answering.{decided_by, kept_reads, told_reads};
ghost use Rattle.op_server.specs.Plans.{asking_of, with_reading, HasRoomToSend};
ghost use Rattle.op_server.specs.Servers.{state_of, IsSoundServer};

use crate::asking::Asking;
use crate::reading::{Besides, Reading, with_room};
use crate::server::Server;
use op_chain::ReadyPlan;
use op_reads::{AskedRead, Reads};
use op_types::{Answer, Cause, NoMemory, Replies, Reply};
use std::alloc::Global;

impl Server {
    /// What comes of the reads, where an input asks this, and this is the plan without them.
    pub(crate) fn reading(&self, asking: Asking, plan: &ReadyPlan) -> Result<Besides, NoMemory>
        requires sound { IsSoundServer self.now }
        requires plans { (x : input.Input) × chains.Plans self.now.chain x plan.now }
        ensures reading { IfOk result (λ b. (x : input.Input) →
            asking_of asking ≡ table.asking_by self.now.chain.me (state_of self.now) x →
            with_reading b (chains.planned_by self.now.chain plan.now)
            ≡ table.reading self.now.chain.me (state_of self.now) x
            (chains.planned_by self.now.chain plan.now)) }
        ensures room { IfOk result (λ b. HasRoomToSend b plan.now) }
    {
        let Asking {
            mut reads,
            sends,
            outcome,
        } = asking;
        let replies = self.tell(&mut reads, plan)?;
        let asked = with_room(sends, plan.sends().len())?;
        Besides::from_reading(
            self.alloc,
            Reading {
                reads,
                asked,
                replies,
                outcome,
            },
        )
    }

    /// What is told of reads: those that can be answered are, or all are given up where the node doesn't lead
    /// on.
    fn tell(&self, reads: &mut Option<Reads>, plan: &ReadyPlan) -> Result<Replies, NoMemory>
        requires sound { IsSoundServer self.now }
        requires plans { (x : input.Input) × chains.Plans self.now.chain x plan.now }
        ensures reads { OnOk result (reads.new
            ≡ kept_reads (state_of self.now) (chains.planned_by self.now.chain plan.now) reads.old) }
        ensures replies { IfOk result (λ replies. replies
            ≡ told_reads (state_of self.now) (chains.planned_by self.now.chain plan.now) reads.old) }
    {
        match self.leads_on(plan) {
            Some(adopted_len) => self.answer(reads, plan, adopted_len),
            None => {
                *reads = None;
                self.give_up(plan)
            }
        }
    }

    /// How long the log was that the leader adopted, where the node leads the same ballot before and after.
    fn leads_on(&self, plan: &ReadyPlan) -> Option<u64>
        requires { (x : input.Input) × chains.Plans self.now.chain x plan.now }
        ensures { let role = (chains.planned_by self.now.chain plan.now).volatile.role in
            result ≡ (if leads_on (state_of self.now).volatile.role role then Some (adopted_of role) else None) }
    {
        let before = self.chain.lead()?;
        let after = self.chain.lead_after(plan)?;
        if before.ballot.is_same(after.ballot) {
            Some(after.adopted_len)
        } else {
            None
        }
    }

    /// Takes out the reads that can be answered, with their answers.
    fn answer(
        &self,
        reads: &mut Option<Reads>,
        plan: &ReadyPlan,
        adopted_len: u64,
    ) -> Result<Replies, NoMemory>
        requires { (x : input.Input) × chains.Plans self.now.chain x plan.now }
        ensures reads { let p = chains.planned_by self.now.chain plan.now in
            OnOk result (reads.new
            ≡ option_map (λ r. without_answered r (decided_by (state_of self.now) p) adopted_len) reads.old) }
        ensures replies { let p = chains.planned_by self.now.chain plan.now in
            IfOk result (λ replies. replies ≡ map (read_reply p.service)
            (answered_of reads.old (decided_by (state_of self.now) p) adopted_len)) }
    {
        let Some(reads) = reads else {
            return Ok(Replies::new(self.alloc));
        };
        let decided = self.chain.decided_after(plan);
        let answered = reads.ready(self.alloc, decided, adopted_len)?;
        self.values(plan, answered.as_slice())
    }

    /// What these reads are answered: the values of their keys.
    fn values(&self, plan: &ReadyPlan, asked: &[AskedRead]) -> Result<Replies, NoMemory>
        requires { (x : input.Input) × chains.Plans self.now.chain x plan.now }
        ensures { IfOk result (λ replies. replies
            ≡ map (read_reply (chains.planned_by self.now.chain plan.now).service) asked.now) }
    {
        let mut replies = Replies::new(self.alloc);
        for read in asked {
            replies.push(self.value(plan, read)?)?;
        }
        Ok(replies)
    }

    /// What a read is answered: the value of its key.
    fn value(&self, plan: &ReadyPlan, asked: &AskedRead) -> Result<Reply, NoMemory>
        requires { (x : input.Input) × chains.Plans self.now.chain x plan.now }
        ensures { IfOk result (λ reply. reply
            ≡ read_reply (chains.planned_by self.now.chain plan.now).service asked.now) }
    {
        let answer = match self.chain.value_after(plan, &asked.read.key) {
            Some(value) => Answer::Value(value.copy()?),
            None => Answer::Absent,
        };
        Ok(Reply {
            client: asked.read.client,
            seq: asked.read.seq,
            answer,
        })
    }

    /// Tells all reads that wait that they are given up.
    fn give_up(&self, plan: &ReadyPlan) -> Result<Replies, NoMemory>
        requires sound { IsSoundServer self.now }
        requires plans { (x : input.Input) × chains.Plans self.now.chain x plan.now }
        ensures { let p = chains.planned_by self.now.chain plan.now in
            leads_on (state_of self.now).volatile.role p.volatile.role ≡ false →
            IfOk result (λ replies. replies ≡ given_up_in (state_of self.now) p) }
    {
        let Some(reads) = &self.reads else {
            return Ok(Replies::new(self.alloc));
        };
        let asked = reads.copy(self.alloc)?.give_up(self.alloc)?;
        dropped(self.alloc, asked.as_slice(), self.chain.why_given_up(plan))
    }
}

/// Tells these reads that they are given up, for this cause.
fn dropped(alloc: Global, asked: &[AskedRead], cause: Cause) -> Result<Replies, NoMemory>
    ensures { IfOk result (λ replies. replies ≡ map (dropped_read cause) asked.now) }
{
    let mut replies = Replies::new(alloc);
    for read in asked {
        replies.push(Reply {
            client: read.read.client,
            seq: read.read.seq,
            answer: Answer::Dropped(cause),
        })?;
    }
    Ok(replies)
}
