ghost use Rattle.std.specs.Prelude.{◌≡◌, false, None, option_map, IsSome, IfSome, IfOk, OnOk, OnErr};
ghost use Rattle.op_types.specs.Rooms.{with_room, no_needs};
ghost use Rattle.op_types.specs.declared.events.Input as input;
ghost use Rattle.op_protocol.specs.Rows.{step_plan};
ghost use Rattle.op_protocol.specs.Starting as starts;
ghost use Rattle.op_runs.specs.World.{state_after_reopening};
ghost use Rattle.op_chain.specs.Chains.{first_state, ballots_in, pairs_in, CanOpen};
ghost use Rattle.op_server.specs.Asking.{is_read};
ghost use Rattle.op_server.specs.Plans.{HasRoomBehind, Plans, given_with, Adopts};
ghost use Rattle.op_server.specs.Servers.{state_of, IsSoundServer, IsSame, Admits};

use crate::asking::is_read;
use crate::reading::{Besides, Reading, asked_then};
use crate::server_plan::ServerPlan;
use op_chain::{Chain, Map};
use op_reads::Reads;
use op_types::{Ballot, Durable, Given, Input, NoMemory, Pid, Replies};
use std::alloc::Global;

/// A node over its configurations, with the reads that wait at it.
pub struct Server {
    pub(crate) alloc: Global,
    pub(crate) chain: Chain,
    /// Those of the ballot that it leads, from the first one on.
    pub(crate) reads: Option<Reads>,
}

/// Letting go of it is one call for whoever holds it.
impl Drop for Server {
    fn drop(self) {
        let Server {
            alloc: _,
            chain: _,
            reads: _,
        } = self;
    }
}

impl Server {
    /// A node at its first start, which has stored this. Its service keeps nothing, and nobody waits.
    pub fn first(alloc: Global, me: Pid, durable: Durable) -> Result<Server, NoMemory>
        requires { CanOpen me durable }
        ensures me { IfOk result (λ s. s.chain.me ≡ me) }
        ensures state { IfOk result (λ s. state_of s ≡ first_state me durable) }
        ensures sound { IfOk result IsSoundServer }
    {
        let chain = Chain::first(alloc, me, durable)?;
        Ok(Server {
            alloc,
            chain,
            reads: None,
        })
    }

    /// A node that is opened again, and has stored this. Its service is made anew from its base and what is
    /// decided behind it, and nobody waits.
    pub fn again(alloc: Global, me: Pid, durable: Durable) -> Result<Server, NoMemory>
        requires { CanOpen me durable }
        ensures me { IfOk result (λ s. s.chain.me ≡ me) }
        ensures state { IfOk result (λ s. state_of s ≡ starts.state_after_restart me durable) }
        ensures sound { IfOk result IsSoundServer }
    {
        let chain = Chain::again(alloc, me, durable)?;
        Ok(Server {
            alloc,
            chain,
            reads: None,
        })
    }

    /// Opens the node again in place, which has stored this: all that it keeps in memory begins anew, but for
    /// the clients that wait, which wait still, and its reads are lost. Without memory it stays as it is.
    pub fn reopen(&mut self, durable: Durable) -> Result<(), NoMemory>
        requires { CanOpen self.old.chain.me durable }
        ensures me { self.new.chain.me ≡ self.old.chain.me }
        ensures state { OnOk result (state_of self.new
            ≡ state_after_reopening self.old.chain.me (state_of self.old) durable) }
        ensures sound { OnOk result (IsSoundServer self.new) }
        ensures unchanged { OnErr result (self.new ≡ self.old) }
    {
        self.chain.reopen(durable)?;
        self.reads = None;
        Ok(())
    }

    /// What a step is to do, with all the memory that it takes. Nothing changes but room, and a plan may be
    /// dropped.
    pub fn plan(&mut self, input: Input) -> Result<ServerPlan, NoMemory>
        requires { Admits self.old input }
        ensures same { IsSame self.old self.new }
        ensures plans { IfOk result (λ plan. Plans self.new input plan) }
    {
        if self.reads.is_some() || is_read(&input) {
            self.plan_reading(input)
        } else {
            self.plan_alone(input)
        }
    }

    /// The same, where no read waits and none comes.
    fn plan_alone(&mut self, input: Input) -> Result<ServerPlan, NoMemory>
        requires admits { Admits self.old input }
        requires none { self.old.reads ≡ None }
        requires other { is_read input ≡ false }
        ensures same { IsSame self.old self.new }
        ensures plans { IfOk result (λ plan. Plans self.new input plan) }
    {
        let chain = self.chain.plan(input)?;
        Ok(ServerPlan {
            chain,
            reading: Besides::nothing(),
        })
    }

    /// The same, of reads that wait, or of one that comes.
    fn plan_reading(&mut self, input: Input) -> Result<ServerPlan, NoMemory>
        requires { Admits self.old input }
        ensures same { IsSame self.old self.new }
        ensures plans { IfOk result (λ plan. Plans self.new input plan) }
    {
        let asking = self.asking(&input)?;
        let chain = self.chain.plan(input)?;
        let reading = self.reading(asking, &chain)?;
        Ok(ServerPlan { chain, reading })
    }

    /// The plan takes effect. It can't fail, and takes no memory.
    pub fn adopt(&mut self, plan: ServerPlan) -> Given
        requires { (x : input.Input) × Plans self.old x plan }
        ensures { (x : input.Input) → Plans self.old x plan →
            Adopts self.old (step_plan self.old.chain.me (state_of self.old) x) self.new result }
    {
        let (chain, reading) = plan.into_parts();
        let given = self.chain.adopt(chain);
        if reading.is_some() {
            return self.adopt_reading(reading, given);
        }
        self.reads = None;
        Given {
            sends: given.sends,
            replies: given.replies,
            read_replies: Replies::new(self.alloc),
            outcome: given.outcome,
        }
    }

    /// What comes of the reads takes effect, and is given out with what the chain gave out.
    fn adopt_reading(&mut self, reading: Besides, given: op_chain::Given) -> Given
        requires some { IsSome reading }
        requires room { IfSome reading (HasRoomBehind given.sends) }
        ensures reads { IfSome reading (λ r. self.new ≡ record self.old { reads = r.reads }) }
        ensures given { IfSome reading (λ r. result ≡ given_with r given) }
    {
        let Some(
            Reading {
                reads,
                asked,
                replies,
                outcome,
            },
        ) = reading.into_reading()
        else {
            unreachable!()
        };
        self.reads = reads;
        Given {
            sends: asked_then(asked, given.sends),
            replies: given.replies,
            read_replies: replies,
            outcome: outcome.or(given.outcome),
        }
    }

    /// Whose node this is.
    pub fn me(&self) -> Pid
        ensures { result ≡ self.now.chain.me }
    {
        self.chain.me()
    }

    /// What is stored.
    pub fn durable(&self) -> &Durable
        ensures { with_room no_needs result.now ≡ (state_of self.now).durable }
    {
        self.chain.durable()
    }

    /// What is stored, without what is kept in memory. Room that was made for a batch is given up.
    pub fn into_durable(self) -> Durable
        ensures { result ≡ (state_of self).durable }
    {
        let Server {
            alloc: _,
            chain,
            reads: _,
        } = self;
        chain.into_durable()
    }

    /// The service, after all that is decided.
    pub fn service(&self) -> &Map
        ensures { result.now.service ≡ (state_of self.now).service }
    {
        self.chain.service()
    }

    /// The ballot that the node stands for, its leader's as far as it knows, and the one that it promised;
    /// none without a part.
    pub fn ballots(&self) -> Option<(Ballot, Ballot, Ballot)>
        ensures { result ≡ ballots_in (state_of self.now).volatile (state_of self.now).durable.part }
    {
        self.chain.ballots()
    }

    /// The service, whose pairs stand there to be read; none without a part.
    pub fn pairs(&self) -> Option<&Map>
        ensures { option_map (λ m. m.now.service.pairs) result
            ≡ pairs_in (state_of self.now).service (state_of self.now).durable.part }
    {
        self.chain.pairs()
    }
}
