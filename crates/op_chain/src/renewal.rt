//! A node goes on in another configuration, or in none.
ghost use Rattle.std.specs.Prelude.{◌≡◌, ◌++◌, Some, None, is_some, option_copied, length, IfOk, OnOk};
ghost use Rattle.op_types.specs.declared.messages.Body.TheVariants.{PrepareReq};
ghost use Rattle.op_protocol.specs.Parts.{others, to_each};
ghost use Rattle.op_chain.specs.Plans.{BeginsAnew, told_anew, service_in};

use op_instance::{Volatile, first_volatile, spare_volatile};
use op_kv::Map;
use op_types::{Body, Joining, Members, Msg, NoMemory, Pid, Replies, Sends, is_among};
use std::alloc::Global;
use std::marker::Model;

/// What a node has in memory when it goes on in another configuration, or in none: all that it kept of its
/// part begins anew.
#[derive(Drop)]
pub(crate) struct Renewal {
    pub(crate) volatile: Volatile,
    /// The service, where it is read anew from a base; else it stays as the step leaves it.
    pub(crate) service: Option<Map>,
    /// Those whose buffered proposals are given up.
    pub(crate) given_up: Replies,
}

/// What begins anew, if anything does. It lies on the heap, so that the plans that have none stay small.
#[derive(Drop)]
pub(crate) struct Anew {
    renewal: Option<Box<Renewal>>,
}

impl Model for Anew {
    ghost use Rattle.std.specs.Prelude.{Option, option_map};
    ghost use Rattle.op_chain.specs.declared.renewal.Renewal.{Renewal};

    ghost Value = { Option Renewal };

    ghost view = { λ a. option_map (λ b. b.value) a.renewal };
}

impl Anew {
    /// Nothing begins anew.
    pub(crate) fn nothing() -> Anew
        ensures { result ≡ None }
    {
        Anew { renewal: None }
    }

    /// This begins anew.
    pub(crate) fn from_renewal(alloc: Global, renewal: Renewal) -> Result<Anew, NoMemory>
        ensures { IfOk result (λ a. a ≡ Some renewal) }
    {
        let renewal = Box::new(alloc, renewal)?;
        Ok(Anew {
            renewal: Some(renewal),
        })
    }

    /// What begins anew.
    pub(crate) fn into_renewal(self) -> Option<Renewal>
        ensures { result ≡ self }
    {
        let boxed = self.renewal?;
        Some(Box::into_inner(boxed))
    }

    /// The service, where it is read anew.
    pub(crate) fn service(&self) -> Option<&Map>
        ensures { option_copied result ≡ service_in self.now }
    {
        self.renewal.as_ref()?.service.as_ref()
    }

    /// Whether something begins anew.
    pub(crate) fn is_some(&self) -> bool
        ensures { result ≡ is_some self.now }
    {
        self.renewal.is_some()
    }

    /// How many proposals are given up with it.
    pub(crate) fn count_given_up(&self) -> usize
        ensures { result ≡ length (told_anew self.now) }
    {
        match &self.renewal {
            Some(renewal) => renewal.given_up.len(),
            None => 0,
        }
    }
}

/// What a server keeps in memory that goes on in a configuration of these members, if it is one of them.
pub(crate) fn begin(alloc: Global, me: Pid, members: &Members) -> Result<Volatile, NoMemory>
    ensures { IfOk result (BeginsAnew me members.now) }
{
    if is_among(members.as_slice(), me) {
        first_volatile(alloc, me, members)
    } else {
        spare_volatile(alloc, me)
    }
}

/// Each other member of the configuration that is joined is asked to prepare this node, if it leads.
pub(crate) fn push_requests(sends: &mut Sends, me: Pid, joining: &Joining) -> Result<(), NoMemory>
    ensures { OnOk result (sends.new
        ≡ sends.old ++ to_each joining.now.conf (others me joining.now.members) PrepareReq) }
{
    for pid in joining.members.as_slice() {
        if *pid != me {
            let conf = joining.conf;
            let body = Body::PrepareReq;
            sends.push((*pid, Msg { conf, body }))?;
        }
    }
    Ok(())
}
