//! A part is trimmed. The base that stands in place of what is trimmed is put in above.
ghost use Rattle.std.specs.Prelude.{◌≡◌, ◌∷◌, [], IfOk};
ghost use Rattle.op_types.specs.Effects.{nothing_plan, effects_of};
ghost use Rattle.op_types.specs.Roles.{role_of, HasRoom};
ghost use Rattle.op_types.specs.declared.changes.Change.TheVariants as change;
ghost use Rattle.op_types.specs.declared.messages.Body.TheVariants as body;
ghost use Rattle.op_protocol.specs.Parts.{others, to_each};
ghost use Rattle.op_protocol.specs.Trimming.{on_trim};
ghost use Rattle.op_trim.specs.Plans.{trims_plan};

use op_plans::{Member, one};
use op_types::{Batch, Blob, Body, Change, Plan, Role};
use std::alloc::{AllocError as NoMemory, Global};

/// All members have decided so much: it is trimmed, where it isn't yet and where this node has decided it
/// too.
pub fn on_trim(member: &Member, role: &Role, x: u64) -> Result<Plan, NoMemory>
    ensures row { IfOk result (λ plan.
        effects_of role.now plan ≡ on_trim member.now.part.now (role_of role.now) x) }
    ensures room { IfOk result (λ plan. HasRoom plan.turn role.now) }
{
    let part = member.part;
    let mut plan = member.nothing();
    if part.trimmed < x && x <= part.decided {
        plan.batch = trim_batch(member.alloc, x)?;
    }
    Ok(plan)
}

/// So much is trimmed. The base of a plan is empty; it is put in above.
fn trim_batch(alloc: Global, x: u64) -> Result<Batch, NoMemory>
    ensures { IfOk result (λ batch. batch ≡ change.Trim x [] ∷ []) }
{
    one(alloc, Change::Trim(x, Blob::from_vec(Vec::new(alloc))?))
}

/// The leader trims so much and tells the others, where that isn't trimmed yet.
pub(crate) fn trims(member: &Member, x: u64) -> Result<Plan, NoMemory>
    ensures { IfOk result (λ plan. plan ≡ trims_plan member.now.me member.now.part.now x) }
{
    if member.part.trimmed < x {
        trims_more(member, x)
    } else {
        Ok(member.nothing())
    }
}

/// So much is trimmed, and the others are told.
fn trims_more(member: &Member, x: u64) -> Result<Plan, NoMemory>
    ensures { IfOk result (λ plan. plan ≡ record nothing_plan {
      batch = change.Trim x [] ∷ [];
      sends = to_each member.now.part.now.conf (others member.now.me member.now.part.now.members)
          (body.Trim x);
    }) }
{
    let mut plan = member.nothing();
    plan.batch = trim_batch(member.alloc, x)?;
    plan.sends = member.to_others(&Body::Trim(x))?;
    Ok(plan)
}
