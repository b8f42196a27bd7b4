ghost use Rattle.std.specs.Prelude.{◌≡◌, ◌∷◌, [], IfOk};
ghost use Rattle.op_plans.specs.Plans.{plan_after};

use op_types::{Batch, Plan, Replies, Sends, Seq};
use std::alloc::{AllocError as NoMemory, Global};

/// A list of one item.
pub fn one<T: Drop>(alloc: Global, item: T) -> Result<Seq<T>, NoMemory>
    ensures { IfOk result (λ all. all ≡ item ∷ []) }
{
    let mut all = Seq::new(alloc);
    all.push(item)?;
    Ok(all)
}

/// A plan, after these changes, messages and replies.
pub fn first(batch: Batch, sends: Sends, replies: Replies, plan: Plan) -> Result<Plan, NoMemory>
    ensures { IfOk result (λ x. x ≡ plan_after batch sends replies plan) }
{
    plan.behind(batch, sends, replies)
}
