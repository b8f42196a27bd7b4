//! What a node did, as serving knows it.
ghost use Rattle.std.specs.Prelude.{◌≡◌, IfOk, IfSome};
ghost use Rattle.op_command.specs.Ranges.{OutcomeInRange};
ghost use Rattle.op_bounds.specs.Messages.{OutcomeInRange as IsOutcomeOf};
ghost use Rattle.op_types.specs.Ranges.{IsPid};
ghost use Rattle.op_core.specs.NodeCores.{handed, handed_again};

use op_node::StepFail as NodeFail;
use op_serving::StepFail;
use op_store::StoreFail;
use op_types::{Given, Outcome, Refusal, Replies, Sends};

/// What a step of a node did.
pub fn hand_on(done: Result<Given, NodeFail>) -> Result<Given, StepFail>
    ensures { result ≡ handed done }
{
    match done {
        Ok(given) => Ok(given),
        Err(NodeFail::DiskFail { count }) => Err(StepFail::DiskFail { count }),
        Err(NodeFail::NoMemory) => Err(StepFail::NoMemory),
    }
}

/// What an opening of a node that failed did.
pub fn hand_on_again(done: Result<Sends, StoreFail>) -> Result<Given, StepFail>
    ensures { result ≡ handed_again done }
{
    match done {
        Ok(sends) => {
            let sends = sends.into_vec();
            let alloc = *sends.allocator();
            Ok(Given {
                sends: Sends::from_vec(sends),
                replies: Replies::new(alloc),
                read_replies: Replies::new(alloc),
                outcome: None,
            })
        }
        Err(StoreFail::DiskFault { count }) => Err(StepFail::DiskFail { count }),
        Err(StoreFail::Damaged { .. } | StoreFail::NewerVersion { .. }) => Err(StepFail::Damaged),
        Err(StoreFail::NoMemory) => Err(StepFail::NoMemory),
    }
}

/// The count of faults in an outcome fits its type.
pub fn count_fits(outcome: &Option<Outcome>)
    ensures { IfSome outcome.now (IsOutcomeOf IsPid) → IfSome outcome.now OutcomeInRange }
{
    if let Some(Outcome::Refused(Refusal::StorageFailed { count })) = outcome {
        let _fits = *count;
    }
}
