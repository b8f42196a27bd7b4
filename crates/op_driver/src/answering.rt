//! What the driver makes of what steps answer: each input is counted, and then each answer is handed out.
ghost use Rattle.std.specs.Prelude.{◌≡◌, ◌<◌, ◌≤◌, [], length, vec_capacity, false, All, IfOk, IfSome, None, if◌then◌else◌};
ghost use Rattle.op_serving.specs.Ranges.{GivenInRange, WantedInRange};
ghost use Rattle.op_serving.specs.Losses.{most_marks, last_count, settled, Does};
ghost use Rattle.op_serving.specs.Handing.{handed_out, proposed};
ghost use Rattle.op_driver.specs.Answering.{answered, answered_all, counting, counting_all, given_up_unless, is_fault, is_lost};

use op_queues::{Results, Sessions};
use op_serving::{Given, StepFail, Wanted};
use op_types::Refusal;

/// Each input is counted, up to one that found no memory, which is marked.
pub fn count_all(sessions: &mut Sessions, results: &[Result<Given, StepFail>])
    requires { length sessions.old.lost < most_marks }
    ensures counted { sessions.new ≡ counting_all results.now sessions.old }
    ensures short { 0 < length results.now → sessions.old.place.inputs ≤ last_count }
{
    for result in results {
        count(sessions, result);
        if is_lost(result) {
            return;
        }
    }
}

/// An input is counted, and marked where it found no memory.
pub fn count(sessions: &mut Sessions, answer: &Result<Given, StepFail>)
    requires { length sessions.old.lost < most_marks }
    ensures counted { sessions.new ≡ counting answer.now sessions.old }
    ensures short { sessions.old.place.inputs ≤ last_count }
{
    if is_lost(answer) {
        sessions.lose_input();
    } else {
        sessions.count_input();
    }
}

/// Whether an input found no memory.
fn is_lost(answer: &Result<Given, StepFail>) -> bool
    ensures { result ≡ is_lost answer.now }
{
    matches!(answer, Err(StepFail::NoMemory))
}

/// Each answer is handed out, in their order. What clients asked for belongs to the last.
pub fn answer_all(sessions: &mut Sessions, results: &mut Results, mut wanted: Option<Wanted>)
    requires given { All (λ r. IfOk r GivenInRange) results.old.items }
    requires wanted { IfSome wanted WantedInRange }
    ensures does { Does (λ marks s. settled marks (answered_all wanted false results.old.items s))
        sessions.old sessions.new }
    ensures none { results.new.items ≡ [] }
    ensures room { vec_capacity results.new ≡ vec_capacity results.old }
{
    let mut failed = false;
    results.reverse();
    'answers: while let Some(result) = results.pop() {
        let asked = take_if(results.is_empty(), &mut wanted);
        let fails = is_fault(&result);
        answer(sessions, asked, failed, result);
        failed |= fails;
    }
}

/// What clients asked for, if this is with the last input. Then it is nobody's.
pub fn take_if(is_last: bool, wanted: &mut Option<Wanted>) -> Option<Wanted>
    ensures taken { result ≡ if is_last then wanted.old else None }
    ensures left { wanted.new ≡ if is_last then None else wanted.old }
{
    if is_last { wanted.take() } else { None }
}

/// Whether a disk failed.
fn is_fault(answer: &Result<Given, StepFail>) -> bool
    ensures { result ≡ is_fault answer.now }
{
    matches!(answer, Err(StepFail::DiskFail { .. }))
}

/// An answer is handed out. Where a disk failed, and none had before, nobody waits any more.
pub fn answer(
    sessions: &mut Sessions,
    wanted: Option<Wanted>,
    failed: bool,
    answer: Result<Given, StepFail>,
)
    requires given { IfOk answer GivenInRange }
    requires wanted { IfSome wanted WantedInRange }
    ensures { Does (λ marks s. settled marks (answered wanted failed answer s))
        sessions.old sessions.new }
{
    match answer {
        Ok(given) => hand_out(sessions, wanted, given),
        Err(StepFail::DiskFail { count }) => {
            give_up_unless(failed, sessions, count);
            sessions.excuse(wanted, Some(Refusal::StorageFailed { count }));
        }
        Err(StepFail::Damaged) => {}
        Err(StepFail::NoMemory) => sessions.excuse(wanted, None),
    }
}

/// A disk failed: nobody waits any more, unless one had failed before.
fn give_up_unless(failed: bool, sessions: &mut Sessions, count: u64)
    ensures { Does (λ marks s. settled marks (given_up_unless failed count s)) sessions.old sessions.new }
{
    if !failed {
        sessions.give_up(count);
    }
}

/// What a step gives out, and what becomes of what was asked for.
fn hand_out(sessions: &mut Sessions, wanted: Option<Wanted>, given: Given)
    requires given { GivenInRange given }
    requires wanted { IfSome wanted WantedInRange }
    ensures { Does (λ marks s. settled marks (handed_out given (proposed wanted given.outcome s)))
        sessions.old sessions.new }
{
    let Given {
        sends,
        replies,
        read_replies,
        outcome,
    } = given;
    sessions.propose(wanted, outcome);
    sessions.send_all(sends);
    sessions.reply_all(false, replies);
    sessions.reply_all(true, read_replies);
}
