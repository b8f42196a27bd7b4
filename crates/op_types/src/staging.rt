//! Parts of promises are staged until all of a promise is there.
ghost use Rattle.std.specs.Prelude.{◌≡◌, ◌==◌, ◌≤◌, not, filter, length};
ghost use Rattle.std.specs.List.{position_or_len};
ghost use Rattle.op_types.specs.RoleStates.{with_part};
ghost use Rattle.op_types.specs.Roles.{preparing_of, stage_or, PartHasRoom};

use crate::filling::covers;
use crate::turn::remove_promise;
use crate::{Held, Pid, Preparing, Promised, PromisedRun, Reserved, Stage};

impl Preparing {
    /// A part of a sender's promise is kept, in the room that was made, and the promise once all of it is
    /// there. It takes no memory, and copies nothing.
    pub(crate) fn keep_part(&mut self, from: Pid, part: PromisedRun, fresh: Held)
        requires { PartHasRoom self.old from part fresh }
        ensures { preparing_of self.new ≡ with_part (preparing_of self.old) from part }
    {
        let PromisedRun {
            accepted,
            len,
            decided,
            start,
            at,
            run,
        } = part;
        let mut held = take_stage(&mut self.stages, from, fresh);
        held.fill(at, run);
        if !covers(held.as_slice(), start, len) {
            self.stages.add(Stage { from, held });
            return;
        }
        let promised = Promised {
            from,
            accepted,
            len,
            decided,
            start,
            entries: held.into_entries(start, len),
        };
        remove_promise(&mut self.promises, from);
        self.promises.add(promised);
    }
}

/// Takes out what came of a sender's promise; where there is none, this takes its place.
fn take_stage(stages: &mut Reserved<Stage>, from: Pid, fresh: Held) -> Held
    ensures held { result ≡ stage_or stages.old.items from fresh }
    ensures items { stages.new.items ≡ filter (λ s. not (s.from == from)) stages.old.items }
    ensures room { stages.new.room ≡ stages.old.room }
{
    let index = stage_index(stages.as_slice(), from);
    let held = if index < stages.len() {
        stages.remove(index).held
    } else {
        fresh
    };
    remove_stages(stages, from);
    held
}

/// The index of what came of a sender's promise, or how many there are, where there is none.
fn stage_index(stages: &[Stage], from: Pid) -> usize
    ensures place { result ≡ position_or_len (λ s. s.from == from) stages.now }
    ensures within { result ≤ length stages.now }
{
    match stages {
        [] => 0,
        [first, rest @ ..] => {
            if first.from == from {
                0
            } else {
                1 + stage_index(rest, from)
            }
        }
    }
}

/// Removes what came of a sender's promise, if there is any.
pub(crate) fn remove_stages(stages: &mut Reserved<Stage>, from: Pid)
    ensures items { stages.new.items ≡ filter (λ s. not (s.from == from)) stages.old.items }
    ensures room { stages.new.room ≡ stages.old.room }
{
    stages.retain(|stage| stage.from != from);
}
