ghost use Rattle.std.specs.Prelude.{◌≡◌, ◌<◌, ◌≤◌, ◌+◌, ◌==◌, [], length, false, All, None};
ghost use Rattle.op_serving.specs.Fates.{is_session};
ghost use Rattle.op_serving.specs.Counts.{most_inputs};
ghost use Rattle.op_serving.specs.Losses.{most_marks, Stays};
ghost use Rattle.op_driver.specs.Driver.{served_at};
ghost use Rattle.op_driver.specs.Ungiven.{AreUngiven, GivesFrom};

use crate::answering::{answer_all, count_all, take_if};
use op_queues::{Group, Results, Sessions};
use op_serving::{Core, Wanted};
use op_types::Input;
use std::collections::VecDeque;
use std::marker::Model;

/// Inputs that are to be given together and aren't given yet.
#[derive(Drop)]
pub struct Ungiven {
    inputs: VecDeque<Input>,
    /// None, with room for one of each input.
    results: Results,
    /// What clients asked for with the last input.
    wanted: Option<Wanted>,
}

impl Model for Ungiven {
    ghost use Rattle.std.specs.Prelude.{◌≡◌, ◌≤◌, [], length, vec_capacity, All, IfSome};
    ghost use Rattle.op_serving.specs.Ranges.{InputInRange, WantedInRange};
    ghost use Rattle.op_driver.specs.Ungiven.{Ungiven};

    ghost Value = { Ungiven };

    ghost view = { λ u. record { inputs = u.inputs.items; wanted = u.wanted } };

    ghost invariant = { λ u.
        (u.results.items ≡ []) × (length u.inputs.items ≤ vec_capacity u.results)
        × All InputInRange u.inputs.items × IfSome u.wanted WantedInRange };
}

impl Ungiven {
    /// All inputs of a group.
    pub fn new(group: Group) -> Ungiven
        requires { All (λ b. is_session b.1 ≡ false) group }
        ensures { AreUngiven group result }
    {
        let (inputs, results, wanted) = group.into_parts();
        Ungiven {
            inputs,
            results,
            wanted,
        }
    }

    /// Whether none is left.
    pub fn is_empty(&self) -> bool
        ensures { result ≡ (length self.now.inputs == 0) }
    {
        self.inputs.is_empty()
    }

    /// None is left.
    pub fn clear(&mut self)
        ensures { self.new ≡ record { inputs = []; wanted = None } }
    {
        self.inputs.clear();
        self.wanted = None;
    }

    /// Gives the inputs up to the first that finds no memory, or all of them: each is counted, and only then
    /// anything of them is handed out.
    pub fn give<K: Core>(&mut self, core: &mut K, sessions: &mut Sessions)
        requires some { 0 < length self.old.inputs }
        requires few { length sessions.old.lost < most_marks }
        requires ready { K.ready core.old }
        ensures gives { GivesFrom K.stores self.old self.new
            (served_at sessions.old (K.standing core.old) core.old)
            (served_at sessions.new (K.standing core.new) core.new) }
        ensures ready { K.ready core.new }
        ensures stays { Stays sessions.old sessions.new }
        ensures fewer { length self.new.inputs < length self.old.inputs }
        ensures most { most_inputs sessions.new + length self.new.inputs
            ≤ most_inputs sessions.old + length self.old.inputs }
    {
        core.step_all(&mut self.inputs, &mut self.results);
        count_all(sessions, self.results.as_slice());
        let wanted = take_if(self.inputs.is_empty(), &mut self.wanted);
        answer_all(sessions, &mut self.results, wanted);
    }
}
