ghost use Rattle.std.specs.Prelude.{◌≡◌, ◌≤◌, ℕ, List, [], length, vec_capacity, All, IfOk};
ghost use Rattle.op_command.specs.Ranges.{most_line_bytes};
ghost use Rattle.op_types.specs.Ranges.{IsPid};
ghost use Rattle.op_serving.specs.Cores.{Standing, untrimmed};
ghost use Rattle.op_serving.specs.Fates.{Came, Steps, StepsAll};
ghost use Rattle.op_serving.specs.Ranges.{InputInRange, GivenInRange};

use op_types::{Blob, Given, Input, NoMemory, Pid};
use std::alloc::Global;
use std::collections::VecDeque;

/// Why a step was not done.
#[derive(Clone, Copy, Debug, PartialEq, Eq)]
pub enum StepFail {
    /// A disk failed, with this count of faults since.
    DiskFail {
        /// The count.
        count: u64,
    },
    /// The node had failed, and what its disks store is damaged. Nothing changed.
    Damaged,
    /// No memory. Nothing changed.
    NoMemory,
}

/// A node as it is served.
pub trait Core {
    /// Its state, and how often its disks have failed.
    ghost standing: { Self → Standing };

    /// What it keeps in memory is of what it has stored, and is in range.
    ghost ready: { Self → Type 0 };

    /// What inputs that are stored together are to its disks, of which this came.
    ghost stores: { Self → List Came → Self → Type 0 };

    /// Where it stands, as a client is told.
    ghost line: { Standing → List ℕ };

    /// A step: what the input makes of the node, and what it gives out. A node that failed is opened again at
    /// a tick. Without memory nothing changes.
    fn step(&mut self, input: Input) -> Result<Given, StepFail>
        requires ready { ready self.old }
        requires range { InputInRange input }
        ensures steps { Steps standing stores self.old input result self.new }
        ensures given { IfOk result GivenInRange }
        ensures ready { ready self.new };

    /// Several inputs, which are taken one after the other and stored together: each up to the first that
    /// finds no memory, or to the last. What came of each goes into `results`, where there is room for it;
    /// the others are left. Where a disk fails nothing of them is given out.
    fn step_all(&mut self, inputs: &mut VecDeque<Input>, results: &mut Vec<Result<Given, StepFail>>)
        requires ready { ready self.old }
        requires inputs { All InputInRange inputs.old.items }
        requires none { results.old.items ≡ [] }
        requires room { length inputs.old.items ≤ vec_capacity results.old }
        ensures steps { StepsAll standing stores self.old inputs.old.items inputs.new.items results.new.items
            self.new }
        ensures given { All (λ r. IfOk r GivenInRange) results.new.items }
        ensures kept { vec_capacity results.old ≤ vec_capacity results.new }
        ensures ready { ready self.new };

    /// The server whose node it is.
    fn me(&self) -> Pid
        requires { ready self.now }
        ensures me { result ≡ (standing self.now).me }
        ensures range { IsPid result };

    /// How many of the entries that it has decided in its part are not trimmed: none where it has failed.
    fn untrimmed(&self) -> u64
        requires { ready self.now }
        ensures { result ≡ untrimmed (standing self.now) };

    /// Where it stands, as a client is told.
    fn status(&self, alloc: Global) -> Result<Blob, NoMemory>
        requires { ready self.now }
        ensures is { IfOk result (λ text. text ≡ line (standing self.now)) }
        ensures fits { IfOk result (λ text. length text ≤ most_line_bytes) };
}
