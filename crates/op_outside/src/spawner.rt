ghost use Rattle.std.specs.Prelude.{◌≡◌, ℕ, List, ◌∷◌, [], Option};
ghost use Rattle.std.specs.Result.{result_ok};
ghost use Rattle.op_outside.specs.Causes.{FailsOnlyOnFault};
ghost use Rattle.op_outside.specs.Telling.{Grows};
ghost use Rattle.op_outside.specs.Spawners.{ChildCall, Started, EndedWith};

/// A call of a spawner failed.
#[derive(Clone, Copy, Debug, PartialEq, Eq)]
pub struct ChildFail;

/// Programs that run beside this one, each under an id. An error comes only where the count of faults rises
/// in the call.
pub trait Spawner {
    /// Its calls with their answers, where it tells them: a real spawner tells nothing.
    ghost told: { Self → Option (List ChildCall) };

    /// How many calls have failed. The count stays at the last value of a u64.
    ghost fault_count: { Self → ℕ };

    /// How many calls have failed. The count stays at the last value of a u64.
    fn faults(&self) -> u64
        ensures { result ≡ fault_count self.now };

    /// Starts the program of this id with this standard input.
    fn start(&mut self, id: u32, input: &[u8]) -> Result<(), ChildFail>
        ensures tells { Grows (told self.old) (Started id input.now (result_ok result) ∷ []) (told self.new) }
        ensures cause { FailsOnlyOnFault (fault_count self.old) (fault_count self.new) result };

    /// Waits until the program of this id has ended, and gives its exit status. It fails where that id wasn't
    /// started, or its end was waited for.
    fn end(&mut self, id: u32) -> Result<u8, ChildFail>
        ensures tells { Grows (told self.old) (EndedWith id (result_ok result) ∷ []) (told self.new) }
        ensures cause { FailsOnlyOnFault (fault_count self.old) (fault_count self.new) result };
}
