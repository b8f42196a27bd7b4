ghost use Rattle.std.specs.Prelude.{ℕ, List, ◌∷◌, [], Option};
ghost use Rattle.op_outside.specs.Telling.{Grows};

/// The time.
pub trait Clock {
    /// Its answers, where it tells them: a real clock tells nothing.
    ghost answers: { Self → Option (List ℕ) };

    /// The time in milliseconds since some moment. It never fails.
    fn millis(&mut self) -> u64
        ensures { Grows (answers self.old) (result ∷ []) (answers self.new) };
}
