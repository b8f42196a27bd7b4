//! What the percent encoding promises.
ghost use Rattle.std.specs.Prelude.{◌≡◌, ◌<◌, ℕ, List, All};
ghost use Rattle.op_text.specs.Percent.{encoded};

/// No two keys or values, of bytes, are encoded alike.
pub fn encoding_is_unambiguous()
    ensures { (a b : List ℕ) → All (λ x. x < 256) a → All (λ x. x < 256) b → encoded a ≡ encoded b → a ≡ b }
{}
