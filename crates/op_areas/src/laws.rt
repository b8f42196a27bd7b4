ghost use Rattle.std.specs.Prelude.{◌≡◌, ℕ, List, true};
ghost use Rattle.op_outside.specs.Pendings.{IsMixed};
ghost use Rattle.op_areas.specs.Pairs.{holds_pair, LeftOfPair};
ghost use Rattle.op_areas.specs.declared.pair.DiskPair.{DiskPair};

/// Two closed copies hold what a crash may leave of those that aren't killed and what mixes three of these,
/// and nothing where both are killed.
pub fn pairs_hold_what_mixes()
    ensures left { (c : DiskPair) (x : List ℕ) → LeftOfPair c x → holds_pair c x }
    ensures mixes { (c : DiskPair) (x y w z : List ℕ) →
        holds_pair c x → holds_pair c y → holds_pair c w → IsMixed x y w z → holds_pair c z }
    ensures none { (c : DiskPair) → c.first.script.is_killed ≡ true → c.second.script.is_killed ≡ true →
        (x : List ℕ) → holds_pair c x → ⊥ }
{}
