ghost use Rattle.std.specs.Prelude.{◌≡◌, ◌≢◌, ◌++◌, ℕ, List, [], drop, IsSome};
ghost use Rattle.std.specs.Map.{lookup};
ghost use Rattle.std.specs.BTreeMap.{is_at};
ghost use Rattle.std.specs.Ordering.{nat_cmp};
ghost use Rattle.op_conns.specs.Tables.{Queues, added, removed, queue_of, appended, taken};

/// A call for one connection leaves the bytes that wait for another, and changes its own as it says.
pub fn queues_apart()
    ensures added { (c d : ℕ) (bytes : List ℕ) (t : Queues) → c ≢ d
        → queue_of d (added c bytes t) ≡ queue_of d t }
    ensures removed { (c d : ℕ) (t : Queues) → c ≢ d → queue_of d (removed c t) ≡ queue_of d t }
    ensures appended { (c d : ℕ) (bytes : List ℕ) (t : Queues) → c ≢ d
        → queue_of d (appended c bytes t) ≡ queue_of d t }
    ensures taken { (c d n : ℕ) (t : Queues) → c ≢ d → queue_of d (taken c n t) ≡ queue_of d t }
    ensures own_added { (c : ℕ) (bytes : List ℕ) (t : Queues) → queue_of c (added c bytes t) ≡ bytes }
    ensures own { (c : ℕ) (bytes : List ℕ) (t : Queues) → IsSome (lookup (is_at (nat_cmp c)) t)
        → queue_of c (appended c bytes t) ≡ queue_of c t ++ bytes }
    ensures own_taken { (c n : ℕ) (t : Queues) → queue_of c (taken c n t) ≡ drop n (queue_of c t) }
{}
