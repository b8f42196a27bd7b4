ghost use Rattle.std.specs.Prelude.{◌≡◌, ◌++◌, List};
ghost use Rattle.op_serving.specs.Losses.{IsCalm};
ghost use Rattle.op_serving.specs.Inputs.{State, Deed, Luck};
ghost use Rattle.op_driver.specs.Driver.{Served, Acts, Knows, with_deeds};

use op_serving::Core;

/// What the driver does is a function of what it is told, of the marks of what was lost for want of memory,
/// and of what came of the inputs that were not lost: where else memory was wanting doesn't matter.
pub fn driver_follows_losses<K: Core>()
    ensures { (f : Luck → State → State) (d a b : Served K) (x : Acts K.stores f d a)
        (y : Acts K.stores f d b) (l : Luck) (before : List Deed)
        → Knows l (with_deeds (before ++ x.deeds) a) → IsCalm l.marks a.loop
        → Knows l (with_deeds (before ++ y.deeds) b) → IsCalm l.marks b.loop
        → with_deeds (before ++ x.deeds) a ≡ with_deeds (before ++ y.deeds) b }
{}
