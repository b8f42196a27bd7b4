ghost use Rattle.std.specs.Prelude.{◌≡◌};
ghost use Rattle.op_mirror.specs.Crashes.{IsOneCall};
ghost use Rattle.op_mirror.specs.Joins.{HasSameCopies};
ghost use Rattle.op_mirror.specs.Mirrors.{known_mirror};
ghost use Rattle.op_mirror.specs.Opens.{LeavesBoth, Opens};
ghost use Rattle.op_mirror.specs.Starts.{HoldsLeft, HoldLeft, LeftWhile, LeftOfBothWhile};
ghost use Rattle.op_mirror.specs.Starts.{MixesAreLeft, AreLeft, GoesOnFrom};
ghost use Rattle.op_mirror.specs.declared.gone.Gone.TheVariants.{Second};
ghost use Rattle.op_mirror.specs.declared.mirror.Mirror.{Mirror};

use op_outside::Disk;

/// Over copies that a crash left of a mirror of which none was out, whatever an opening that is cut short
/// leaves of either, what mixes it is what the crash may have left; so it is over any number of such starts.
/// A mirror that is opened over them reads what the crash may have left, and a crash then leaves no more,
/// also where the first copy failed in it.
pub fn openings_keep_images<D: Disk>()
    ensures cut_short { (m : Mirror D D.Disk) (a b a' b' : D) → HoldLeft D.state m a b →
        LeavesBoth (D.state a) (D.state b) (D.state a') (D.state b') →
        MixesAreLeft D.state m (LeftOfBothWhile (D.state a) (D.state b) (D.state a') (D.state b')) }
    ensures opened { (m n : Mirror D D.Disk) (a b : D) → HoldLeft D.state m a b → Opens D.state a b n →
        GoesOnFrom D.state m n }
{}

/// The same where one copy has failed for good, of any mirror: the other one holds what the crash may have
/// left. Where it is the first one that fails, it does so in its first call; what a crash then leaves of it
/// is never read.
pub fn openings_keep_images_of_one<D: Disk>()
    ensures second_cut_short { (m : Mirror D D.Disk) (a b a' b' : D) → HoldsLeft D.state m b →
        LeavesBoth (D.state a) (D.state b) (D.state a') (D.state b') →
        (D.state a).obeys → IsOneCall (D.state a) (D.state a') →
        AreLeft D.state m (LeftWhile (D.state b) (D.state b')) }
    ensures second_opened { (m n : Mirror D D.Disk) (a b : D) → HoldsLeft D.state m b →
        Opens D.state a b n → (D.state a).obeys → IsOneCall (D.state a) (D.state n.first) →
        GoesOnFrom D.state m n }
    ensures first_cut_short { (m : Mirror D D.Disk) (a b a' b' : D) → HoldsLeft D.state m a →
        LeavesBoth (D.state a) (D.state b) (D.state a') (D.state b') →
        AreLeft D.state m (LeftWhile (D.state a) (D.state a')) }
    ensures first_opened { (m n : Mirror D D.Disk) (a b : D) → HoldsLeft D.state m a →
        Opens D.state a b n → (D.state b).obeys → n.gone ≡ Second → GoesOnFrom D.state m n }
{}

/// The mark of a mirror tells the mark of each copy, and how often each had failed at the opening. So where
/// it stays, the mirror hands out each copy as itself.
pub fn marks_tell_copies<D: Disk>()
    ensures { (m n : Mirror D D.Disk) → (known_mirror D.state n).mark ≡ (known_mirror D.state m).mark →
        HasSameCopies D.state m n }
{}
