//! What the schedule grammar promises of any text.
ghost use Rattle.std.specs.Prelude.{◌≡◌, ℕ, List};
ghost use Rattle.op_sched.specs.declared.schedule.Schedule.{Schedule};
ghost use Rattle.op_sched.specs.Grammar.{IsSchedule, IsFirstBadLine, HasServers, AreInRange, AreOfBytes, AreBetweenTwo, EachSuitsDisks};

/// A text that is a schedule's has no bad line, and is no other schedule's. What a schedule says is in range,
/// and its sessions are each between two servers.
pub fn schedule_is_unambiguous()
    ensures apart { (text : List ℕ) (s : Schedule) (n : ℕ) → IsSchedule text s → IsFirstBadLine text n → ⊥ }
    ensures one { (text : List ℕ) (s t : Schedule) → IsSchedule text s → IsSchedule text t → s ≡ t }
    ensures first { (text : List ℕ) (m n : ℕ) → IsFirstBadLine text m → IsFirstBadLine text n → m ≡ n }
    ensures servers { (text : List ℕ) (s : Schedule) → IsSchedule text s → HasServers s }
    ensures in_range { (text : List ℕ) (s : Schedule) → IsSchedule text s → AreInRange s.events }
    ensures of_bytes { (text : List ℕ) (s : Schedule) → IsSchedule text s → AreOfBytes s.events }
    ensures between { (text : List ℕ) (s : Schedule) → IsSchedule text s → AreBetweenTwo s.events }
{}

/// A schedule's events suit its nodes' disks, which are two, or four where they are mirrored: each call that
/// they name is one of these. Where the disks are mirrored no call fails by itself, and where they aren't no
/// disk is killed.
pub fn schedule_suits_its_disks()
    ensures { (text : List ℕ) (s : Schedule) → IsSchedule text s → EachSuitsDisks s.is_mirrored s.events }
{}
