ghost use Rattle.std.specs.Prelude.{◌≡◌, ◌⊎◌, ℕ, List, Option, Result, Ok, true, false};
ghost use Rattle.op_setup.specs.declared.config.Settings.{Settings};
ghost use Rattle.op_outside.specs.Disks.{MayLeave};
ghost use Rattle.op_mirror.specs.Crashes.{LeavesAllMixes};
ghost use Rattle.op_mirror.specs.Mirrors.{known_mirror};
ghost use Rattle.op_mirror.specs.Opens.{LeavesBoth};
ghost use Rattle.op_mirror.specs.declared.gone.Gone.{Gone};
ghost use Rattle.op_mirror.specs.declared.mirror.Mirror.{Mirror};
ghost use Rattle.op_store.specs.Readings.{IsDamageOf, IsNewerOf};
ghost use Rattle.op_store.specs.Stored.{HaveImages, disks_with};
ghost use Rattle.op_serving.specs.declared.mark.Mark.{Mark};
ghost use Rattle.op_status.specs.declared.status.Status.{Status};
ghost use Rattle.op_status.specs.declared.status.Status.TheVariants as status;
ghost use Rattle.op_node.specs.Nodes.{NodeState};
ghost use Rattle.op_runs.specs.Possible.{kind_in};
ghost use Rattle.op_runs.specs.World.{Kind};
ghost use Rattle.op_cluster_laws.specs.Traces.{Lived, first_life, stands};
ghost use Rattle.op_serve.specs.Lives.{IsFirst, IsNext, Leaves, MayFollow};
ghost use Rattle.op_serve.specs.Processes.{Follow, Lasts, Process, events_of, events_then};
ghost use Rattle.op_serve.specs.Between.{AllObey, FailsAgain, HoldLeftOf, LeavesNext, OpensLeftOf};
ghost use Rattle.op_serve.specs.Between.{PassesOn, StandAfter, StaysOut};
ghost use Rattle.op_serve.specs.Folders.{AreOnlyRead, MayBegin, OnlyRead, ReadsWell};
ghost use Rattle.op_serve.specs.Mirrored.{EndsMirrored, Environment};
ghost use Rattle.op_serve.specs.declared.node_disks.NodeDisks.{NodeDisks};
ghost use Rattle.op_serve.specs.Nodes.{Around, Ends, IsDamaged, IsNewer, IsOpened, KeepsStored, ObeyIn, TellsOrStops, disks_in, faults_of};

use op_outside::Disk;

/// Where a life of a node left its disks, an opening of them, or of what a crash left of them, finds what the
/// node had stored, or what else that life may leave, and the next life of the node begins with it. Over
/// disks that store nothing an opening begins the first life.
pub fn openings_begin_lives<D: Disk>()
    ensures next { (members : List ℕ) (l : Lived) (gone old new : Around D) (n : NodeState)
        (opened : IsOpened D.state (stands l).kind (stands l).me members old new n)
        → Leaves l (disks_in D.state gone) → MayFollow (disks_in D.state gone) (disks_in D.state old)
        → ObeyIn D.state old → IsNext l opened.durable opened.is_new n (faults_of D.state new) }
    ensures first { (kind : Kind) (id : ℕ) (members : List ℕ) (old new : Around D) (n : NodeState)
        (opened : IsOpened D.state kind id members old new n) → opened.is_new ≡ true → ObeyIn D.state old
        → IsFirst kind id members opened.durable n (faults_of D.state new) }
{}

/// What `serve_as` says of a process that ends by itself makes it one of these, or its opening was refused,
/// and keeps what a life left. Over such processes of one node, the first over disks that store nothing and
/// each other one over what the one before left, what happens is at each moment a life of the node as the
/// theorem of a cluster has it, which observes where it is an observer, and each thing that happens may
/// happen then.
pub fn processes_are_lives<D: Disk>()
    ensures ends { (id : ℕ) (o : Settings) (old new : Around D) (s : Status) (lost : List Mark)
        → Ends D.state id o old new s lost → ObeyIn D.state old
        → KeepsStored D.state (kind_in o.observers id) id o.members old new
        ⊎ ((p : Process D.state (kind_in o.observers id) id o.members) × (p.old ≡ old) × (p.new ≡ new)) }
    ensures refused { (kind : Kind) (id : ℕ) (members : List ℕ) (l : Lived) (old new : Around D)
        → KeepsStored D.state kind id members old new → HaveImages (disks_in D.state old)
        → Leaves l (disks_in D.state old) → Leaves l (disks_in D.state new) }
    ensures lasts { (id : ℕ) (members observers : List ℕ)
        (p : Process D.state (kind_in observers id) id members)
        (ps : List (Process D.state (kind_in observers id) id members)) (faulted : ℕ → ℕ)
        → p.opened.is_new ≡ true → faulted id ≡ faults_of D.state p.mid
        → Follow D.state (disks_in D.state p.new) ps
        → Lasts (first_life members observers faulted id) (events_of D.state p (events_then D.state ps)) }
{}

/// A node ends by telling a newer version exactly where an area of its disks has one, and by telling damage
/// exactly where there is some, unless a disk failed in its opening, or there was no memory for it. What it
/// tells is left as it was.
pub fn what_is_not_read_is_told<D: Disk>()
    ensures newer { (id : ℕ) (o : Settings) (old new : Around D) (s : Status) (lost : List Mark)
        → Ends D.state id o old new s lost → ObeyIn D.state old → (area version : ℕ)
        → IsNewerOf (D.state old.first).content (D.state old.second).content area version
        → TellsOrStops (status.NewerVersion area version) s }
    ensures damaged { (id : ℕ) (o : Settings) (old new : Around D) (s : Status) (lost : List Mark)
        → Ends D.state id o old new s lost → ObeyIn D.state old → (area at : ℕ)
        → IsDamageOf (D.state old.first).content (D.state old.second).content area at
        → TellsOrStops (status.Damaged area at) s }
    ensures only_newer { (id : ℕ) (o : Settings) (old new : Around D) (s : Status) (lost : List Mark)
        → Ends D.state id o old new s lost → ObeyIn D.state old → (area version : ℕ)
        → s ≡ status.NewerVersion area version → IsNewer D.state old new area version }
    ensures only_damaged { (id : ℕ) (o : Settings) (old new : Around D) (s : Status) (lost : List Mark)
        → Ends D.state id o old new s lost → ObeyIn D.state old → (area at : ℕ)
        → s ≡ status.Damaged area at → IsDamaged D.state old new area at }
{}

/// From one process of a mirrored node to the next, where in each area one copy may have failed for good, in
/// the process before, in an opening or between.
///
/// The mirrors that are opened read what a crash may have left of the mirrors before, so that the process
/// over them follows the one before (`processes_are_lives`), and what a life left on those it left on these.
/// What stands of two copies after an opening that was cut short, refused or done is left of the mirror
/// before, too, and so any number of such starts may come. What stands of a mirror's copies, after a crash or
/// not, is left of it; and a process that ends by itself leaves either.
pub fn mirrors_follow<D: Disk>()
    ensures follow { (a b c d : Mirror D D.Disk) (first_out second_out : Gone) (disks : NodeDisks D)
        → OpensLeftOf D.Disk first_out a disks.first disks.first_copy c
        → OpensLeftOf D.Disk second_out b disks.second disks.second_copy d
        → MayFollow (disks_with (known_mirror D.state) a b) (disks_with (known_mirror D.state) c d) }
    ensures left { (l : Lived) (a b c d : Mirror D D.Disk) (first_out second_out : Gone) (disks : NodeDisks D)
        → OpensLeftOf D.Disk first_out a disks.first disks.first_copy c
        → OpensLeftOf D.Disk second_out b disks.second disks.second_copy d
        → Leaves l (disks_with (known_mirror D.state) a b)
        → Leaves l (disks_with (known_mirror D.state) c d) }
    ensures images { (m n : Mirror D D.Disk) (out : Gone) (first second : D)
        → OpensLeftOf D.Disk out m first second n
        → MayLeave (known_mirror D.state n) (known_mirror D.state n).content }
    ensures opened { (out next : Gone) (m : Mirror D D.Disk) (a b a' b' u v : D) → HoldLeftOf D.Disk out m a b
        → FailsAgain out (D.state a) (D.state b) (D.state a') (D.state b')
        → LeavesBoth (D.state a) (D.state b) (D.state a') (D.state b')
        → StaysOut out next → StandAfter D.Disk next a b a' b' u v → HoldLeftOf D.Disk next m u v }
    ensures uncalled { (out next : Gone) (m : Mirror D D.Disk) (a b u v : D) → HoldLeftOf D.Disk out m a b
        → StaysOut out next → StandAfter D.Disk next a b a b u v → HoldLeftOf D.Disk next m u v }
    ensures passes_on { (m : Mirror D D.Disk) → (known_mirror D.state m).obeys → LeavesAllMixes D.state m
        → PassesOn D.Disk m }
    ensures ends { (begins : Option ℕ) (id : ℕ) (o : Settings) (old new : Environment D) (s : Status)
        (lost : List Mark) → EndsMirrored D.Disk begins id o old new s lost → AllObey D.Disk old.disks
        → LeavesNext D.Disk id o old new s lost }
{}

/// What is asked of a node's folder, and of its areas, changes none of its disks: so a process whose node
/// begins behind that follows what the one before left, and what a life left stands, as it did before; of a
/// mirrored node what is left of its copies, too. A node without mirrors begins only where its areas were
/// read without fail.
pub fn looks_change_nothing<D: Disk>()
    ensures only { (id : ℕ) (o : Settings) (old new : NodeDisks D) (r : Result (Option ℕ) Status)
        → MayBegin D.Disk id o old new r → AreOnlyRead D.Disk old new }
    ensures well { (id : ℕ) (o : Settings) (old new : NodeDisks D) (begins : Option ℕ)
        → MayBegin D.Disk id o old new (Ok begins) → o.is_mirrored ≡ false
        → ReadsWell (D.state old.first) (D.state new.first)
        × ReadsWell (D.state old.second) (D.state new.second) }
    ensures follow { (gone old seen : Around D) → ReadsWell (D.state old.first) (D.state seen.first)
        → ReadsWell (D.state old.second) (D.state seen.second) → ObeyIn D.state old
        → MayFollow (disks_in D.state gone) (disks_in D.state old)
        → MayFollow (disks_in D.state gone) (disks_in D.state seen) }
    ensures left { (l : Lived) (old seen : Around D) → OnlyRead (D.state old.first) (D.state seen.first)
        → OnlyRead (D.state old.second) (D.state seen.second) → HaveImages (disks_in D.state old)
        → Leaves l (disks_in D.state old) → Leaves l (disks_in D.state seen) }
    ensures copies { (out : Gone) (m : Mirror D D.Disk) (a b x y : D) → OnlyRead (D.state a) (D.state x)
        → OnlyRead (D.state b) (D.state y) → HoldLeftOf D.Disk out m a b → HoldLeftOf D.Disk out m x y }
{}
