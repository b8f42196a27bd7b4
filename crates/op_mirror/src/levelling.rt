ghost use Rattle.std.specs.Prelude.{◌≡◌, ◌≤◌, ◌+◌, ◌-◌, ◌↔◌, List, ℕ, not, min, length, take, drop};
ghost use Rattle.op_outside.specs.Causes.{RisesIf, last_count};
ghost use Rattle.op_outside.specs.Disks.{disk_end, MayLeave, LeavesOnly, GoesOn};
ghost use Rattle.op_outside.specs.Disks.Edit.{Nothing};
ghost use Rattle.op_outside.specs.Pendings.{synced};
ghost use Rattle.op_mirror.specs.declared.level.Level.TheVariants as level;
ghost use Rattle.op_mirror.specs.Copies.{IsAlike};
ghost use Rattle.op_mirror.specs.Crashes.{LeavesMixes, EndsWith, IsOneCall};
ghost use Rattle.op_mirror.specs.Levels.{LevelFaults, UnlessFirst, Levelled};
ghost use Rattle.op_mirror.specs.Runs.{Fills};

use crate::level::Level;
use crate::runs::write_runs;
use op_outside::Disk;

/// Makes the second copy equal to the first one in a piece from byte offset `at` on, of which it has as many
/// bytes as `theirs` takes.
fn level_piece<D: Disk>(
    first: &mut D,
    second: &mut D,
    at: u64,
    ours: &mut [u8],
    theirs: &mut [u8],
) -> Level
    requires shorter { length theirs.old ≤ length ours.old }
    requires fits { at + length ours.old ≤ disk_end }
    ensures first_model { (D.state first.new).obeys ↔ (D.state first.old).obeys }
    ensures second_model { (D.state second.new).obeys ↔ (D.state second.old).obeys }
    ensures first_mark { (D.state first.new).mark ≡ (D.state first.old).mark }
    ensures second_mark { (D.state second.new).mark ≡ (D.state second.old).mark }
    ensures faults { LevelFaults result (D.state first.old).faults (D.state first.new).faults
        (D.state second.old).faults (D.state second.new).faults }
    ensures same { UnlessFirst result
        ((D.state first.old).obeys → (D.state first.new).content ≡ (D.state first.old).content) }
    ensures pending { UnlessFirst result
        ((D.state first.old).obeys → (D.state first.new).pending ≡ (D.state first.old).pending) }
    ensures ours_size { length ours.new ≡ length ours.old }
    ensures theirs_size { length theirs.new ≡ length theirs.old }
    ensures filled { result ≡ level.Done → (D.state first.old).obeys → (D.state second.old).obeys
        → at ≤ length (D.state second.old).content
        → Fills at (take (length ours.old) (drop at (D.state first.old).content)) (length ours.old)
        (D.state second.old).content (D.state second.new).content }
    // Whatever it answers: of the first copy a crash leaves what it might have left before.
    ensures first_leaves { (D.state first.old).obeys →
        LeavesOnly (MayLeave (D.state first.old)) (D.state first.old) (D.state first.new) }
    ensures first_calls { (D.state first.old).obeys →
        min (D.state first.old).calls last_count ≤ (D.state first.new).calls }
    ensures second_leaves { (D.state first.old).obeys → (y : List ℕ) →
        at + length ours.old ≤ length (D.state first.old).content →
        drop at (D.state second.old).content ≡ drop at y → EndsWith y at theirs.old ours.old →
        LeavesMixes (D.state first.old).content y (D.state second.old) (D.state second.new) }
{
    let Ok(()) = first.read(at, ours) else {
        return Level::FirstFailed;
    };
    if theirs.is_empty() {
        if write_runs(second, at, ours, &[]) {
            return Level::Done;
        }
        return Level::SecondFailed;
    }
    let Ok(()) = second.read(at, theirs) else {
        return Level::SecondFailed;
    };
    if write_runs(second, at, ours, theirs) {
        return Level::Done;
    }
    Level::SecondFailed
}

/// How many bytes of both copies are compared at a time.
pub(crate) const PIECE: usize = 65536;

/// Makes the second copy, of this length, equal to the first one up to the first one's length, piece by
/// piece.
fn level<D: Disk>(
    first: &mut D,
    second: &mut D,
    len: u64,
    was: u64,
    ours: &mut [u8],
    theirs: &mut [u8],
) -> Level
    requires small { len ≤ disk_end }
    requires ours_room { length ours.old ≡ 65536 }
    requires theirs_room { length theirs.old ≡ 65536 }
    ensures first_model { (D.state first.new).obeys ↔ (D.state first.old).obeys }
    ensures second_model { (D.state second.new).obeys ↔ (D.state second.old).obeys }
    ensures first_mark { (D.state first.new).mark ≡ (D.state first.old).mark }
    ensures second_mark { (D.state second.new).mark ≡ (D.state second.old).mark }
    ensures faults { LevelFaults result (D.state first.old).faults (D.state first.new).faults
        (D.state second.old).faults (D.state second.new).faults }
    ensures same { UnlessFirst result
        ((D.state first.old).obeys → (D.state first.new).content ≡ (D.state first.old).content) }
    ensures pending { UnlessFirst result
        ((D.state first.old).obeys → (D.state first.new).pending ≡ (D.state first.old).pending) }
    ensures levelled { result ≡ level.Done → (D.state first.old).obeys → (D.state second.old).obeys
        → len ≡ length (D.state first.old).content → was ≡ length (D.state second.old).content
        → Levelled len was (D.state first.old).content (D.state second.new).content }
    ensures first_leaves { (D.state first.old).obeys →
        LeavesOnly (MayLeave (D.state first.old)) (D.state first.old) (D.state first.new) }
    ensures first_calls { (D.state first.old).obeys →
        min (D.state first.old).calls last_count ≤ (D.state first.new).calls }
    ensures second_leaves { (D.state first.old).obeys →
        len ≡ length (D.state first.old).content → was ≡ length (D.state second.old).content →
        LeavesMixes (D.state first.old).content (D.state second.old).content
        (D.state second.old) (D.state second.new) }
{
    let mut at: u64 = 0;
    while at < len {
        let n = piece_len(len, at);
        let m = piece_len(was, at).min(n);
        let done = level_piece(first, second, at, &mut ours[..n], &mut theirs[..m]);
        if done != Level::Done {
            return done;
        }
        at += n as u64;
    }
    Level::Done
}

/// How much of the piece at this byte offset something of this length has.
fn piece_len(len: u64, at: u64) -> usize
    ensures { result ≡ min (len - at) 65536 }
{
    let left = len.saturating_sub(at);
    if left < PIECE as u64 {
        left as usize
    } else {
        PIECE
    }
}

/// Makes the second copy equal to the first one, and syncs both.
pub(crate) fn make_equal<D: Disk>(
    first: &mut D,
    second: &mut D,
    ours: &mut [u8],
    theirs: &mut [u8],
) -> Level
    requires ours_room { length ours.old ≡ 65536 }
    requires theirs_room { length theirs.old ≡ 65536 }
    ensures first_model { (D.state first.new).obeys ↔ (D.state first.old).obeys }
    ensures second_model { (D.state second.new).obeys ↔ (D.state second.old).obeys }
    ensures first_mark { (D.state first.new).mark ≡ (D.state first.old).mark }
    ensures second_mark { (D.state second.new).mark ≡ (D.state second.old).mark }
    ensures faults { LevelFaults result (D.state first.old).faults (D.state first.new).faults
        (D.state second.old).faults (D.state second.new).faults }
    ensures same { UnlessFirst result
        ((D.state first.old).obeys → (D.state first.new).content ≡ (D.state first.old).content) }
    ensures equal { result ≡ level.Done → (D.state first.old).obeys → (D.state second.old).obeys
        → IsAlike (D.state first.new) (D.state second.new) }
    ensures first_leaves { (D.state first.old).obeys →
        LeavesOnly (MayLeave (D.state first.old)) (D.state first.old) (D.state first.new) }
    ensures at_once { (D.state first.old).obeys → IsOneCall (D.state first.old) (D.state first.new) →
        (result ≡ level.FirstFailed) × (second.new ≡ second.old) }
    ensures second_leaves { (D.state first.old).obeys →
        LeavesMixes (D.state first.old).content (D.state second.old).content
        (D.state second.old) (D.state second.new) }
{
    let Ok(()) = first.sync() else {
        return Level::FirstFailed;
    };
    let Ok(len) = first.len() else {
        return Level::FirstFailed;
    };
    let Ok(was) = second.len() else {
        return Level::SecondFailed;
    };
    let done = level(first, second, len, was, ours, theirs);
    if done != Level::Done {
        return done;
    }
    if len < was {
        return cut_behind(second, len);
    }
    sync_second(second)
}

/// Cuts the second copy to this length and syncs it.
fn cut_behind<D: Disk>(second: &mut D, len: u64) -> Level
    ensures model { (D.state second.new).obeys ↔ (D.state second.old).obeys }
    ensures mark { (D.state second.new).mark ≡ (D.state second.old).mark }
    ensures faults { LevelFaults result 0 0 (D.state second.old).faults (D.state second.new).faults }
    ensures cut { result ≡ level.Done → (D.state second.old).obeys
        → (D.state second.new).content ≡ take len (D.state second.old).content }
    ensures settled { result ≡ level.Done → (D.state second.old).obeys
        → (D.state second.new).pending ≡ synced (D.state second.new).content }
    ensures leaves { (x y : List ℕ) → len ≡ length x →
        LeavesMixes x y (D.state second.old) (D.state second.new) }
{
    let Ok(()) = second.cut(len) else {
        return Level::SecondFailed;
    };
    sync_second(second)
}

/// Syncs the second copy.
fn sync_second<D: Disk>(second: &mut D) -> Level
    ensures model { (D.state second.new).obeys ↔ (D.state second.old).obeys }
    ensures mark { (D.state second.new).mark ≡ (D.state second.old).mark }
    ensures faults { LevelFaults result 0 0 (D.state second.old).faults (D.state second.new).faults }
    ensures kept { result ≡ level.Done → (D.state second.old).obeys
        → (D.state second.new).content ≡ (D.state second.old).content }
    ensures settled { result ≡ level.Done → (D.state second.old).obeys
        → (D.state second.new).pending ≡ synced (D.state second.new).content }
    ensures leaves { (x y : List ℕ) → LeavesMixes x y (D.state second.old) (D.state second.new) }
{
    match second.sync() {
        Ok(()) => Level::Done,
        Err(_) => Level::SecondFailed,
    }
}

/// Syncs the second copy alone; whether that was done.
pub(crate) fn sync_alone<D: Disk>(second: &mut D) -> bool
    ensures model { (D.state second.new).obeys ↔ (D.state second.old).obeys }
    ensures mark { (D.state second.new).mark ≡ (D.state second.old).mark }
    ensures faults { RisesIf (not result) (D.state second.old).faults (D.state second.new).faults }
    ensures still { (D.state second.old).obeys → GoesOn Nothing (D.state second.old) (D.state second.new) }
    ensures leaves { (x y : List ℕ) → LeavesMixes x y (D.state second.old) (D.state second.new) }
{
    match second.sync() {
        Ok(()) => true,
        Err(_) => false,
    }
}
