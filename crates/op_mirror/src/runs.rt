ghost use Rattle.std.specs.Prelude.{◌≡◌, ◌≤◌, ◌+◌, ◌-◌, ◌↔◌, List, ℕ, true, false, not, length, take, drop};
ghost use Rattle.op_outside.specs.Causes.{RisesIf};
ghost use Rattle.op_outside.specs.Disks.{disk_end, Holds};
ghost use Rattle.op_mirror.specs.Crashes.{Differ, LeavesMixes, IsPieceOf, EndsWith};
ghost use Rattle.op_mirror.specs.Runs.{Fills};

use op_outside::Disk;

/// Writes these of the bytes, which begin at byte offset `at`, if there are any; whether that was done.
fn write_run<D: Disk>(disk: &mut D, at: u64, want: &[u8], start: usize, end: usize) -> bool
    requires order { start ≤ end }
    requires within { end ≤ length want.now }
    requires fits { at + length want.now ≤ disk_end }
    ensures model { (D.state disk.new).obeys ↔ (D.state disk.old).obeys }
    ensures mark { (D.state disk.new).mark ≡ (D.state disk.old).mark }
    ensures faults { RisesIf (not result) (D.state disk.old).faults (D.state disk.new).faults }
    ensures written { result ≡ true → (D.state disk.old).obeys →
        at + start ≤ length (D.state disk.old).content →
        Holds (D.state disk.old).content (at + start) (take (end - start) (drop start want.now))
        (D.state disk.new).content }
    ensures leaves { (x y : List ℕ) → Differ x y (at + start) (end - start) →
        LeavesMixes x y (D.state disk.old) (D.state disk.new) }
{
    if start == end {
        return true;
    }
    match disk.write_at(at + start as u64, &want[start..end]) {
        Ok(()) => true,
        Err(_) => false,
    }
}

/// Writes each longest run of the bytes, from byte offset `at` on, that differs from what the disk has there,
/// or that it lacks; whether all of that was done.
pub(crate) fn write_runs<D: Disk>(disk: &mut D, at: u64, want: &[u8], have: &[u8]) -> bool
    requires shorter { length have.now ≤ length want.now }
    requires fits { at + length want.now ≤ disk_end }
    ensures model { (D.state disk.new).obeys ↔ (D.state disk.old).obeys }
    ensures mark { (D.state disk.new).mark ≡ (D.state disk.old).mark }
    ensures faults { RisesIf (not result) (D.state disk.old).faults (D.state disk.new).faults }
    ensures filled { result ≡ true → (D.state disk.old).obeys →
        have.now ≡ take (length have.now) (drop at (D.state disk.old).content) →
        at ≤ length (D.state disk.old).content →
        Fills at want.now (length want.now) (D.state disk.old).content (D.state disk.new).content }
    ensures leaves { (x y : List ℕ) → at + length want.now ≤ length x →
        IsPieceOf x at want.now → IsPieceOf y at have.now → EndsWith y at have.now want.now →
        LeavesMixes x y (D.state disk.old) (D.state disk.new) }
{
    let mut start: usize = 0;
    for i in 0..have.len() {
        if want[i] == have[i] {
            if !write_run(disk, at, want, start, i) {
                return false;
            }
            start = i + 1;
        }
    }
    write_run(disk, at, want, start, want.len())
}
