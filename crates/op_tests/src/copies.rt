//! The copies of a mirror over real files: one that failed is noted, and called no more.

use op_edge::FileDisk;
use op_outside::Disk;
use std::alloc::AllocError;
use std::os::unix::fs::symlink;
use std::path::PathBuf;
use std::test::Fail;
use std::{fs, io};

/// The two copies. The second one is a link into another folder.
const FIRST: &str = "copies.a";

const SECOND: &str = "copies.c";

const AWAY: &str = "away";

const REAL_SECOND: &str = "away/copies.c";

/// The notes of the first one, beside it and beside its partner.
const NOTE: &str = "copies.a.failed";

const NOTE_AWAY: &str = "away/copies.a.failed";

/// Notes of them.
const NOTES: [&str; 4] = [NOTE, NOTE_AWAY, "copies.c.failed", "away/copies.c.failed"];

/// What is done to the files, or by new disks on them.
#[derive(Clone, Copy)]
enum Step {
    /// The lengths that the two copies tell, the first one first, and which of the notes are there then.
    Lens(Option<u64>, Option<u64>, [bool; 4]),
    /// A call of the first copy fails.
    FirstFails,
    /// A call of the second one fails.
    SecondFails,
    /// Another process has both, and the two copies tell no length.
    Held,
    /// A file is removed.
    Remove(&'static str),
}

const NONE: [bool; 4] = [false; 4];

/// The first copy's notes.
const FIRST_NOTED: [bool; 4] = [true, true, false, false];

const STEPS: [Step; 20] = [
    Step::Lens(Some(0), Some(0), NONE),
    Step::Held,
    Step::Lens(Some(0), Some(0), NONE),
    Step::FirstFails,
    Step::Lens(None, Some(0), FIRST_NOTED),
    // Of two copies that both failed the second one is trusted at the next start.
    Step::SecondFails,
    Step::Lens(None, Some(0), FIRST_NOTED),
    // One note is enough.
    Step::Remove(NOTE),
    Step::Lens(None, Some(0), [false, true, false, false]),
    Step::Remove(NOTE_AWAY),
    Step::Lens(Some(0), Some(0), NONE),
    // A first copy that isn't there is not made where the second one is.
    Step::Remove(FIRST),
    Step::Lens(None, Some(0), FIRST_NOTED),
    Step::Remove(NOTE),
    Step::Remove(NOTE_AWAY),
    Step::Lens(None, Some(0), FIRST_NOTED),
    Step::Remove(NOTE),
    Step::Remove(NOTE_AWAY),
    // A second one is.
    Step::Remove(REAL_SECOND),
    Step::Lens(Some(0), Some(0), NONE),
];

fn first(rt: &HostRuntime) -> Result<FileDisk<&HostRuntime>, AllocError> {
    let alloc = rt.alloc();
    let partner = PathBuf::from_str(alloc, SECOND)?;
    Ok(FileDisk::first_copy(rt, PathBuf::from_str(alloc, FIRST)?, partner))
}

fn second(rt: &HostRuntime) -> Result<FileDisk<&HostRuntime>, AllocError> {
    let alloc = rt.alloc();
    let partner = PathBuf::from_str(alloc, FIRST)?;
    Ok(FileDisk::second_copy(rt, PathBuf::from_str(alloc, SECOND)?, partner))
}

/// The lengths that two disks tell.
fn lens<D: Disk>(a: &mut D, b: &mut D) -> (Option<u64>, Option<u64>) {
    (a.len().ok(), b.len().ok())
}

/// Whether a call of a disk fails that would read what isn't there, and then each call.
fn fails<D: Disk>(disk: &mut D) -> bool {
    disk.read(0, &mut [0u8; 4]).is_err()
}

/// Which of the notes are there.
fn noted(rt: &HostRuntime) -> io::Result<[bool; 4]> {
    let mut found = [false; 4];
    for (place, note) in NOTES.iter().enumerate() {
        found[place] = fs::exists(rt, *note)?;
    }
    Ok(found)
}

/// Whether a step goes as it says.
fn goes(rt: &HostRuntime, step: Step) -> Result<bool, Fail> {
    match step {
        Step::Lens(a, b, notes) => {
            Ok(lens(&mut first(rt)?, &mut second(rt)?) == (a, b) && noted(rt)? == notes)
        }
        Step::FirstFails => Ok(fails(&mut first(rt)?)),
        Step::SecondFails => Ok(fails(&mut second(rt)?)),
        Step::Held => {
            let (mut a, mut b) = (first(rt)?, second(rt)?);
            let held = lens(&mut a, &mut b);
            Ok(
                held == (Some(0), Some(0))
                    && lens(&mut first(rt)?, &mut second(rt)?) == (None, None),
            )
        }
        Step::Remove(file) => Ok(fs::remove_file(rt, file).is_ok()),
    }
}

/// The first step that goes otherwise.
fn first_wrong(rt: &HostRuntime) -> Result<Option<usize>, Fail> {
    for (place, step) in STEPS.iter().enumerate() {
        if !goes(rt, *step)? {
            return Ok(Some(place));
        }
    }
    Ok(None)
}

#[test]
fn a_copy_that_failed_is_noted(rt: HostRuntime) -> Result<(), Fail> {
    fs::create_dir(&rt, AWAY)?;
    symlink(&rt, REAL_SECOND, SECOND)?;
    assert_eq!(rt; first_wrong(&rt)?, None);
    for file in [FIRST, SECOND, REAL_SECOND] {
        fs::remove_file(&rt, file)?;
    }
    fs::remove_dir(&rt, AWAY)?;
    Ok(())
}
