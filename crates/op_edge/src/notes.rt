//! Notes that a copy of a mirror failed: an empty file `NAME.failed` beside the copy NAME, and beside its
//! partner.

use crate::folders::sync_folder_of;
use std::alloc::Global;
use std::fs::{self, File, OpenFile, OpenOptions};
use std::io;
use std::path::{Path, PathBuf};
use std::rt::Files;

/// Whether a note says that the copy at this path failed.
pub(crate) fn is_noted<R: Files + Alloc<A = Global>>(rt: &R, copy: Path, partner: Path) -> bool {
    is_there(rt, beside(rt, copy, copy)) || is_there(rt, beside_real(rt, copy, partner))
}

/// Notes beside the copy at this path, and beside its partner, that it failed, as far as that can be written.
pub(crate) fn note<R: Files + Alloc<A = Global>>(rt: &R, copy: Path, partner: Path) {
    let _ = make(rt, beside(rt, copy, copy));
    let _ = make(rt, beside_real(rt, copy, partner));
}

/// The note of a copy beside the file at this path, as its name stands.
fn beside<R: Alloc<A = Global>>(rt: &R, copy: Path, file: Path) -> io::Result<PathBuf> {
    let alloc = rt.alloc();
    let name = copy.file_name().unwrap_or("");
    let note = format!(in alloc; "{name}.failed")?;
    Ok(file.with_file_name(alloc, note.as_str())?)
}

/// The note of a copy beside the file at this path, where that lies behind links.
fn beside_real<R: Files + Alloc<A = Global>>(
    rt: &R,
    copy: Path,
    file: Path,
) -> io::Result<PathBuf> {
    let real = fs::canonicalize(rt, file)?;
    beside(rt, copy, real.as_path())
}

fn is_there<R: Files>(rt: &R, note: io::Result<PathBuf>) -> bool {
    match note {
        Ok(path) => fs::exists(rt, path.as_path()).unwrap_or(false),
        Err(_) => false,
    }
}

/// Makes a note, which outlasts a crash.
fn make<R: Files>(rt: &R, note: io::Result<PathBuf>) -> io::Result<()> {
    let note = note?;
    let mut how = OpenOptions::new();
    how.write(true).create(true);
    how.open(rt, note.as_path())?.sync_all()?;
    sync_folder_of(rt, note.as_path())
}
