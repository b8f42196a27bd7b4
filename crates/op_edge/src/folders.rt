use std::fs::{File, OpenFile};
use std::io;
use std::path::Path;
use std::rt::Files;

/// Syncs the folder in which a path stands, so that what is made there outlasts a crash.
pub(crate) fn sync_folder_of<R: Files>(rt: &R, path: Path) -> io::Result<()> {
    let folder = match path.parent() {
        Some(folder) if !folder.as_str().is_empty() => folder.as_str(),
        _ => ".",
    };
    File::open(rt, folder)?.sync_all()
}
