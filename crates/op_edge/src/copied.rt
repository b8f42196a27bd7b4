//! One of the two copies of an area, which a mirror takes as failed for good once a call of it failed: over
//! starts, too.

use crate::notes::{is_noted, note};
use std::alloc::Global;
use std::fs::{self, File, OpenOptions};
use std::io::{self, ErrorKind};
use std::path::{Path, PathBuf};
use std::rt::Files;

/// Where the other copy is, and what is known of this one.
#[derive(Drop)]
pub(crate) struct Copied {
    partner: PathBuf,
    /// Whether the mirror trusts this copy where both answer.
    is_first: bool,
    /// Whether it was looked whether it failed before this process.
    is_looked: bool,
    /// Whether it has failed.
    is_out: bool,
}

impl Copied {
    pub(crate) fn new(partner: PathBuf, is_first: bool) -> Self {
        Copied {
            partner,
            is_first,
            is_looked: false,
            is_out: false,
        }
    }

    /// It fails where this copy, at this path, has failed, in this process or, as a note says, before. A
    /// first copy that isn't there while its partner is has, too: its disk was emptied, or is away.
    pub(crate) fn lives<R: Files<File = File> + Alloc<A = Global>>(
        &mut self,
        rt: &R,
        path: Path,
    ) -> io::Result<()> {
        let partner = self.partner.as_path();
        if !self.is_looked {
            self.is_looked = true;
            let is_lost = self.is_first && !path.exists(rt) && partner.exists(rt);
            if is_lost {
                note(rt, path, partner);
            }
            self.is_out = is_lost || is_noted(rt, path, partner);
        }
        if self.is_out {
            return Err(io::Error::other("a copy of a mirror that failed before"));
        }
        Ok(())
    }

    /// A call of this copy, at this path, failed: that is noted, and from now on each call fails. Not so
    /// where there is no partner, since the node isn't mirrored; where the partner has failed before, since
    /// one of the two has to be trusted at the next start; and where another process has both files. It
    /// answers whether it was noted.
    pub(crate) fn fails<R: Files<File = File> + Alloc<A = Global>>(
        &mut self,
        rt: &R,
        path: Path,
        error: &io::Error,
    ) -> bool {
        let partner = self.partner.as_path();
        if self.is_out || !partner.exists(rt) || is_noted(rt, partner, path) {
            return false;
        }
        if error.kind() == ErrorKind::WouldBlock && !is_free(rt, partner) {
            return false;
        }
        note(rt, path, partner);
        self.is_out = true;
        true
    }
}

/// Whether no process has the file at this path.
fn is_free<R: Files<File = File>>(rt: &R, path: Path) -> bool {
    let mut how = OpenOptions::new();
    how.read(true).write(true);
    match how.open(rt, path) {
        Ok(file) => file.try_lock().is_ok(),
        Err(_) => false,
    }
}
