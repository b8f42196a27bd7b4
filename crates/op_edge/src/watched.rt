//! Settings that are looked at while they are read.
ghost use Rattle.std.specs.Prelude.{◌≡◌};

use crate::log::Log;
use crate::settings_lines::tell_settings;
use std::alloc::Global;
use std::io::{self, Read};
use std::time::Clock;

/// A reader of settings. Once they are read it is told what is odd in them, where lines are asked for.
#[derive(Drop)]
pub struct Watched<R: Clock + Eprint + Alloc<A = Global> + Drop, I: Drop> {
    inner: I,
    rt: R,
    log: Log,
    /// What was read, where it is to be looked at.
    seen: Option<Vec<u8>>,
}

impl<R: Clock + Eprint + Alloc<A = Global> + Drop, I: Read + Drop> Watched<R, I> {
    /// This reader, of settings that aren't read yet.
    pub fn new(rt: R, log: Log, inner: I) -> Self
        ensures { ⟦<Watched<R, I> as Read>⟧.remaining result ≡ I.remaining inner }
    {
        let seen = if log.is_on() {
            Some(Vec::new(rt.alloc()))
        } else {
            None
        };
        Watched {
            inner,
            rt,
            log,
            seen,
        }
    }
}

impl<R: Clock + Eprint + Alloc<A = Global> + Drop, I: Read + Drop> Read for Watched<R, I> {
    ghost use Rattle.std.specs.Prelude.{List, ℕ};

    ghost remaining = { λ w. I.remaining w.inner };

    fn read(&mut self, buf: &mut [u8]) -> io::Result<usize> {
        let answer = self.inner.read(buf);
        if let Ok(count) = &answer {
            watch(
                &self.rt,
                self.log,
                &mut self.seen,
                buf.get(..*count).unwrap_or(&[]),
            );
        }
        answer
    }
}

/// Keeps what was read, and looks at all of it at its end. Where there is no memory for it, it isn't looked
/// at.
fn watch<R: Clock + Eprint + Alloc<A = Global>>(
    rt: &R,
    log: Log,
    seen: &mut Option<Vec<u8>>,
    bytes: &[u8],
) {
    let Some(text) = seen else {
        return;
    };
    let is_kept = if bytes.is_empty() {
        let _ = tell_settings(rt, log, text.as_slice());
        false
    } else {
        text.extend_from_slice(bytes).is_ok()
    };
    if !is_kept {
        *seen = None;
    }
}
