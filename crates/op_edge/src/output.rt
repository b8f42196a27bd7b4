ghost use Rattle.std.specs.Prelude.{◌≡◌, ◌≤◌, ◌<◌, IfOk, length};
ghost use Rattle.std.specs.Io.KnownBytes.{WriteAppends};

use crate::TRIES;
use op_outside::{Sink, WriteFail};
use std::io::{ErrorKind, Write};

/// A writer. It tells the bytes that it holds where the writer does; a real one tells none.
#[derive(Drop)]
pub struct Output<W> {
    inner: W,
    faults: u64,
}

impl<W: Write> Output<W> {
    /// A sink over this writer, which hasn't failed yet.
    pub fn new(inner: W) -> Self
        ensures held { ⟦<Output<W> as Sink>⟧.held result ≡ W.contents inner }
        ensures count { ⟦<Output<W> as Sink>⟧.fault_count result ≡ 0 }
    {
        Output { inner, faults: 0 }
    }
}

impl<W: Write> Sink for Output<W> {
    ghost held = { λ s. W.contents s.inner };

    ghost fault_count = { λ s. s.faults };

    fn faults(&self) -> u64 {
        self.faults
    }

    fn write(&mut self, piece: &[u8]) -> Result<usize, WriteFail> {
        let taken = write_again(&mut self.inner, piece);
        if taken.is_err() {
            self.faults = self.faults.saturating_add(1);
        }
        taken
    }
}

/// One write, tried again where a signal cut it short. A write of nothing is a failure.
fn write_again<W: Write>(inner: &mut W, piece: &[u8]) -> Result<usize, WriteFail>
    ensures some { IfOk result (λ n. 0 < n) }
    ensures bound { IfOk result (λ n. n ≤ length piece.now) }
    ensures bytes { WriteAppends (W.contents inner.old) (W.contents inner.new) result piece.now }
{
    'tries: for _ in 0..TRIES {
        match inner.write(piece) {
            Ok(0) => return Err(WriteFail),
            Ok(count) => return Ok(count),
            Err(error) if error.kind() == ErrorKind::Interrupted => {}
            Err(_) => return Err(WriteFail),
        }
    }
    Err(WriteFail)
}
