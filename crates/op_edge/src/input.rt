ghost use Rattle.std.specs.Prelude.{◌≡◌, ◌≤◌, IfOk, length};
ghost use Rattle.std.specs.Io.KnownBytes.{ReadConsumes};

use crate::TRIES;
use op_outside::{ReadFail, Source};
use std::io::{ErrorKind, Read};

/// A reader. It tells the bytes that are left where the reader does; a real one tells none.
#[derive(Drop)]
pub struct Input<R> {
    inner: R,
    faults: u64,
}

impl<R: Read> Input<R> {
    /// A source over this reader, which hasn't failed yet.
    pub fn new(inner: R) -> Self
        ensures left { ⟦<Input<R> as Source>⟧.left result ≡ R.remaining inner }
        ensures count { ⟦<Input<R> as Source>⟧.fault_count result ≡ 0 }
    {
        Input { inner, faults: 0 }
    }
}

impl<R: Read> Source for Input<R> {
    ghost left = { λ s. R.remaining s.inner };

    ghost fault_count = { λ s. s.faults };

    fn faults(&self) -> u64 {
        self.faults
    }

    fn read(&mut self, buf: &mut [u8]) -> Result<usize, ReadFail> {
        let given = read_again(&mut self.inner, buf);
        if given.is_err() {
            self.faults = self.faults.saturating_add(1);
        }
        given
    }
}

/// One read, tried again where a signal cut it short.
fn read_again<R: Read>(inner: &mut R, buf: &mut [u8]) -> Result<usize, ReadFail>
    ensures bound { IfOk result (λ n. n ≤ length buf.new) }
    ensures bytes { ReadConsumes (R.remaining inner.old) (R.remaining inner.new) result buf.new }
{
    'tries: for _ in 0..TRIES {
        match inner.read(buf) {
            Ok(count) => return Ok(count),
            Err(error) if error.kind() == ErrorKind::Interrupted => {}
            Err(_) => return Err(ReadFail),
        }
    }
    Err(ReadFail)
}
