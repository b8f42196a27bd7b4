use either::{Either, Left, Right};
use op_edge::{Input, Output};
use op_outside::{InputFail, ReadFail, Sink, Source, WriteFail, read_all, write_all};
use std::alloc::Global;
use std::io::{self, ErrorKind, Read, Stderr, Stdout, Write};
use std::test::Fail;

const TEXT: &[u8] = b"bytes that are handed on";

/// Fails so many times in this way, and is then at its end, or takes one byte a write.
#[derive(Drop)]
struct Failing {
    kind: ErrorKind,
    times: u32,
}

impl Failing {
    fn fail(&mut self) -> io::Result<()> {
        if self.times == 0 {
            return Ok(());
        }
        self.times -= 1;
        Err(self.kind.into())
    }
}

impl Read for Failing {
    fn read(&mut self, _buf: &mut [u8]) -> io::Result<usize> {
        self.fail()?;
        Ok(0)
    }
}

impl Write for Failing {
    fn write(&mut self, bytes: &[u8]) -> io::Result<usize> {
        self.fail()?;
        Ok(bytes.len().min(1))
    }

    fn flush(&mut self) -> io::Result<()> {
        Ok(())
    }
}

/// How a stream fails, how often, and whether one call of it is then a fault.
const ROWS: [(ErrorKind, u32, bool); 4] = [
    (ErrorKind::BrokenPipe, 1, true),
    (ErrorKind::Interrupted, 1, false),
    (ErrorKind::Interrupted, 999, false),
    (ErrorKind::Interrupted, 1000, true),
];

/// Whether the text is read whole, without a fault.
fn is_read(alloc: Global) -> Result<bool, InputFail> {
    let mut input = Input::new(TEXT);
    let bytes = read_all(alloc, &mut input, 100)?;
    Ok(bytes.as_slice() == TEXT && input.faults() == 0)
}

/// Whether the text is written whole, without a fault.
fn is_written(alloc: Global) -> bool {
    let mut held = Vec::new(alloc);
    let mut output = Output::new(&mut held);
    let is_whole = write_all(&mut output, TEXT).is_ok() && output.faults() == 0;
    is_whole && held.as_slice() == TEXT
}

#[test]
fn bytes_are_handed_on(rt: HostRuntime) -> Result<(), Fail> {
    assert!(rt; is_read(rt.alloc())?);
    assert!(rt; is_written(rt.alloc()));
    Ok(())
}

/// What a read of a stream that fails so gives, and the faults after it.
fn read_of(kind: ErrorKind, times: u32) -> (Result<usize, ReadFail>, u64) {
    let mut input = Input::new(Failing { kind, times });
    (input.read(&mut [0u8; 4]), input.faults())
}

/// What a write to a stream that fails so gives, and the faults after it.
fn write_to(kind: ErrorKind, times: u32) -> (Result<usize, WriteFail>, u64) {
    let mut output = Output::new(Failing { kind, times });
    (output.write(b"two"), output.faults())
}

/// A fault is answered where the stream failed, and not where a signal cut it short.
#[test]
fn failures_are_counted(rt: HostRuntime) {
    for (kind, times, is_fault) in ROWS {
        let (given, taken) = if is_fault {
            ((Err(ReadFail), 1), (Err(WriteFail), 1))
        } else {
            ((Ok(0), 0), (Ok(1), 0))
        };
        assert!(rt; read_of(kind, times) == given);
        assert!(rt; write_to(kind, times) == taken);
    }
}

#[test]
fn standard_output_and_error_take_bytes(rt: HostRuntime) {
    let mut out: Output<Either<Stdout, Stderr>> = Output::new(Left(rt.stdout()));
    let mut err: Output<Either<Stdout, Stderr>> = Output::new(Right(rt.stderr()));
    assert!(rt; out.write(b"o\n") == Ok(2));
    assert!(rt; err.write(b"e\n") == Ok(2));
}
