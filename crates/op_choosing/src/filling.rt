//! Which buffered entries go after a log, and who is told of the others.
ghost use Rattle.std.specs.Prelude.{◌≡◌, ◌≤◌, ◌+◌, ◌++◌, length, is_some, IfOk};
ghost use Rattle.op_spec.specs.Machine.{stop_at_end};
ghost use Rattle.op_types.specs.Limits.{positions_end};
ghost use Rattle.op_protocol.specs.Parts.{stop_at};
ghost use Rattle.op_protocol.specs.Promises.{fitting, left_over};

use op_plans::{ends_with_stop, is_stop, push_dropped};
use op_types::{Buffered, Cause, Entries, Entry, POSITIONS_END, Replies};
use std::alloc::{AllocError as NoMemory, Global};

/// Where a stop-sign ends a log that begins at a position, in two pieces. Only the last entry is looked at.
pub fn stop_in_both(at: u64, prefix: &[Entry], rest: &[Entry]) -> Option<u64>
    requires { at + (length prefix.now + length rest.now) ≤ positions_end }
    ensures { result ≡ stop_at at (prefix.now ++ rest.now) }
{
    if ends_both(prefix, rest) {
        Some(at + (prefix.len() as u64 + rest.len() as u64) - 1)
    } else {
        None
    }
}

/// Whether a stop-sign ends a log in two pieces.
fn ends_both(prefix: &[Entry], rest: &[Entry]) -> bool
    ensures { result ≡ is_some (stop_at_end (prefix.now ++ rest.now)) }
{
    if rest.is_empty() {
        ends_with_stop(prefix)
    } else {
        ends_with_stop(rest)
    }
}

/// The buffered entries that go to the log's end.
pub fn fitting(
    alloc: Global,
    stop: Option<u64>,
    len: u64,
    buffer: &[Buffered],
) -> Result<Entries, NoMemory>
    requires { len ≤ positions_end }
    ensures fitting { IfOk result (λ es. es ≡ fitting stop len buffer.now) }
    ensures small { IfOk result (λ es. len + length es ≤ positions_end) }
{
    let mut fitted = Entries::new(alloc);
    if stop.is_some() {
        return Ok(fitted);
    }
    let mut end = len;
    for buffered in buffer {
        if end == POSITIONS_END {
            return Ok(fitted);
        }
        fitted.push(buffered.entry.copy()?)?;
        if is_stop(&buffered.entry) {
            return Ok(fitted);
        }
        end += 1;
    }
    Ok(fitted)
}

/// Who is told that a buffered entry doesn't.
pub fn left_over(
    alloc: Global,
    stop: Option<u64>,
    len: u64,
    buffer: &[Buffered],
) -> Result<Replies, NoMemory>
    requires { len ≤ positions_end }
    ensures { IfOk result (λ replies. replies ≡ left_over stop len buffer.now) }
{
    let mut replies = Replies::new(alloc);
    let mut stop = stop;
    let mut end = len;
    for buffered in buffer {
        match stop {
            Some(position) => push_dropped(&mut replies, buffered, Cause::Stop(position))?,
            None => {
                if end == POSITIONS_END {
                    push_dropped(&mut replies, buffered, Cause::End)?;
                } else {
                    if is_stop(&buffered.entry) {
                        stop = Some(end);
                    }
                    end += 1;
                }
            }
        }
    }
    Ok(replies)
}
