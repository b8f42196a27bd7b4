//! What stands at a byte offset of a base. These look at the bytes, and take no memory.
ghost use Rattle.std.specs.Prelude.{◌≡◌, option_map};
ghost use Rattle.std.specs.Ordering.{nat_cmp, is_lt};
ghost use Rattle.std.specs.Cmp.Lexicographic.{slice_cmp};
ghost use Rattle.std.specs.Result.{result_ok};
ghost use Rattle.std.specs.Int.{w8, w16, w64};
ghost use Rattle.op_fields.specs.Form.{number_read};
ghost use Rattle.op_entry.specs.Forms.{key, value};
ghost use Rattle.op_kv.specs.Bases.{kept_answer, pair_above, client_above};
ghost use Rattle.op_kv.specs.Looked.{told_answer, kept_of};

use crate::told::{LastCommand, Told};
use op_fields::{take_u8, take_u16, take_u64};
use op_types::{GREATEST_NUMBER, MOST_KEY_BYTES, MOST_VALUE_BYTES};

/// The tag of `Done`.
pub(crate) const DONE: u8 = 1;

/// The tag of `Value`.
pub(crate) const VALUE: u8 = 2;

/// The tag of `Absent`.
pub(crate) const ABSENT: u8 = 3;

fn u8_at(bytes: &[u8], at: usize, low: u8, high: u8) -> Option<(u8, usize)>
    ensures { result ≡ result_ok (number_read w8 low high bytes.now at) }
{
    let Ok(n) = take_u8(bytes, at) else {
        return None;
    };
    if n < low || high < n {
        return None;
    }
    Some((n, at + 1))
}

fn u16_at(bytes: &[u8], at: usize, low: u16, high: u16) -> Option<(u16, usize)>
    ensures { result ≡ result_ok (number_read w16 low high bytes.now at) }
{
    let Ok(n) = take_u16(bytes, at) else {
        return None;
    };
    if n < low || high < n {
        return None;
    }
    Some((n, at + 2))
}

/// The number at a byte offset, if it is from low to high, and the offset after it.
pub(crate) fn u64_at(bytes: &[u8], at: usize, low: u64, high: u64) -> Option<(u64, usize)>
    ensures { result ≡ result_ok (number_read w64 low high bytes.now at) }
{
    let Ok(n) = take_u64(bytes, at) else {
        return None;
    };
    if n < low || high < n {
        return None;
    }
    Some((n, at + 8))
}

fn key_at(bytes: &[u8], at: usize) -> Option<(&[u8], usize)>
    ensures { option_map (λ x. (x.0.now, x.1)) result ≡ result_ok (key.read bytes.now at) }
{
    let (len, next) = u8_at(bytes, at, 1, MOST_KEY_BYTES as u8)?;
    let len = len as usize;
    if bytes.len() - next < len {
        return None;
    }
    Some((&bytes[next..next + len], next + len))
}

fn value_at(bytes: &[u8], at: usize) -> Option<(&[u8], usize)>
    ensures { option_map (λ x. (x.0.now, x.1)) result ≡ result_ok (value.read bytes.now at) }
{
    let (len, next) = u16_at(bytes, at, 0, MOST_VALUE_BYTES as u16)?;
    let len = len as usize;
    if bytes.len() - next < len {
        return None;
    }
    Some((&bytes[next..next + len], next + len))
}

/// Whether the key stands above this one.
fn is_above(low: &[u8], key: &[u8]) -> bool
    ensures { result ≡ is_lt (slice_cmp nat_cmp low.now key.now) }
{
    low.cmp(&key).is_lt()
}

/// The key and the value at a byte offset, if the key stands above `low`, and the offset after them.
pub(crate) fn pair_at<'a>(
    bytes: &'a [u8],
    at: usize,
    low: &[u8],
) -> Option<(&'a [u8], &'a [u8], usize)>
    ensures { option_map (λ x. ((x.0.now, x.1.now), x.2)) result
        ≡ result_ok ((pair_above low.now).read bytes.now at) }
{
    let (key, next) = key_at(bytes, at)?;
    let (value, next) = value_at(bytes, next)?;
    if is_above(low, key) {
        Some((key, value, next))
    } else {
        None
    }
}

fn told_at(bytes: &[u8], at: usize) -> Option<(Told<'_>, usize)>
    ensures { option_map (λ x. (told_answer x.0, x.1)) result ≡ result_ok (kept_answer.read bytes.now at) }
{
    let (tag, next) = u8_at(bytes, at, DONE, ABSENT)?;
    match tag {
        DONE => Some((Told::Done, next)),
        VALUE => {
            let (value, next) = value_at(bytes, next)?;
            Some((Told::Value(value), next))
        }
        _ => Some((Told::Absent, next)),
    }
}

/// The client and its last command at a byte offset, if the client stands above `low`, and the offset after
/// them.
pub(crate) fn client_at(bytes: &[u8], at: usize, low: u64) -> Option<(LastCommand<'_>, usize)>
    ensures { option_map (λ x. (kept_of x.0, x.1)) result ≡ result_ok ((client_above low).read bytes.now at) }
{
    let (client, next) = u64_at(bytes, at, 1, GREATEST_NUMBER)?;
    let (seq, next) = u64_at(bytes, next, 1, GREATEST_NUMBER)?;
    let (told, next) = told_at(bytes, next)?;
    if low < client {
        Some((LastCommand { client, seq, told }, next))
    } else {
        None
    }
}
