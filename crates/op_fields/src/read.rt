ghost use Rattle.std.specs.Int.{w8, w16, w32, w64};
ghost use Rattle.op_fields.specs.Form.{number_read, counted_read};
ghost use Rattle.op_fields.specs.Taken.{Gives, GivesSlice};

use crate::fail::TakeFail;
use crate::take::{take_u8, take_u16, take_u32, take_u64};

/// The number at byte offset `at`, if it is from low to high, and the offset after it.
pub fn u8_in(bytes: &[u8], at: usize, low: u8, high: u8) -> Result<(u8, usize), TakeFail>
    ensures { Gives result (number_read w8 low high bytes.now at) }
{
    let n = take_u8(bytes, at)?;
    if n < low || high < n {
        return Err(TakeFail::Bad { at });
    }
    Ok((n, at + 1))
}

/// The number at byte offset `at`, if it is from low to high, and the offset after it.
pub fn u16_in(bytes: &[u8], at: usize, low: u16, high: u16) -> Result<(u16, usize), TakeFail>
    ensures { Gives result (number_read w16 low high bytes.now at) }
{
    let n = take_u16(bytes, at)?;
    if n < low || high < n {
        return Err(TakeFail::Bad { at });
    }
    Ok((n, at + 2))
}

/// The number at byte offset `at`, if it is from low to high, and the offset after it.
pub fn u32_in(bytes: &[u8], at: usize, low: u32, high: u32) -> Result<(u32, usize), TakeFail>
    ensures { Gives result (number_read w32 low high bytes.now at) }
{
    let n = take_u32(bytes, at)?;
    if n < low || high < n {
        return Err(TakeFail::Bad { at });
    }
    Ok((n, at + 4))
}

/// The number at byte offset `at`, if it is from low to high, and the offset after it.
pub fn u64_in(bytes: &[u8], at: usize, low: u64, high: u64) -> Result<(u64, usize), TakeFail>
    ensures { Gives result (number_read w64 low high bytes.now at) }
{
    let n = take_u64(bytes, at)?;
    if n < low || high < n {
        return Err(TakeFail::Bad { at });
    }
    Ok((n, at + 8))
}

/// The bytes after a length of one byte at byte offset `at`, if it is from low to high, and the offset after
/// them.
pub fn bytes_after_u8(
    bytes: &[u8],
    at: usize,
    low: u8,
    high: u8,
) -> Result<(&[u8], usize), TakeFail>
    ensures { GivesSlice (λ s. s.now) result (counted_read w8 low high bytes.now at) }
{
    let (len, next) = u8_in(bytes, at, low, high)?;
    let len = len as usize;
    if bytes.len() - next < len {
        return Err(TakeFail::Bad { at });
    }
    Ok((&bytes[next..next + len], next + len))
}

/// The bytes after a length of two bytes at byte offset `at`, if it is from low to high, and the offset after
/// them.
pub fn bytes_after_u16(
    bytes: &[u8],
    at: usize,
    low: u16,
    high: u16,
) -> Result<(&[u8], usize), TakeFail>
    ensures { GivesSlice (λ s. s.now) result (counted_read w16 low high bytes.now at) }
{
    let (len, next) = u16_in(bytes, at, low, high)?;
    let len = len as usize;
    if bytes.len() - next < len {
        return Err(TakeFail::Bad { at });
    }
    Ok((&bytes[next..next + len], next + len))
}

/// The bytes after a length of eight bytes at byte offset `at`, if it is from low to high, and the offset
/// after them.
pub fn bytes_after_u64(
    bytes: &[u8],
    at: usize,
    low: u64,
    high: u64,
) -> Result<(&[u8], usize), TakeFail>
    ensures { GivesSlice (λ s. s.now) result (counted_read w64 low high bytes.now at) }
{
    let (len, next) = u64_in(bytes, at, low, high)?;
    let len = len as usize;
    if bytes.len() - next < len {
        return Err(TakeFail::Bad { at });
    }
    Ok((&bytes[next..next + len], next + len))
}
