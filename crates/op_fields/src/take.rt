ghost use Rattle.std.specs.Prelude.{IfOk, IfErr};
ghost use Rattle.std.specs.Int.{w8, w16, w32, w64};
ghost use Rattle.op_fields.specs.Taken.{IsNumberAt, IsShortAt, IsCountedAt, IsShortCounted};
ghost use Rattle.op_fields.specs.Counted.{IsWidth, width_of};

use crate::fail::Short;

/// The number at byte offset `at`, the highest byte first. It is short where fewer bytes remain there.
pub fn take_u8(bytes: &[u8], at: usize) -> Result<u8, Short>
    ensures found { IfOk result (IsNumberAt w8 bytes.now at) }
    ensures short { IfErr result (IsShortAt w8 bytes.now at) }
{
    if bytes.len() < at || bytes.len() - at < 1 {
        return Err(Short { at });
    }
    let b = &bytes[at..at + 1];
    Ok(u8::from_be_bytes([b[0]]))
}

/// The number at byte offset `at`, the highest byte first. It is short where fewer bytes remain there.
pub fn take_u16(bytes: &[u8], at: usize) -> Result<u16, Short>
    ensures found { IfOk result (IsNumberAt w16 bytes.now at) }
    ensures short { IfErr result (IsShortAt w16 bytes.now at) }
{
    if bytes.len() < at || bytes.len() - at < 2 {
        return Err(Short { at });
    }
    let b = &bytes[at..at + 2];
    Ok(u16::from_be_bytes([b[0], b[1]]))
}

/// The number at byte offset `at`, the highest byte first. It is short where fewer bytes remain there.
pub fn take_u32(bytes: &[u8], at: usize) -> Result<u32, Short>
    ensures found { IfOk result (IsNumberAt w32 bytes.now at) }
    ensures short { IfErr result (IsShortAt w32 bytes.now at) }
{
    if bytes.len() < at || bytes.len() - at < 4 {
        return Err(Short { at });
    }
    let b = &bytes[at..at + 4];
    Ok(u32::from_be_bytes([b[0], b[1], b[2], b[3]]))
}

/// The number at byte offset `at`, the highest byte first. It is short where fewer bytes remain there.
pub fn take_u64(bytes: &[u8], at: usize) -> Result<u64, Short>
    ensures found { IfOk result (IsNumberAt w64 bytes.now at) }
    ensures short { IfErr result (IsShortAt w64 bytes.now at) }
{
    if bytes.len() < at || bytes.len() - at < 8 {
        return Err(Short { at });
    }
    let b = &bytes[at..at + 8];
    Ok(u64::from_be_bytes([b[0], b[1], b[2], b[3], b[4], b[5], b[6], b[7]]))
}

/// The bytes after their length, a number of `width` bytes at byte offset `at`. Where fewer bytes remain for
/// either, the place that is told is the length's.
pub fn take_counted<'a>(bytes: &'a [u8], at: usize, width: u8) -> Result<&'a [u8], Short>
    requires { IsWidth width }
    ensures found { IfOk result (λ text. IsCountedAt (width_of width) bytes.now at text.now) }
    ensures short { IfErr result (IsShortCounted (width_of width) bytes.now at) }
{
    let count = take_count(bytes, at, width)?;
    let from = at + width as usize;
    if ((bytes.len() - from) as u64) < count {
        return Err(Short { at });
    }
    Ok(&bytes[from..from + count as usize])
}

fn take_count(bytes: &[u8], at: usize, width: u8) -> Result<u64, Short>
    requires { IsWidth width }
    ensures found { IfOk result (IsNumberAt (width_of width) bytes.now at) }
    ensures short { IfErr result (IsShortAt (width_of width) bytes.now at) }
{
    match width {
        1 => Ok(take_u8(bytes, at)? as u64),
        2 => Ok(take_u16(bytes, at)? as u64),
        _ => take_u64(bytes, at),
    }
}
