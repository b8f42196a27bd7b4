ghost use Rattle.std.specs.Prelude.{◌≡◌, ◌++◌, ◌<◌, ◌^◌, ◌*◌, length, OnOk, OnErr};
ghost use Rattle.std.specs.Int.{w8, w16, w32, w64};
ghost use Rattle.op_fields.specs.Form.{encoded};
ghost use Rattle.op_fields.specs.Counted.{FitsWidth, width_of, counted_text};

use std::alloc::AllocError as NoMemory;

/// Appends a number, the highest byte first. Without memory nothing is appended.
#[tactic(auto, unfolding(crate::specs::Form::encoded))]
pub fn put_u8(out: &mut Vec<u8>, n: u8) -> Result<(), NoMemory>
    ensures ok { OnOk result (out.new.items ≡ out.old.items ++ encoded w8 n) }
    ensures err { OnErr result (out.new.items ≡ out.old.items) }
{
    out.extend_from_slice(&n.to_be_bytes())?;
    Ok(())
}

/// Appends a number, the highest byte first. Without memory nothing is appended.
#[tactic(auto, unfolding(crate::specs::Form::encoded))]
pub fn put_u16(out: &mut Vec<u8>, n: u16) -> Result<(), NoMemory>
    ensures ok { OnOk result (out.new.items ≡ out.old.items ++ encoded w16 n) }
    ensures err { OnErr result (out.new.items ≡ out.old.items) }
{
    out.extend_from_slice(&n.to_be_bytes())?;
    Ok(())
}

/// Appends a number, the highest byte first. Without memory nothing is appended.
#[tactic(auto, unfolding(crate::specs::Form::encoded))]
pub fn put_u32(out: &mut Vec<u8>, n: u32) -> Result<(), NoMemory>
    ensures ok { OnOk result (out.new.items ≡ out.old.items ++ encoded w32 n) }
    ensures err { OnErr result (out.new.items ≡ out.old.items) }
{
    out.extend_from_slice(&n.to_be_bytes())?;
    Ok(())
}

/// Appends a number, the highest byte first. Without memory nothing is appended.
#[tactic(auto, unfolding(crate::specs::Form::encoded))]
pub fn put_u64(out: &mut Vec<u8>, n: u64) -> Result<(), NoMemory>
    ensures ok { OnOk result (out.new.items ≡ out.old.items ++ encoded w64 n) }
    ensures err { OnErr result (out.new.items ≡ out.old.items) }
{
    out.extend_from_slice(&n.to_be_bytes())?;
    Ok(())
}

/// Appends the length of these bytes, as a number of `width` bytes, and the bytes. Without memory nothing is
/// appended.
pub fn put_counted(out: &mut Vec<u8>, width: u8, bytes: &[u8]) -> Result<(), NoMemory>
    requires { FitsWidth width (length bytes.now) }
    ensures ok { OnOk result (out.new.items ≡ out.old.items ++ counted_text width bytes.now) }
    ensures err { OnErr result (out.new.items ≡ out.old.items) }
{
    let len = out.len();
    put_count(out, width, bytes.len())?;
    let Ok(()) = out.extend_from_slice(bytes) else {
        out.truncate(len);
        return Err(NoMemory);
    };
    Ok(())
}

fn put_count(out: &mut Vec<u8>, width: u8, count: usize) -> Result<(), NoMemory>
    requires { FitsWidth width count }
    ensures ok { OnOk result (out.new.items ≡ out.old.items ++ encoded (width_of width) count) }
    ensures err { OnErr result (out.new.items ≡ out.old.items) }
{
    match width {
        1 => put_u8(out, count as u8),
        2 => put_u16(out, count as u16),
        _ => put_u64(out, count as u64),
    }
}
