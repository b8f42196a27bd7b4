//! Numbers, appended to a text.
ghost use Rattle.std.specs.Prelude.{◌≡◌, ◌++◌, codes, decimal, OnOk};

use crate::numbers::BASE;
use itoa::Buffer;
use op_types::NoMemory;

/// Appends a number, in decimal digits.
#[tactic(auto, using(std::proofs::lemmas::Fmt::decimal_digit))]
pub fn put_number(text: &mut Vec<u8>, n: u64) -> Result<(), NoMemory>
    ensures { OnOk result (text.new.items ≡ text.old.items ++ decimal n) }
{
    // Most numbers of a report have one digit.
    if n < BASE {
        text.push(b'0' + n as u8)?;
        return Ok(());
    }
    text.extend_from_slice(Buffer::new().format(n).as_bytes())
}

/// Appends a number, and a space.
pub fn put_spaced(text: &mut Vec<u8>, n: u64) -> Result<(), NoMemory>
    ensures { OnOk result (text.new.items ≡ text.old.items ++ decimal n ++ codes " ") }
{
    put_number(text, n)?;
    text.push(b' ')?;
    Ok(())
}

/// Appends a name, and a number.
pub fn put_named(text: &mut Vec<u8>, name: &[u8], n: u64) -> Result<(), NoMemory>
    ensures { OnOk result (text.new.items ≡ text.old.items ++ name.now ++ decimal n) }
{
    text.extend_from_slice(name)?;
    put_number(text, n)
}
