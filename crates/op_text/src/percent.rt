//! The percent encoding of keys and values.
ghost use Rattle.std.specs.Prelude.{◌≡◌, ◌<◌, ◌++◌, true, OnOk};
ghost use Rattle.std.specs.Fmt.{digit_glyph};
ghost use Rattle.std.specs.List.{flat_map, list_all};
ghost use Rattle.op_text.specs.Percent.{is_plain, encoded, encoded_byte};

use op_types::NoMemory;

/// Each byte that stands for itself, at its own place, and `%` at every other place.
static PLAIN_BYTES: [u8; 256] = *b"\
    %%%%%%%%%%%%%%%%%%%%%%%%%%%%%%%%\
    %%%%%%%%%%%%%%.%0123456789%%%%%%\
    %ABCDEFGHIJKLMNOPQRSTUVWXYZ%%%%_\
    %abcdefghijklmnopqrstuvwxyz%%%%%\
    %%%%%%%%%%%%%%%%%%%%%%%%%%%%%%%%\
    %%%%%%%%%%%%%%%%%%%%%%%%%%%%%%%%\
    %%%%%%%%%%%%%%%%%%%%%%%%%%%%%%%%\
    %%%%%%%%%%%%%%%%%%%%%%%%%%%%%%%%";

/// Whether a byte stands for itself in keys and values.
pub fn is_plain(byte: u8) -> bool
    ensures { result ≡ is_plain byte }
{
    PLAIN_BYTES[usize::from(byte)] != b'%'
}

/// Whether each byte stands for itself. Four of them at a time take less than one by one.
pub fn all_plain(bytes: &[u8]) -> bool
    ensures { result ≡ list_all is_plain bytes.now }
{
    let mut rest = bytes;
    while let [first, second, third, fourth, after @ ..] = rest {
        if !(is_plain(*first) && is_plain(*second) && is_plain(*third) && is_plain(*fourth)) {
            return false;
        }
        rest = after;
    }
    each_plain(rest)
}

/// Whether each byte stands for itself, one by one.
fn each_plain(bytes: &[u8]) -> bool
    ensures { result ≡ list_all is_plain bytes.now }
{
    bytes.iter().all(|b| is_plain(*b))
}

/// Appends a key or a value, encoded.
#[tactic(auto, using(crate::proofs::PlainBytes::encoded_plain))]
pub fn put_encoded(text: &mut Vec<u8>, bytes: &[u8]) -> Result<(), NoMemory>
    ensures { OnOk result (text.new.items ≡ text.old.items ++ encoded bytes.now) }
{
    if bytes.is_empty() {
        return text.extend_from_slice(b"%");
    }
    if all_plain(bytes) {
        return text.extend_from_slice(bytes);
    }
    put_each(text, bytes)
}

/// Appends the encodings of bytes, one after the other.
fn put_each(text: &mut Vec<u8>, bytes: &[u8]) -> Result<(), NoMemory>
    ensures { OnOk result (text.new.items ≡ text.old.items ++ flat_map encoded_byte bytes.now) }
{
    for byte in bytes {
        put_byte(text, *byte)?;
    }
    Ok(())
}

/// Appends a byte of a key or a value: itself, or its escape.
fn put_byte(text: &mut Vec<u8>, byte: u8) -> Result<(), NoMemory>
    ensures { OnOk result (text.new.items ≡ text.old.items ++ encoded_byte byte) }
{
    if is_plain(byte) {
        return text.extend_from_slice(&[byte]);
    }
    text.extend_from_slice(&[b'%', glyph(byte / 16), glyph(byte % 16)])
}

/// The upper-case hexadecimal digit of a value.
fn glyph(value: u8) -> u8
    requires { value < 16 }
    ensures { result ≡ digit_glyph true value }
{
    if value < 10 {
        b'0' + value
    } else {
        b'A' + (value - 10)
    }
}
