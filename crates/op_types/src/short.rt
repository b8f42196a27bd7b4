ghost use Rattle.std.specs.Prelude.{◌≡◌, ◌≤◌, length, take, drop};
ghost use Rattle.std.specs.Ordering.{nat_cmp};
ghost use Rattle.std.specs.Cmp.Lexicographic.{slice_cmp};
ghost use Rattle.op_types.specs.Words.{most_short_bytes, spelt, ZerosFrom};

use std::cmp::Ordering;

/// How many bytes stand in place at most.
pub const MOST_SHORT_BYTES: usize = 14;

/// A few bytes in place; the places behind them are zeros.
#[derive(Debug, Clone, Copy)]
pub struct ShortBytes {
    bytes: [u8; MOST_SHORT_BYTES],
    len: u8,
    ghost fits: { len ≤ length bytes },
    ghost padded: { ZerosFrom len bytes },
}

impl ShortBytes {
    ghost use Rattle.op_types.specs.Blobs.{short_bytes};

    /// These bytes.
    pub fn new(from: &[u8]) -> ShortBytes
        requires { length from.now ≤ most_short_bytes }
        ensures { short_bytes result ≡ from.now }
    {
        let mut bytes = [0; MOST_SHORT_BYTES];
        bytes[..from.len()].copy_from_slice(from);
        ShortBytes {
            bytes,
            len: from.len() as u8,
        }
    }

    /// The bytes.
    pub fn as_slice(&self) -> &[u8]
        ensures { result.now ≡ short_bytes self.now }
    {
        &self.bytes[..self.len as usize]
    }

    /// The order of the bytes by their first difference. Two numbers decide it, since zeros stand behind the
    /// bytes.
    pub fn order(&self, other: &ShortBytes) -> Ordering
        ensures { result ≡ slice_cmp nat_cmp (short_bytes self.now) (short_bytes other.now) }
    {
        order_of_places(&self.bytes, &other.bytes).then(self.len.cmp(&other.len))
    }
}

/// The order of all places: of the first eight as a number, and then of the others.
fn order_of_places(a: &[u8], b: &[u8]) -> Ordering
    requires { (length a.now ≡ most_short_bytes) × (length b.now ≡ most_short_bytes) }
    ensures { result ≡ slice_cmp nat_cmp a.now b.now }
{
    let (x, y) = (first_word(a), first_word(b));
    if x != y {
        return x.cmp(&y);
    }
    last_word(a).cmp(&last_word(b))
}

/// The first eight bytes as a number, the first one the greatest.
fn first_word(b: &[u8]) -> u64
    requires { length b.now ≡ most_short_bytes }
    ensures { result ≡ spelt 0 (take 8 b.now) }
{
    u64::from_be_bytes([b[0], b[1], b[2], b[3], b[4], b[5], b[6], b[7]])
}

/// The six bytes behind them as a number.
fn last_word(b: &[u8]) -> u64
    requires { length b.now ≡ most_short_bytes }
    ensures { result ≡ spelt 0 (take 6 (drop 8 b.now)) }
{
    u64::from_be_bytes([0, 0, b[8], b[9], b[10], b[11], b[12], b[13]])
}
