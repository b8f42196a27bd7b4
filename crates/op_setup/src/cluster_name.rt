//! Names of clusters.
ghost use Rattle.std.specs.Prelude.{◌≡◌, ◌≤◌, ◌↔◌, length, IsTrue};
ghost use Rattle.std.specs.List.{list_all};
ghost use Rattle.op_text.specs.Percent.{is_plain};
ghost use Rattle.op_setup.specs.Identities.{IsClusterName, most_name};
ghost use Rattle.op_setup.specs.Names.{name_bytes};

/// The most bytes of a cluster's name.
pub const MOST_NAME_BYTES: usize = 64;

/// Whether a text is the name of a cluster: 1 to 64 letters, digits, `.` or `_`.
pub fn is_cluster_name(text: &[u8]) -> bool
    ensures { IsTrue result ↔ IsClusterName text.now }
{
    !text.is_empty() && text.len() <= MOST_NAME_BYTES && all_plain(text)
}

/// Whether each byte is a letter, a digit, `.` or `_`.
fn all_plain(text: &[u8]) -> bool
    ensures { result ≡ list_all is_plain text.now }
{
    text.iter().all(|b| is_name_byte(*b))
}

/// Whether a byte is a letter, a digit, `.` or `_`.
fn is_name_byte(byte: u8) -> bool
    ensures { result ≡ is_plain byte }
{
    byte.is_ascii_alphanumeric() || byte == b'.' || byte == b'_'
}

/// The name of a cluster, in place, so that it is told without memory.
#[derive(Clone, Copy, Debug, PartialEq, Eq)]
pub struct ClusterName {
    bytes: [u8; MOST_NAME_BYTES],
    len: u8,
}

impl ClusterName {
    /// These bytes.
    pub fn new(from: &[u8]) -> ClusterName
        requires { length from.now ≤ most_name }
        ensures { name_bytes result ≡ from.now }
    {
        let mut bytes = [0; MOST_NAME_BYTES];
        bytes[..from.len()].copy_from_slice(from);
        ClusterName {
            bytes,
            len: from.len() as u8,
        }
    }

    /// The bytes.
    pub fn as_slice(&self) -> &[u8]
        ensures { result.now ≡ name_bytes self.now }
    {
        &self.bytes[..usize::from(self.len).min(MOST_NAME_BYTES)]
    }
}
