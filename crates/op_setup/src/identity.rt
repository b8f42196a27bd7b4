//! Whose a node's folder is.
ghost use Rattle.std.specs.Prelude.{◌≡◌, ◌++◌, ◌∷◌, ℕ, List, IfOk, IfSome, IfNone};
ghost use Rattle.op_setup.specs.Identities.{IsIdentity, identity_line};
ghost use Rattle.op_setup.specs.Splits.{IsSplit};

use crate::cluster_name::is_cluster_name;
use itoa::Buffer;
use op_text::pid;
use op_types::{NoMemory, Pid};
use std::alloc::Global;

/// What stands behind the line of a folder once its node has begun.
pub const BEGUN_LINE: [u8; 6] = *b"begun\n";

/// Whose a node's folder is, as a text tells.
#[derive(Clone, Copy)]
pub struct Identity<'a> {
    /// The node's id.
    pub id: Pid,
    /// The name of its cluster.
    pub name: &'a [u8],
    /// What stands behind that line: the node has begun where there is something.
    pub after: &'a [u8],
}

/// Whose the folder of this text is, if it tells that.
pub fn identity_of(text: &[u8]) -> Option<Identity<'_>>
    ensures found { IfSome result (λ i. IsIdentity text.now i.id i.name.now i.after.now) }
    ensures none { IfNone result
        ((id : ℕ) (name after : List ℕ) → IsIdentity text.now id name after → ⊥) }
{
    let Some((line, after)) = split(text, b'\n') else {
        return None;
    };
    let Some((digits, name)) = split(line, b' ') else {
        return None;
    };
    let Some(id) = pid(digits) else {
        return None;
    };
    if !is_cluster_name(name) {
        return None;
    }
    Some(Identity { id, name, after })
}

/// What stands before the first such byte of a text, and behind it.
fn split(text: &[u8], byte: u8) -> Option<(&[u8], &[u8])>
    ensures found { IfSome result (λ parts. IsSplit text.now byte parts.0.now parts.1.now) }
    ensures none { IfNone result ((before after : List ℕ) → IsSplit text.now byte before after → ⊥) }
{
    let Some(at) = text.iter().position(|b| *b == byte) else {
        return None;
    };
    Some((&text[..at], &text[at + 1..]))
}

/// The text that says that a folder is this node's, of the cluster of this name.
pub fn identity_text(alloc: Global, id: Pid, name: &[u8]) -> Result<Vec<u8>, NoMemory>
    ensures { IfOk result (λ text. text.items ≡ identity_line id name.now) }
{
    let mut buffer = Buffer::new();
    let mut text = Vec::new(alloc);
    text.extend_from_slice(buffer.format(id).as_bytes())?;
    text.extend_from_slice(b" ")?;
    text.extend_from_slice(name)?;
    text.extend_from_slice(b"\n")?;
    Ok(text)
}
