//! Addresses as text.
ghost use Rattle.std.specs.Prelude.{◌≡◌, ◌∷◌, ◌++◌, ℕ, List, Some, option_map};
ghost use Rattle.op_text.specs.Found.{IsFound};
ghost use Rattle.op_setup.specs.Addresses.{HasNoColon, IsAddr, IsSocketText, colon};

use op_outside::Addr;
use op_text::number;
use std::net::SocketAddrV4;

/// The address of a text. No memory is taken.
pub fn addr(text: &str) -> Option<Addr>
    ensures { IsFound (IsAddr text.now) result }
{
    let Some(socket) = socket(text) else {
        return None;
    };
    if socket.port() == 0 {
        return None;
    }
    Some(Addr {
        host: socket.ip().to_bits(),
        port: socket.port(),
    })
}

/// The address of a text, which may have port 0.
fn socket(text: &str) -> Option<SocketAddrV4>
    ensures { IsFound (IsSocketText text.now) result }
{
    let Ok(socket) = text.parse::<SocketAddrV4>() else {
        return None;
    };
    let Some(digits) = after_colon(text.as_bytes()) else {
        return None;
    };
    // A port with leading zeros isn't taken.
    let Some(_) = number(digits) else {
        return None;
    };
    Some(socket)
}

/// What stands after the first `:` of a text.
fn after_colon(text: &[u8]) -> Option<&[u8]>
    ensures { (host port : List ℕ) → HasNoColon host → text.now ≡ host ++ colon ∷ port
        → option_map (λ x. x.now) result ≡ Some port }
{
    let Some(at) = text.iter().position(|b| *b == b':') else {
        return None;
    };
    Some(&text[at + 1..])
}
