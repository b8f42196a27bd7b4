ghost use Rattle.std.specs.Prelude.{◌≡◌, IfSome};
ghost use Rattle.op_types.specs.Ranges.{IsPid};
ghost use Rattle.op_serving.specs.Ranges.{KindInRange};
ghost use Rattle.op_serving.specs.Turns.{hello_less, up_peer};

use op_types::Pid;

/// Whose a session is.
#[derive(Clone, Copy, Debug, PartialEq, Eq)]
pub enum Kind {
    /// Its first bytes have not come yet.
    Unknown,
    /// Of this peer. So many bytes of the own hello are still to be written; at 0 it has its Up.
    Peer(Pid, u8),
    /// Of a client.
    Client,
}

impl Kind {
    /// So many bytes more of the own hello were written.
    pub fn with_less_hello(self, n: usize) -> Kind
        ensures less { result ≡ hello_less n self }
        ensures range { KindInRange self → KindInRange result }
    {
        match self {
            Kind::Peer(peer, left) if n < left as usize => Kind::Peer(peer, left - n as u8),
            Kind::Peer(peer, _) => Kind::Peer(peer, 0),
            Kind::Unknown => Kind::Unknown,
            Kind::Client => Kind::Client,
        }
    }
}

/// The peer to whom a dialler's hello went out whole, by whose session it was before and is now.
pub fn goes_up(before: Option<Kind>, now: Option<Kind>) -> Option<Pid>
    ensures up { result ≡ up_peer before now }
    ensures range { IfSome before KindInRange → IfSome result IsPid }
{
    match (before, now) {
        (Some(Kind::Peer(peer, left)), Some(Kind::Peer(_, 0))) => {
            if left == 0 { None } else { Some(peer) }
        }
        _ => None,
    }
}
