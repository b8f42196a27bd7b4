ghost use Rattle.std.specs.Prelude.{◌≡◌, ◌≤◌, ◌++◌, ℕ, length, OnOk, OnErr};
ghost use Rattle.op_serving.specs.Turns.{hello};
ghost use Rattle.op_serving.specs.Reading.{greeting, hello_len};
ghost use Rattle.op_serving.specs.declared.greeting.Greeting.TheVariants.{Client, Peer};

use op_conns::Queue;
use op_fields::{put_u8, put_u32, take_u32};
use op_types::{NoMemory, Pid};
use std::alloc::Global;

/// How many bytes a peer's hello has.
pub const HELLO_LEN: usize = 5;

/// The first byte of a client's connection, and of a peer's.
const CLIENT_BYTE: u8 = b'C';

const PEER_BYTE: u8 = b'Q';

/// What the first bytes of a connection say.
#[derive(Clone, Copy, Debug, PartialEq, Eq)]
pub enum Greeting {
    /// Not enough have come.
    Silent,
    /// A client greets.
    Client,
    /// The server of this id greets, with a whole hello.
    Peer(Pid),
    /// The first byte is neither a client's nor a peer's.
    Strange,
}

/// What the bytes say that a connection begins with.
#[tactic(auto, unfolding(crate::specs::Reading::greeting))]
pub fn read_greeting(held: &[u8]) -> Greeting
    ensures is { result ≡ greeting held.now }
    ensures client { result ≡ Client → 1 ≤ length held.now }
    ensures peer { (q : ℕ) → result ≡ Peer q → hello_len ≤ length held.now }
{
    match held.first() {
        None => Greeting::Silent,
        Some(&CLIENT_BYTE) => Greeting::Client,
        Some(&PEER_BYTE) => match take_u32(held, 1) {
            Ok(peer) => Greeting::Peer(peer),
            Err(_) => Greeting::Silent,
        },
        Some(_) => Greeting::Strange,
    }
}

/// Adds the bytes with which this node says who it is. Without memory nothing changes.
#[tactic(auto, unfolding(crate::specs::Turns::hello))]
pub fn put_hello(queue: &mut Queue, alloc: Global, me: Pid) -> Result<(), NoMemory>
    ensures ok { OnOk result (queue.new ≡ queue.old ++ hello me) }
    ensures err { OnErr result (queue.new ≡ queue.old) }
{
    let mut bytes = Vec::new(alloc);
    put_u8(&mut bytes, PEER_BYTE)?;
    put_u32(&mut bytes, me)?;
    queue.add(bytes.as_slice())
}
