ghost use Rattle.std.specs.Prelude.{◌≡◌, ◌≤◌, ◌∷◌, [], length, take};
ghost use Rattle.op_fields.specs.Reads.{IsBytes};
ghost use Rattle.op_outside.specs.Causes.{FailsOnlyOnFault};
ghost use Rattle.op_outside.specs.Nets.{WasRead, seen_in, GotWithin};
ghost use Rattle.op_outside.specs.Telling.{Grows};
ghost use Rattle.op_serving.specs.Pump.{piece_len};

use op_outside::{Conn, Got, Net, NetFail};
use op_types::NoMemory;
use std::alloc::Global;
use std::marker::Model;

/// How many bytes one read asks for.
const PIECE_LEN: usize = 65_536;

/// Room for what a read gives. It is made once, and each read writes over the last one's bytes.
#[derive(Drop)]
pub struct Room {
    bytes: Vec<u8>,
}

impl Model for Room {
    ghost use Rattle.std.specs.Prelude.{◌≡◌, List, ℕ, length};
    ghost use Rattle.op_serving.specs.Pump.{piece_len};

    ghost Value = { List ℕ };

    ghost view = { λ r. r.bytes.items };

    ghost invariant = { λ r. length r.bytes.items ≡ piece_len };
}

impl Room {
    /// Room for a read.
    pub fn new(alloc: Global) -> Result<Room, NoMemory> {
        let bytes = vec![in alloc; 0u8; PIECE_LEN]?;
        Ok(Room { bytes })
    }

    /// Exactly one read.
    pub fn read<N: Net>(&mut self, net: &mut N, conn: Conn) -> Result<Got, NetFail>
        ensures within { GotWithin piece_len result }
        ensures given { N.given net.new ≡ N.given net.old }
        ensures tells { Grows (N.told net.old) (WasRead conn piece_len (seen_in self.new result) ∷ [])
            (N.told net.new) }
        ensures cause { FailsOnlyOnFault (N.fault_count net.old) (N.fault_count net.new) result }
    {
        net.read(conn, self.bytes.as_mut_slice())
    }

    /// The first bytes that the last read gave.
    pub fn front(&self, n: usize) -> &[u8]
        requires { n ≤ piece_len }
        ensures is { result.now ≡ take n self.now }
        ensures len { length result.now ≡ n }
        ensures bytes { IsBytes result.now }
    {
        let front = &self.bytes[..n];
        are_bytes(front);
        front
    }
}

/// These are bytes.
fn are_bytes(bytes: &[u8])
    ensures { IsBytes bytes.now }
{
    let _count = bytes.len();
}
