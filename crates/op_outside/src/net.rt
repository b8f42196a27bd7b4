ghost use Rattle.std.specs.Prelude.{◌≡◌, ◌≤◌, ◌<◌, ℕ, List, ◌∷◌, [], Option, IfOk, length};
ghost use Rattle.std.specs.Result.{result_ok};
ghost use Rattle.op_outside.specs.Causes.{FailsOnlyOnFault};
ghost use Rattle.op_outside.specs.Telling.{Grows};
ghost use Rattle.op_outside.specs.Nets.{most_happenings, Call, Listened, Dialled, Waited, Readied, WasRead, Wrote, Closed, seen_in, GotWithin, TookWithin};

/// The number of a connection. No two that are open at one time share it.
pub type Conn = u64;

/// How many happenings a wait gives at most.
pub const MOST_HAPPENINGS: usize = 64;

/// An IPv4 address and a port.
#[derive(Clone, Copy, Debug, PartialEq, Eq)]
pub struct Addr {
    /// The address, its first number in the highest byte.
    pub host: u32,
    /// The port, from 1.
    pub port: u16,
}

/// What happened at a net.
#[derive(Clone, Copy, Debug, PartialEq, Eq)]
pub enum Happening {
    /// A connection that was dialled elsewhere is open.
    Accepted(Conn),
    /// A connection has bytes, or has ended.
    Readable(Conn),
    /// A connection has room again.
    Writable(Conn),
    /// A connection has ended.
    Ended(Conn),
}

/// What a read gave.
#[derive(Clone, Copy, Debug, PartialEq, Eq)]
pub enum Got {
    /// So many bytes, 1 at least, at the start of the buffer.
    Bytes(usize),
    /// There are no bytes now.
    NotYet,
    /// The connection has ended.
    Ended,
}

/// What a write took.
#[derive(Clone, Copy, Debug, PartialEq, Eq)]
pub enum Took {
    /// So many bytes of the piece, 1 at least, from its start.
    Bytes(usize),
    /// There is no room now.
    NotYet,
    /// The connection has ended.
    Ended,
}

/// A call of a net failed.
#[derive(Clone, Copy, Debug, PartialEq, Eq)]
pub struct NetFail;

/// Connections to other programs. An error comes only where the count of faults rises in the call. That a
/// connection ends is no fault.
pub trait Net {
    /// Its calls with their answers, where it tells them: a real net tells nothing.
    ghost told: { Self → Option (List Call) };

    /// How many calls have failed. The count stays at the last value of a u64.
    ghost fault_count: { Self → ℕ };

    /// How many happenings the last wait gave.
    ghost given: { Self → ℕ };

    /// How many calls have failed. The count stays at the last value of a u64.
    fn faults(&self) -> u64
        ensures { result ≡ fault_count self.now };

    /// Accepts connections at this address from now on.
    fn listen(&mut self, addr: &Addr) -> Result<(), NetFail>
        ensures given { given self.new ≡ given self.old }
        ensures tells { Grows (told self.old) (Listened addr.now (result_ok result) ∷ []) (told self.new) }
        ensures cause { FailsOnlyOnFault (fault_count self.old) (fault_count self.new) result };

    /// Begins a connection to this address, or None.
    fn dial(&mut self, addr: &Addr) -> Result<Option<Conn>, NetFail>
        ensures given { given self.new ≡ given self.old }
        ensures tells { Grows (told self.old) (Dialled addr.now (result_ok result) ∷ []) (told self.new) }
        ensures cause { FailsOnlyOnFault (fault_count self.old) (fault_count self.new) result };

    /// Waits for happenings, for `ms` milliseconds at most, and gives how many there are: `ready` tells each.
    fn wait(&mut self, ms: u64) -> Result<usize, NetFail>
        ensures most { IfOk result (λ n. n ≤ most_happenings) }
        ensures given { IfOk result (λ n. given self.new ≡ n) }
        ensures tells { Grows (told self.old) (Waited ms (result_ok result) ∷ []) (told self.new) }
        ensures cause { FailsOnlyOnFault (fault_count self.old) (fault_count self.new) result };

    /// A happening of the last wait, from 0.
    fn ready(&mut self, i: usize) -> Happening
        requires { i < given self.old }
        ensures given { given self.new ≡ given self.old }
        ensures tells { Grows (told self.old) (Readied i result ∷ []) (told self.new) }
        ensures count { fault_count self.new ≡ fault_count self.old };

    /// Reads what a connection has, up to `buf.len()` bytes.
    fn read(&mut self, conn: Conn, buf: &mut [u8]) -> Result<Got, NetFail>
        requires { 0 < length buf.old }
        ensures within { GotWithin (length buf.old) result }
        ensures given { given self.new ≡ given self.old }
        ensures tells { Grows (told self.old) (WasRead conn (length buf.old) (seen_in buf.new result) ∷ [])
            (told self.new) }
        ensures cause { FailsOnlyOnFault (fault_count self.old) (fault_count self.new) result };

    /// Writes as much of a piece as the connection has room for.
    fn write(&mut self, conn: Conn, piece: &[u8]) -> Result<Took, NetFail>
        requires { 0 < length piece.now }
        ensures within { TookWithin (length piece.now) result }
        ensures given { given self.new ≡ given self.old }
        ensures tells { Grows (told self.old) (Wrote conn piece.now (result_ok result) ∷ []) (told self.new) }
        ensures cause { FailsOnlyOnFault (fault_count self.old) (fault_count self.new) result };

    /// Ends a connection.
    fn close(&mut self, conn: Conn)
        ensures given { given self.new ≡ given self.old }
        ensures tells { Grows (told self.old) (Closed conn ∷ []) (told self.new) }
        ensures count { fault_count self.new ≡ fault_count self.old };
}
