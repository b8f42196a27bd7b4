ghost use Rattle.std.specs.Prelude.{◌≡◌, ◌≤◌, ◌<◌, ◌+◌, [], length, IfSome, OnOk, OnErr};
ghost use Rattle.op_conns.specs.Tables.{added, removed, queue_of, appended, taken, next_waiting};

use crate::queue::Queue;
use op_outside::Conn;
use std::alloc::{AllocError as NoMemory, Global};
use std::collections::BTreeMap;
use std::marker::Model;
use std::ops::Bound::{Excluded, Included, Unbounded};

/// The open connections, each with the bytes that wait for it.
#[derive(Drop)]
pub struct Table {
    queues: BTreeMap<Conn, Queue>,
    alloc: Global,
}

impl Model for Table {
    ghost use Rattle.op_conns.specs.Tables.{Queues};

    ghost Value = { Queues };

    ghost view = { λ t. t.queues.entries };
}

impl Table {
    /// A table with no connection.
    pub fn new(alloc: Global) -> Table
        ensures { result ≡ [] }
    {
        Table {
            queues: BTreeMap::new(alloc),
            alloc,
        }
    }

    /// Adds a connection, for which nothing waits. Without memory nothing changes.
    pub fn add(&mut self, conn: Conn) -> Result<(), NoMemory>
        ensures ok { OnOk result (self.new ≡ added conn [] self.old) }
        ensures err { OnErr result (self.new ≡ self.old) }
    {
        self.queues.insert(conn, Queue::new(self.alloc))?;
        Ok(())
    }

    /// Adds bytes after those that wait for a connection. Without memory nothing changes, and so for a
    /// connection that is not in the table.
    #[tactic(auto, using(std::proofs::lemmas::Map::Steps::set_value_same))]
    pub fn queue(&mut self, conn: Conn, bytes: &[u8]) -> Result<(), NoMemory>
        ensures ok { OnOk result (self.new ≡ appended conn bytes.now self.old) }
        ensures err { OnErr result (self.new ≡ self.old) }
    {
        match self.queues.get_mut(&conn) {
            Some(queue) => queue.add(bytes),
            None => Ok(()),
        }
    }

    /// How many bytes wait for a connection.
    pub fn queued(&self, conn: Conn) -> usize
        ensures { result ≡ length (queue_of conn self.now) }
    {
        self.front(conn).len()
    }

    /// All bytes that wait for a connection, in order.
    pub fn front(&self, conn: Conn) -> &[u8]
        ensures { result.now ≡ queue_of conn self.now }
    {
        match self.queues.get(&conn) {
            Some(queue) => queue.as_slice(),
            None => &[],
        }
    }

    /// Takes off the first `n` bytes that wait for a connection.
    pub fn took(&mut self, conn: Conn, n: usize)
        requires { n ≤ length (queue_of conn self.old) }
        ensures { self.new ≡ taken conn n self.old }
    {
        if let Some(queue) = self.queues.get_mut(&conn) {
            queue.took(n);
        }
    }

    /// Removes a connection and the bytes that wait for it.
    pub fn remove(&mut self, conn: Conn)
        ensures { self.new ≡ removed conn self.old }
    {
        drop(self.queues.remove(&conn));
    }

    /// The least connection from `low` on for which bytes wait.
    pub fn next(&self, low: Conn) -> Option<Conn>
        ensures next { result ≡ next_waiting low self.now }
        ensures waits { IfSome result (λ c. 0 < length (queue_of c self.now)) }
    {
        for (conn, _queue) in self.queues.range((Included(low), Unbounded)) {
            if self.queued(*conn) > 0 {
                return Some(*conn);
            }
        }
        None
    }

    /// The least connection above `conn` for which bytes wait.
    pub fn after(&self, conn: Conn) -> Option<Conn>
        ensures next { result ≡ next_waiting (conn + 1) self.now }
        ensures above { IfSome result (λ c. conn < c) }
        ensures waits { IfSome result (λ c. 0 < length (queue_of c self.now)) }
    {
        for (later, _queue) in self.queues.range((Excluded(conn), Unbounded)) {
            if self.queued(*later) > 0 {
                return Some(*later);
            }
        }
        None
    }
}
