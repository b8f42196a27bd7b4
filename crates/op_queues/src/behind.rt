ghost use Rattle.std.specs.Prelude.{◌≡◌, ◌==◌, ◌++◌, ◌∷◌, [], OnOk, OnErr};
ghost use Rattle.std.specs.List.{position};
ghost use Rattle.op_serving.specs.State.{find, without};
ghost use Rattle.op_serving.specs.Room.{count_at, without_first};

use crate::count_table::{count_down, count_of};
use crate::unsent::Unsent;
use op_outside::Conn;
use op_types::NoMemory;
use std::alloc::Global;
use std::collections::{BTreeMap, VecDeque};
use std::marker::Model;

/// Messages for which there was no room, each with its connection, in order. Contracts see them as the frames
/// that they become.
#[derive(Drop)]
pub struct Behind {
    messages: VecDeque<(Conn, Unsent)>,
    /// How many of them each connection has.
    counts: BTreeMap<Conn, usize>,
}

impl Model for Behind {
    ghost use Rattle.std.specs.Prelude.{List, ℕ};
    ghost use Rattle.op_queues.specs.Counted.{AreCounts};

    ghost Value = { List (ℕ × List ℕ) };

    ghost view = { λ b. b.messages.items };

    ghost invariant = { λ b. AreCounts b.counts.entries b.messages.items };
}

impl Behind {
    /// No messages. This takes no memory.
    pub fn new(alloc: Global) -> Behind
        ensures { result ≡ [] }
    {
        Behind {
            messages: VecDeque::new(alloc),
            counts: BTreeMap::new(alloc),
        }
    }

    /// How many there are for a connection. This looks at none of them.
    pub fn count(&self, conn: Conn) -> usize
        ensures { result ≡ count_at conn self.now }
    {
        count_of(&self.counts, conn)
    }

    /// One message more. Without memory nothing changes.
    pub fn push(&mut self, conn: Conn, message: Unsent) -> Result<(), NoMemory>
        ensures ok { OnOk result (self.new ≡ self.old ++ (conn, message) ∷ []) }
        ensures err { OnErr result (self.new ≡ self.old) }
    {
        self.messages.reserve(1)?;
        // What there is room for can be counted.
        let _room = self.messages.capacity();
        let count = self.count(conn) + 1;
        self.counts.insert(conn, count)?;
        self.messages.push_back_reserved((conn, message));
        Ok(())
    }

    /// Where the first message of a connection stands, if there is one.
    fn place(&self, conn: Conn) -> Option<usize>
        ensures { result ≡ position (λ f. f.0 == conn) self.now }
    {
        self.messages.iter().position(|message| message.0 == conn)
    }

    /// Takes out the first message of a connection, if there is one.
    pub fn take_first(&mut self, conn: Conn) -> Option<Unsent>
        ensures first { result ≡ find conn self.old }
        ensures rest { self.new ≡ without_first conn self.old }
    {
        if self.count(conn) == 0 {
            return None;
        }
        let at = self.place(conn)?;
        let (_conn, message) = self.messages.remove(at)?;
        count_down(&mut self.counts, conn);
        Some(message)
    }

    /// The messages of a connection wait no more.
    pub fn forget(&mut self, conn: Conn)
        ensures { self.new ≡ without conn self.old }
    {
        if self.count(conn) == 0 {
            return;
        }
        self.messages.retain(|message| message.0 != conn);
        self.counts.remove(&conn);
    }
}
