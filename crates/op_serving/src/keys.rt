ghost use Rattle.std.specs.Prelude.{◌≡◌, ◌<◌, ◌++◌, ◌∷◌, [], length};
ghost use Rattle.op_types.specs.Limits.{most_commands};

use arrayvec::ArrayVec;
use op_outside::Conn;
use op_types::MOST_COMMANDS;
use std::marker::Model;

/// A command or a read, by its client and its number.
pub type Key = (u64, u64);

/// What a client waits for: whether it is a read, and which one.
pub type Awaited = (bool, Key);

/// Commands that are asked for together, each by its connection, and by its client and number. They lie in
/// the value itself.
#[derive(Drop)]
pub struct Keys {
    items: ArrayVec<(Conn, Key), MOST_COMMANDS>,
}

impl Model for Keys {
    ghost use Rattle.std.specs.Prelude.{List, ℕ};

    ghost Value = { List (ℕ × (ℕ × ℕ)) };

    ghost view = { λ keys. keys.items.items };
}

impl Keys {
    /// No commands.
    pub fn new() -> Keys
        ensures { result ≡ [] }
    {
        Keys {
            items: ArrayVec::new(),
        }
    }

    /// One command more, and the connection at which it is asked for.
    pub fn push(&mut self, conn: Conn, key: Key)
        requires { length self.old < most_commands }
        ensures { self.new ≡ self.old ++ (conn, key) ∷ [] }
    {
        self.items.push((conn, key));
    }

    /// The commands, in order.
    pub fn as_slice(&self) -> &[(Conn, Key)]
        ensures { result.now ≡ self.now }
    {
        self.items.as_slice()
    }
}
