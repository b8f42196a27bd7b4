//! The kinds of events that a drill draws.
ghost use Rattle.std.specs.Prelude.{◌≡◌};
ghost use Rattle.op_gen.specs.Draws.{kind_of};

/// A kind of event.
#[derive(Clone, Copy, Debug, PartialEq, Eq)]
pub enum Kind {
    /// A tick.
    Tick,
    /// One of the last messages is delivered.
    Delivery,
    /// A client's put.
    Put,
    /// A stop in a call of a disk.
    Crash,
    /// A start.
    Start,
    /// A call of a disk that fails.
    Failure,
    /// Trimming is asked for.
    Trim,
    /// A session begins, or there is a tick.
    Session,
    /// A stop-sign.
    Stop,
}

impl Kind {
    /// The kind that a number below 100 stands for.
    pub fn of(number: u32) -> Kind
        ensures { result ≡ kind_of number }
    {
        match number {
            0..=29 => Kind::Tick,
            30..=84 => Kind::Delivery,
            85..=93 => Kind::Put,
            94 => Kind::Crash,
            95 => Kind::Start,
            96 => Kind::Failure,
            97 => Kind::Trim,
            98 => Kind::Session,
            _ => Kind::Stop,
        }
    }
}
