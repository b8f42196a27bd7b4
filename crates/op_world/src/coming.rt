//! The events of a run that are still to come.
ghost use Rattle.std.specs.Prelude.{◌≡◌, ◌∷◌, [], MatchOption};

use op_runs::Event;
use std::collections::VecDeque;
use std::marker::Model;

/// Room for so many events is kept until all happened.
const MOST_KEPT_EVENTS: usize = 1 << 15;

/// Events that are still to come. Their memory is given back as they happen, where there are many: once fewer
/// than half are left, what is left moves to a block of its own size, so that an event is moved once on
/// average.
#[derive(Drop)]
pub(crate) struct Coming {
    events: VecDeque<Event>,
}

impl Model for Coming {
    ghost use Rattle.std.specs.Prelude.{List};
    ghost use Rattle.op_runs.specs.declared.events.Event.{Event};

    ghost Value = { List Event };

    ghost view = { λ c. c.events.items };
}

impl Coming {
    /// All of these.
    pub(crate) fn new(events: Vec<Event>) -> Self
        ensures { result ≡ events.items }
    {
        Coming {
            events: VecDeque::from_vec(events),
        }
    }

    /// Takes out the next one, if there is one.
    pub(crate) fn take_next(&mut self) -> Option<Event>
        ensures { MatchOption result (self.old ≡ []) (λ event. self.old ≡ event ∷ self.new) }
    {
        let next = self.events.pop_front();
        let room = self.events.capacity();
        if room > MOST_KEPT_EVENTS && self.events.len() < room / 2 {
            self.shrink();
        }
        next
    }

    /// Moves what is left to a block of its own size.
    #[inline(never)]
    fn shrink(&mut self)
        ensures { self.new ≡ self.old }
    {
        self.events.shrink_to_fit();
    }
}
