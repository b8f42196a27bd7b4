//! The generator of a drill's events.
ghost use Rattle.std.specs.Prelude.{◌≡◌, true, IfOk};
ghost use Rattle.op_types.specs.Ranges.{IsNumber};
ghost use Rattle.op_runs.specs.Possible.{WhatInRange, is_possible};
ghost use Rattle.op_gen.specs.Draws.{drill_ids, event_drawn, gen_of};

use crate::draws::{below, drawn_as};
use crate::kind::Kind;
use op_runs::Event;
use op_types::NoMemory;
use rand_pcg::Lcg64Xsh32;
use std::alloc::Global;

/// The stream of the generator that drills take their words from.
const STREAM: u64 = 54;

/// How many chances there are, of which each kind of event has some.
const CHANCES: u32 = 100;

/// A generator of a drill's events.
#[derive(Drop)]
pub struct Gen {
    /// The generator of its words.
    pub words: Lcg64Xsh32,
    /// The number of the next event, from 1.
    pub number: u64,
}

impl Gen {
    /// The generator of a seed.
    pub fn new(seed: u64) -> Self
        ensures { result ≡ gen_of seed }
    {
        Gen {
            words: Lcg64Xsh32::new(seed, STREAM),
            number: 1,
        }
    }

    /// The next event, where so many messages were sent. It counts as drawn even where there is no memory for
    /// it.
    pub fn next(&mut self, alloc: Global, sent: u64) -> Result<Event, NoMemory>
        requires { IsNumber self.old.number }
        ensures event { IfOk result (λ e. e ≡ (event_drawn sent self.old).0) }
        ensures after { self.new ≡ (event_drawn sent self.old).1 }
        ensures range { IfOk result (λ e. WhatInRange e.what) }
        ensures possible { IfOk result (λ e. is_possible drill_ids sent e.what ≡ true) }
    {
        let line = self.number;
        self.number += 1;
        let kind = Kind::of(below(&mut self.words, CHANCES));
        let what = drawn_as(alloc, &mut self.words, kind, line, sent)?;
        Ok(Event { line, what })
    }
}
