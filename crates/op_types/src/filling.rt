//! Entries that come to what is held, and all of it given out.
ghost use Rattle.std.specs.Prelude.{◌≡◌, ◌+◌, ◌-◌, ◌≤◌, ◌<◌, ◌^◌, ℕ, List, ◌∷◌, length, is_some, Some, vec_len, vec_capacity};
ghost use Rattle.std.specs.VecDeque.{deque_len, deque_capacity};
ghost use Rattle.op_types.specs.Rises.{Rises};
ghost use Rattle.op_types.specs.Rings.{IsPassed, Merging, is_first_below, is_first_at, entries_between, next_after};
ghost use Rattle.op_types.specs.Joinings.{held_run, held_with};
ghost use Rattle.op_types.specs.declared.log.Entry.{Entry};

use crate::{Entries, Entry, Held, Seq};
use std::collections::VecDeque;
use std::mem;

/// What is held, from its front: what was passed is at the back.
type Ring = VecDeque<(u64, Entry)>;

impl Held {
    /// Entries from a position on come to those that are held, in the room that was made for them. A position
    /// that is held already keeps its entry. It costs what is held and what comes; nothing is copied.
    pub fn fill(&mut self, start: u64, entries: Entries)
        requires room { length entries ≤ self.old.room }
        requires places { start + length entries < 2 ^ 64 }
        ensures { self.new ≡ record {
          items = held_with self.old.items start entries;
          room = self.old.room - length entries;
        } }
    {
        let alloc = *self.items.allocator();
        let count = entries.len();
        let items = mem::replace(&mut self.items, Vec::new(alloc));
        self.items = filled(VecDeque::from_vec(items), start, entries).into_vec();
        self.room -= count;
    }

    /// The entries held from a position to another, where all of them are.
    pub fn into_entries(self, from: u64, to: u64) -> Entries
        ensures { (entries : List Entry) → held_run self.items from (to - from) ≡ Some entries →
            result ≡ entries }
    {
        let Held { items, run, .. } = self;
        Seq::from_vec(moved_between(VecDeque::from_vec(items), run, from, to))
    }
}

/// What is held, with entries from a position on where none is held. It takes no memory.
fn filled(mut ring: Ring, start: u64, entries: Entries) -> Ring
    requires rising { Rises ring.items }
    requires room { deque_len ring + length entries ≤ deque_capacity ring }
    requires places { start + length entries < 2 ^ 64 }
    ensures items { result.items ≡ held_with ring.items start entries }
    ensures rising { Rises result.items }
    ensures len { deque_len result ≤ deque_len ring + length entries }
    ensures capacity { deque_capacity result ≡ deque_capacity ring }
{
    let mut left = pass_below(&mut ring, start);
    let mut place = start;
    let mut rest = VecDeque::from_vec(entries.into_vec());
    'entries: while let Some(entry) = rest.pop_front() {
        left = put(&mut ring, left, place, entry);
        place += 1;
    }
    ring.rotate_left(left);
    ring
}

/// An entry comes to a position, unless the first one that is left holds it. That one is passed. Tells how
/// much is left.
fn put(ring: &mut Ring, left: usize, place: u64, entry: Entry) -> usize
    requires within { left ≤ deque_len ring.old }
    requires room { deque_len ring.old < deque_capacity ring.old }
    ensures merges { (rest : List Entry) (whole : List (ℕ × Entry)) →
        Merging ring.old.items left place (entry ∷ rest) whole
        → Merging ring.new.items result (place + 1) rest whole }
    ensures len { deque_len ring.new ≤ deque_len ring.old + 1 }
    ensures capacity { deque_capacity ring.new ≡ deque_capacity ring.old }
{
    if left > 0 && stands_at(ring, place) {
        ring.rotate_left(1);
        return left - 1;
    }
    ring.push_back_reserved((place, entry));
    left
}

/// Passes what is held below a position, and tells how much is left before it.
fn pass_below(ring: &mut Ring, place: u64) -> usize
    requires { Rises ring.old.items }
    ensures passed { IsPassed ring.old.items place ring.new.items result }
    ensures len { deque_len ring.new ≡ deque_len ring.old }
    ensures capacity { deque_capacity ring.new ≡ deque_capacity ring.old }
{
    let mut left = ring.len();
    'passing: while left > 0 && stands_below(ring, place) {
        ring.rotate_left(1);
        left -= 1;
    }
    left
}

/// Whether the first one stands below a position.
fn stands_below(ring: &Ring, place: u64) -> bool
    ensures { result ≡ is_first_below ring.now.items place }
{
    match ring.front() {
        Some(first) => first.0 < place,
        None => false,
    }
}

/// Whether the first one stands at a position.
fn stands_at(ring: &Ring, place: u64) -> bool
    ensures { result ≡ is_first_at ring.now.items place }
{
    match ring.front() {
        Some(first) => first.0 == place,
        None => false,
    }
}

/// The entries held from a position to another, put into a vector that has the room.
fn moved_between(mut items: Ring, mut run: Vec<Entry>, from: u64, to: u64) -> Vec<Entry>
    requires empty { vec_len run ≡ 0 }
    requires room { deque_len items ≤ vec_capacity run }
    ensures { result.items ≡ entries_between items.items from to }
{
    'items: while let Some((place, entry)) = items.pop_front() {
        if from <= place && place < to {
            run.push_reserved(entry);
        }
    }
    run
}

/// Whether every position from one to another is held.
pub fn covers(items: &[(u64, Entry)], from: u64, to: u64) -> bool
    requires { Rises items.now }
    ensures { result ≡ is_some (held_run items.now from (to - from)) }
{
    let mut next = from;
    for item in items {
        next = next_after(next, to, item.0);
    }
    to <= next
}

/// The next position to be looked for, where this one is held.
fn next_after(next: u64, to: u64, place: u64) -> u64
    ensures { result ≡ next_after next to place }
{
    if next < to && place == next {
        next + 1
    } else {
        next
    }
}
