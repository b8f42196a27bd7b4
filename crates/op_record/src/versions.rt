//! Whether the first version of areas can hold a record.
ghost use Rattle.std.specs.Prelude.{◌≡◌};
ghost use Rattle.std.specs.List.{list_all};
ghost use Rattle.op_types.specs.Versions.{is_first_entry};
ghost use Rattle.op_record.specs.Versions.{
  is_first_part,
  is_first_closed,
  is_first_joining,
  is_first_durable,
  is_first_change,
  is_first_rec,
};

use crate::body::Rec;
use op_types::{Change, Closed, Durable, Entry, Joining, Part, are_first};

impl Rec {
    /// Whether the first version of areas can hold it: put, del, get and cas, and at most nine members.
    pub fn is_first(&self) -> bool
        ensures { result ≡ is_first_rec self.now }
    {
        match self {
            Rec::Whole(durable) => is_first_durable(durable),
            Rec::Step(changes) => are_first_changes(changes.as_slice()),
        }
    }
}

fn is_first_durable(durable: &Durable) -> bool
    ensures { result ≡ is_first_durable durable.now }
{
    is_first_part(&durable.part)
        && is_first_closed(&durable.closed)
        && is_first_joining(&durable.joining)
}

fn is_first_part(part: &Option<Part>) -> bool
    ensures { result ≡ is_first_part part.now }
{
    match part {
        None => true,
        Some(part) => part.members.are_first() && are_first(part.tail.as_slice()),
    }
}

fn is_first_closed(closed: &Option<Closed>) -> bool
    ensures { result ≡ is_first_closed closed.now }
{
    match closed {
        None => true,
        Some(closed) => {
            closed.olds.are_first() && closed.next.are_first() && are_first(closed.tail.as_slice())
        }
    }
}

fn is_first_joining(joining: &Option<Joining>) -> bool
    ensures { result ≡ is_first_joining joining.now }
{
    match joining {
        None => true,
        Some(joining) => {
            joining.members.are_first()
                && joining.olds.are_first()
                && are_first_held(joining.held.as_slice())
        }
    }
}

/// Entries that are held at positions.
fn are_first_held(held: &[(u64, Entry)]) -> bool
    ensures { result ≡ list_all (λ x. is_first_entry x.1) held.now }
{
    held.iter().all(|x| x.1.is_first())
}

fn are_first_changes(changes: &[Change]) -> bool
    ensures { result ≡ list_all is_first_change changes.now }
{
    changes.iter().all(|change| is_first_change(change))
}

fn is_first_change(change: &Change) -> bool
    ensures { result ≡ is_first_change change.now }
{
    match change {
        Change::Append(entries) | Change::JoinPart(_, entries) => are_first(entries.as_slice()),
        Change::JoinBegin(_, members, olds, _) => {
            members.get().are_first() && olds.get().are_first()
        }
        Change::Promise(_)
        | Change::Accept(_)
        | Change::CutTo(_)
        | Change::Decided(_)
        | Change::Trim(..)
        | Change::Close(..)
        | Change::JoinDonor(..)
        | Change::JoinBase(..)
        | Change::JoinDone(_) => true,
        Change::Rebase(..) => false,
    }
}
