ghost use Rattle.std.specs.Prelude.{◌≡◌, option_map};
ghost use Rattle.op_protocol.specs.Watched as watched;
ghost use Rattle.op_watch.specs.Showing.{decided_of};

use op_types::{Blob, Closed, ConfNo, Durable, Entry, Members, Part};

/// What a node has decided of a configuration, and can show: a base, and the entries after it.
#[derive(Clone, Copy)]
pub(crate) struct Decided<'a> {
    pub(crate) conf: ConfNo,
    pub(crate) members: &'a Members,
    pub(crate) trimmed: u64,
    pub(crate) base: &'a Blob,
    pub(crate) entries: &'a [Entry],
}

/// What a part has decided. What it has only accepted is no part of it.
fn of_part(part: &Part) -> Decided<'_>
    ensures { decided_of result ≡ watched.decided_of_part part.now }
{
    let tail = part.tail.as_slice();
    let count = part.decided.saturating_sub(part.trimmed) as usize;
    Decided {
        conf: part.conf,
        members: &part.members,
        trimmed: part.trimmed,
        base: &part.base,
        entries: &tail[..count.min(tail.len())],
    }
}

/// A closed list.
fn of_closed(closed: &Closed) -> Decided<'_>
    ensures { decided_of result ≡ watched.decided_of_closed closed.now }
{
    Decided {
        conf: closed.conf,
        members: &closed.olds,
        trimmed: closed.trimmed,
        base: &closed.base,
        entries: closed.tail.as_slice(),
    }
}

/// The closed list, where it is of this configuration or of a later one.
fn closed_from(closed: &Option<Closed>, conf: ConfNo) -> Option<Decided<'_>>
    ensures { option_map decided_of result ≡ watched.closed_from closed.now conf }
{
    match closed {
        Some(closed) if conf <= closed.conf => Some(of_closed(closed)),
        _ => None,
    }
}

/// What a node shows an observer of this configuration: its part, or else its closed list.
pub(crate) fn decided_for(durable: &Durable, conf: ConfNo) -> Option<Decided<'_>>
    ensures { option_map decided_of result
        ≡ watched.decided_for durable.now.part durable.now.closed conf }
{
    match &durable.part {
        Some(part) if part.conf == conf => Some(of_part(part)),
        _ => closed_from(&durable.closed, conf),
    }
}
