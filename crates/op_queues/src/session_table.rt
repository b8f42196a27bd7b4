ghost use Rattle.std.specs.Prelude.{◌≡◌, ◌<◌, ◌≤◌, ◌+◌, ◌++◌, [], All, vec_len, vec_capacity, length, false, OnOk, OnErr, IfOk, IfNone, IfSome, Some};
ghost use Rattle.std.specs.List.{sum_by};
ghost use Rattle.std.specs.Map.{keys_of, values_of};
ghost use Rattle.op_types.specs.Ranges.{IsPid};
ghost use Rattle.op_serving.specs.State.{find, changed, is_overfull, with_bytes, without, down_of};
ghost use Rattle.op_serving.specs.Counts.{most_of};
ghost use Rattle.op_serving.specs.Ranges.{KindInRange, SessionInRange};
ghost use Rattle.op_serving.specs.Reading.{feeding, held_in};
ghost use Rattle.op_serving.specs.Turns.{dialled_to, queue_in, without_bytes};
ghost use Rattle.op_queues.specs.Hearing.{TakesOut, FoundInRange, least_taken};
ghost use Rattle.op_queues.specs.Filling.{IsThin};

use crate::front::{Front, take_front};
use op_conns::Encode;
use op_outside::Conn;
use op_serving::{Kind, Session};
use op_types::{NoMemory, Pid};
use std::alloc::Global;
use std::collections::BTreeMap;

/// Adds a frame to what waits for a connection. Gives whether more bytes wait then than may. Without memory
/// nothing changes.
#[tactic(auto, using(std::proofs::lemmas::Map::Steps::set_value_same, crate::proofs::InRange::set_session, crate::proofs::InRange::found_in_range, crate::proofs::Filling::set_thin, crate::proofs::Filling::not_overfull))]
pub fn add<E: Encode>(
    sessions: &mut BTreeMap<Conn, Session>,
    conn: Conn,
    frame: &E,
) -> Result<bool, NoMemory>
    ensures ok { OnOk result
        (sessions.new.entries ≡ changed (with_bytes (E.bytes frame.now)) conn sessions.old.entries) }
    ensures err { OnErr result (sessions.new.entries ≡ sessions.old.entries) }
    ensures len { length sessions.new.entries ≡ length sessions.old.entries }
    ensures range { All SessionInRange (values_of sessions.old.entries) →
        All SessionInRange (values_of sessions.new.entries) }
    ensures over { IfOk result (λ over. over ≡ is_overfull (find conn sessions.new.entries)) }
    ensures thin { IfOk result (λ over. over ≡ false → All IsThin (values_of sessions.old.entries) →
        All IsThin (values_of sessions.new.entries)) }
{
    match sessions.get_mut(&conn) {
        Some(session) => {
            session.queue.encode(frame)?;
            Ok(session.is_overfull())
        }
        None => Ok(false),
    }
}

/// Takes a session out of the table.
#[tactic(auto, using(crate::proofs::InRange::found_in_range))]
pub fn take_out(sessions: &mut BTreeMap<Conn, Session>, conn: Conn) -> Option<Session>
    ensures found { result ≡ find conn sessions.old.entries }
    ensures rest { sessions.new.entries ≡ without conn sessions.old.entries }
    ensures kept { IfNone result (sessions.new.entries ≡ sessions.old.entries) }
    ensures len { IfSome result (λ _. length sessions.new.entries + 1 ≡ length sessions.old.entries) }
    ensures range { All SessionInRange (values_of sessions.old.entries) →
        IfSome result SessionInRange × All SessionInRange (values_of sessions.new.entries) }
    ensures thin { All IsThin (values_of sessions.old.entries) → All IsThin (values_of sessions.new.entries) }
{
    let _count = sessions.len();
    sessions.remove(&conn)
}

/// The peer whose Down is to be given joins the others.
pub fn note_down(downs: &mut Vec<Pid>, kind: Kind)
    requires { vec_len downs.old < vec_capacity downs.old }
    ensures items { downs.new.items ≡ downs.old.items ++ down_of kind }
    ensures room { vec_capacity downs.new ≡ vec_capacity downs.old }
    ensures range { All IsPid downs.old.items → KindInRange kind → All IsPid downs.new.items }
    ensures len { vec_len downs.new ≤ vec_len downs.old + 1 }
{
    if let Kind::Peer(peer, 0) = kind {
        downs.push_reserved(peer);
    }
}

/// Adds bytes to what a session has read. Gives how many it holds then. Without memory nothing changes.
#[tactic(auto, using(std::proofs::lemmas::Map::Steps::set_value_same, crate::proofs::InRange::set_session, crate::proofs::Filling::set_thin, crate::proofs::Filling::found_thin, crate::proofs::InRange::found_in_range))]
pub fn feed(
    sessions: &mut BTreeMap<Conn, Session>,
    conn: Conn,
    bytes: &[u8],
) -> Result<usize, NoMemory>
    ensures held { IfOk result (λ n. n ≡ held_in (find conn sessions.new.entries)) }
    ensures ok { OnOk result (sessions.new.entries ≡ changed (feeding bytes.now) conn sessions.old.entries) }
    ensures err { OnErr result (sessions.new.entries ≡ sessions.old.entries) }
    ensures len { length sessions.new.entries ≡ length sessions.old.entries }
    ensures range { All SessionInRange (values_of sessions.old.entries) →
        All SessionInRange (values_of sessions.new.entries) }
    ensures thin { All IsThin (values_of sessions.old.entries) → All IsThin (values_of sessions.new.entries) }
{
    match sessions.get_mut(&conn) {
        Some(session) => {
            session.frames.feed(bytes)?;
            Ok(session.frames.held().len())
        }
        None => Ok(0),
    }
}

/// Takes what stands at the front of what a session has read.
#[tactic(auto, using(crate::proofs::InRange::set_session, crate::proofs::Filling::set_thin, crate::proofs::Filling::found_thin, crate::proofs::InRange::found_in_range))]
pub fn take_front_at(
    sessions: &mut BTreeMap<Conn, Session>,
    conn: Conn,
    me: Pid,
    alloc: Global,
) -> Result<Front, NoMemory>
    ensures takes { TakesOut conn me (find conn sessions.old.entries) sessions.old.entries result
        sessions.new.entries }
    ensures found { IfOk result FoundInRange }
    ensures most { sum_by most_of (values_of sessions.new.entries) + least_taken result
        ≤ sum_by most_of (values_of sessions.old.entries) }
    ensures len { length sessions.new.entries ≡ length sessions.old.entries }
    ensures range { All SessionInRange (values_of sessions.old.entries) →
        All SessionInRange (values_of sessions.new.entries) }
    ensures thin { All IsThin (values_of sessions.old.entries) → All IsThin (values_of sessions.new.entries) }
{
    match sessions.get_mut(&conn) {
        Some(session) => take_front(session, me, alloc),
        None => Ok(Front::Waits),
    }
}

/// Whose a session is from now on.
#[tactic(auto, using(crate::proofs::InRange::set_session, crate::proofs::Filling::set_thin, crate::proofs::Filling::found_thin))]
pub fn set_kind(sessions: &mut BTreeMap<Conn, Session>, conn: Conn, kind: Kind)
    requires { KindInRange kind }
    ensures is { sessions.new.entries
        ≡ changed (λ x. record x { kind = kind }) conn sessions.old.entries }
    ensures len { length sessions.new.entries ≡ length sessions.old.entries }
    ensures range { All SessionInRange (values_of sessions.old.entries) →
        All SessionInRange (values_of sessions.new.entries) }
    ensures thin { All IsThin (values_of sessions.old.entries) → All IsThin (values_of sessions.new.entries) }
{
    if let Some(session) = sessions.get_mut(&conn) {
        session.kind = kind;
    }
}

/// A peer's session is at this connection.
#[tactic(auto, using(crate::proofs::InRange::set_known))]
pub fn link_peer(peers: &mut BTreeMap<Pid, Option<Conn>>, peer: Pid, conn: Conn)
    ensures is { peers.new.entries ≡ changed (λ _. Some conn) peer peers.old.entries }
    ensures range { All IsPid (keys_of peers.old.entries) → All IsPid (keys_of peers.new.entries) }
{
    if let Some(link) = peers.get_mut(&peer) {
        *link = Some(conn);
    }
}

/// A dialled connection is its peer's session at once.
pub fn dial_link(peers: &mut BTreeMap<Pid, Option<Conn>>, kind: Kind, conn: Conn)
    ensures is { peers.new.entries ≡ dialled_to kind conn peers.old.entries }
    ensures range { All IsPid (keys_of peers.old.entries) → All IsPid (keys_of peers.new.entries) }
{
    if let Kind::Peer(peer, _) = kind {
        link_peer(peers, peer, conn);
    }
}

/// A connection took so many bytes of what waits for it.
#[tactic(auto, using(crate::proofs::InRange::set_session, crate::proofs::Filling::set_thin, crate::proofs::Filling::found_thin, crate::proofs::InRange::found_in_range, crate::proofs::Joining::queue_within))]
pub fn took_at(sessions: &mut BTreeMap<Conn, Session>, conn: Conn, n: usize)
    requires { n ≤ length (queue_in (find conn sessions.old.entries)) }
    ensures is { sessions.new.entries ≡ changed (without_bytes n) conn sessions.old.entries }
    ensures len { length sessions.new.entries ≡ length sessions.old.entries }
    ensures range { All SessionInRange (values_of sessions.old.entries) →
        All SessionInRange (values_of sessions.new.entries) }
    ensures thin { All IsThin (values_of sessions.old.entries) → All IsThin (values_of sessions.new.entries) }
{
    if let Some(session) = sessions.get_mut(&conn) {
        session.queue.took(n);
        session.kind = session.kind.with_less_hello(n);
    }
}
