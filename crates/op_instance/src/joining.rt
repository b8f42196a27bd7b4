//! A node hears of a configuration, and gives to those that join one.
ghost use Rattle.std.specs.Prelude.{◌≡◌, ◌∷◌, ◌++◌, ◌+◌, ◌<◌, ◌^◌, [], length, IfOk, OnOk};
ghost use Rattle.op_protocol.specs.State as steps;
ghost use Rattle.op_protocol.specs.Parts.{messages};
ghost use Rattle.op_protocol.specs.Configurations.{next_conf_message};
ghost use Rattle.op_protocol.specs.Joining.{begins, is_new_donor, joins, on_next_conf, base_pieces, piece_count, base_bodies, segment_bodies, gives_base, gives_segment, is_within, closed_entries, on_base_piece};
ghost use Rattle.op_protocol.specs.Rows.{on_older};
ghost use Rattle.op_segments.specs.Staging.{HasRoomToPiece};
ghost use Rattle.op_instance.specs.Memory.{part_step_of, IsPlain, news_turn};
ghost use Rattle.op_instance.specs.Sound.{IfListFits, ListFits};

use crate::stored::{Stored, closed_len};
use op_plans::suffix;
use op_segments::{piece_count, piece_of, stage_piece};
use op_types::{
    Batch, Body, Change, Closed, ConfNo, Entry, Joining, ListLen, MOST_DONORS, MOST_PART_BYTES,
    Members, Msg, Pid, Piece, Pieces, Plan, Sends, Shared, Turn, copy_entries, first_run, is_among,
};
use std::alloc::{AllocError as NoMemory, Global};

/// News of a configuration.
#[derive(Drop)]
pub(crate) struct News {
    /// The configuration.
    pub(crate) conf: ConfNo,
    /// Its members.
    pub(crate) members: Shared<Members>,
    /// The members of the configuration before it.
    pub(crate) olds: Shared<Members>,
    /// The length of the closed list before it.
    pub(crate) len: u64,
    /// How much of that list is trimmed at the sender.
    pub(crate) trimmed: u64,
}

impl Stored<'_> {
    /// News of a configuration come: the node joins it, if it is named there and the configuration is above
    /// all that it knows.
    pub(crate) fn hear_news(&self, from: Pid, news: News) -> Result<Plan, NoMemory>
        requires { IfListFits self.now.durable.now.closed }
        ensures step { IfOk result (λ plan. (v : steps.Volatile) → part_step_of plan v
            ≡ on_next_conf self.now.me self.now.durable.now v from
            news.conf news.members news.olds news.len news.trimmed) }
        ensures turn { IfOk result (λ plan. IsPlain plan.turn) }
    {
        if !is_among(news.members.get().as_slice(), self.me) || news.conf <= self.latest() {
            return Ok(self.nothing());
        }
        let batch = join_batch(self.alloc, &self.durable.joining, from, news)?;
        let mut plan = self.nothing();
        plan.set_turn(news_turn(batch.as_slice()));
        plan.batch = batch;
        Ok(plan)
    }

    /// A piece of a base comes that doesn't complete one: it is staged, if the node joins with that base.
    pub(crate) fn stage_piece(
        &self,
        pieces: &Option<Pieces>,
        conf: ConfNo,
        piece: Piece,
    ) -> Result<Plan, NoMemory>
        ensures step { IfOk result (λ plan. (v : steps.Volatile) → v.pieces ≡ pieces.now
            → part_step_of plan v ≡ on_base_piece self.now.durable.now.joining v conf piece) }
        ensures room { IfOk result (λ plan. HasRoomToPiece plan.turn pieces.now) }
    {
        let Some(joining) = &self.durable.joining else {
            return Ok(self.nothing());
        };
        let turn = stage_piece(self.alloc, joining, pieces, conf, piece)?;
        let mut plan = self.nothing();
        plan.set_turn(turn);
        Ok(plan)
    }

    /// A server of the latest configuration that may still be in an older one is told of the latest.
    pub(crate) fn answer_older(&self, to: Pid) -> Result<Sends, NoMemory>
        requires { IfListFits self.now.durable.now.closed }
        ensures { IfOk result (λ sends. sends
            ≡ on_older self.now.durable.now self.now.durable.now.closed to) }
    {
        let mut sends = Sends::new(self.alloc);
        if let Some(closed) = &self.durable.closed {
            if self.is_latest_member(to) {
                push_next_conf(self.alloc, &mut sends, to, closed)?;
            }
        }
        Ok(sends)
    }

    /// The base of the closed list before a configuration is given to one that joins it.
    pub(crate) fn give_base(&self, to: Pid, conf: ConfNo) -> Result<Sends, NoMemory>
        requires { IfListFits self.now.durable.now.closed }
        ensures { IfOk result (λ sends. sends ≡ gives_base self.now.durable.now.closed to conf) }
    {
        let mut sends = Sends::new(self.alloc);
        if let Some(closed) = &self.durable.closed {
            if closed.conf + 1 == conf {
                push_base(self.alloc, &mut sends, to, conf, closed)?;
            }
        }
        Ok(sends)
    }

    /// Entries of the closed list before a configuration are given to one that joins it.
    pub(crate) fn give_segment(
        &self,
        to: Pid,
        conf: ConfNo,
        start: u64,
        end: u64,
    ) -> Result<Sends, NoMemory>
        requires { IfListFits self.now.durable.now.closed }
        ensures { IfOk result (λ sends. sends
            ≡ gives_segment self.now.durable.now.closed to conf start end) }
    {
        let mut sends = Sends::new(self.alloc);
        if let Some(closed) = &self.durable.closed {
            if closed.conf + 1 == conf && is_within(closed, start, end) {
                let entries = entries_between(closed, start, end);
                push_segments(self.alloc, &mut sends, to, conf, start, entries)?;
            }
        }
        Ok(sends)
    }
}

/// Adds the news of the configuration after a closed list, to a node.
fn push_next_conf(
    alloc: Global,
    sends: &mut Sends,
    to: Pid,
    closed: &Closed,
) -> Result<(), NoMemory>
    requires { ListFits closed.now }
    ensures { OnOk result (sends.new ≡ sends.old ++ next_conf_message closed.now to ∷ []) }
{
    let conf = closed.conf + 1;
    let len = closed_len(closed);
    let next = Shared::new(alloc, closed.next.copy())?;
    let olds = Shared::new(alloc, closed.olds.copy())?;
    let body = Body::NextConf(next, olds, len, closed.trimmed);
    sends.push((to, Msg { conf, body }))
}

/// Whether positions stand in a closed list, and aren't trimmed.
fn is_within(closed: &Closed, start: u64, end: u64) -> bool
    requires { ListFits closed.now }
    ensures { result ≡ is_within closed.now start end }
{
    closed.trimmed <= start && start < end && end <= closed_len(closed)
}

/// The entries of a closed list from one position to another.
fn entries_between(closed: &Closed, start: u64, end: u64) -> &[Entry]
    ensures { result.now ≡ closed_entries closed.now start end }
{
    let tail = closed.tail.as_slice();
    let first = start.saturating_sub(closed.trimmed);
    let count = end.saturating_sub(start);
    let rest = suffix(tail, first);
    let count = rest.len().min(count as usize);
    &rest[..count]
}

/// Adds what brings the base of a closed list to a node: itself, or its pieces where it is long.
fn push_base(
    alloc: Global,
    sends: &mut Sends,
    to: Pid,
    conf: ConfNo,
    closed: &Closed,
) -> Result<(), NoMemory>
    ensures { OnOk result (sends.new
        ≡ sends.old ++ messages conf to (base_bodies closed.now.trimmed closed.now.base)) }
{
    let bytes = closed.base.as_slice();
    if bytes.len() > MOST_PART_BYTES {
        return push_pieces(alloc, sends, to, conf, closed);
    }
    let body = Body::BasePart(closed.trimmed, closed.base.copy()?);
    sends.push((to, Msg { conf, body }))
}

/// Adds the pieces of a closed list's base.
fn push_pieces(
    alloc: Global,
    sends: &mut Sends,
    to: Pid,
    conf: ConfNo,
    closed: &Closed,
) -> Result<(), NoMemory>
    ensures { OnOk result (sends.new ≡ sends.old ++ messages conf to
        (base_pieces closed.now.trimmed closed.now.base 0 (piece_count (length closed.now.base)))) }
{
    let bytes = closed.base.as_slice();
    let count = piece_count(bytes.len());
    for i in 0..count {
        let piece = piece_of(alloc, closed.trimmed, bytes, i * MOST_PART_BYTES)?;
        let body = Body::BasePiece(piece);
        sends.push((to, Msg { conf, body }))?;
    }
    Ok(())
}

/// Adds a segment for each run of these entries, which begin at a position.
fn push_segments(
    alloc: Global,
    sends: &mut Sends,
    to: Pid,
    conf: ConfNo,
    start: u64,
    entries: &[Entry],
) -> Result<(), NoMemory>
    requires { start + length entries.now < 2 ^ 64 }
    ensures { OnOk result (sends.new
        ≡ sends.old ++ messages conf to (segment_bodies start entries.now)) }
{
    let mut at = start;
    let mut rest = entries;
    while let Some((run, others)) = first_run(rest) {
        let body = Body::Segment(at, copy_entries(alloc, run)?);
        sends.push((to, Msg { conf, body }))?;
        at += run.len() as u64;
        rest = others;
    }
    Ok(())
}

/// No piece of a base stays staged where these changes begin to join another configuration.
fn news_turn(batch: &[Change]) -> Turn
    ensures { result ≡ news_turn batch.now }
{
    match batch {
        [Change::JoinBegin(_, _, _, _), ..] => Turn::DropPieces,
        _ => Turn::Stay,
    }
}

/// The changes of a node that hears of a configuration: it joins the greatest that it hears of.
fn join_batch(
    alloc: Global,
    joining: &Option<Joining>,
    from: Pid,
    news: News,
) -> Result<Batch, NoMemory>
    ensures { IfOk result (λ batch. batch
        ≡ joins joining.now from news.conf news.members news.olds news.len news.trimmed) }
{
    let Some(joining) = joining else {
        return begin_batch(alloc, from, news);
    };
    if joining.conf < news.conf {
        return begin_batch(alloc, from, news);
    }
    let mut batch = Batch::new(alloc);
    if joining.conf == news.conf && is_new_donor(joining, from, news.trimmed) {
        batch.push(Change::JoinDonor(from, news.trimmed))?;
    }
    Ok(batch)
}

/// Whether a node that joins may ask this one too.
fn is_new_donor(joining: &Joining, pid: Pid, trimmed: u64) -> bool
    ensures { result ≡ is_new_donor joining.now pid trimmed }
{
    trimmed <= joining.len && !joining.is_donor(pid) && joining.donors.len() < MOST_DONORS
}

/// The changes of a node that begins to join a configuration, with the first donor.
fn begin_batch(alloc: Global, from: Pid, news: News) -> Result<Batch, NoMemory>
    ensures { IfOk result (λ batch. batch
        ≡ begins from news.conf news.members news.olds news.len news.trimmed) }
{
    let mut batch = Batch::new(alloc);
    if news.len < news.trimmed {
        return Ok(batch);
    }
    let News {
        conf,
        members,
        olds,
        len,
        trimmed,
    } = news;
    let len = ListLen::new(alloc, len)?;
    batch.push(Change::JoinBegin(conf, members, olds, len))?;
    batch.push(Change::JoinDonor(from, trimmed))?;
    Ok(batch)
}
