//! What a message brings has to fit the log.
ghost use Rattle.std.specs.Prelude.{◌≡◌, ◌∷◌, []};
ghost use Rattle.op_protocol.specs.Parts.{is_admitted, is_admitted_body};

use op_plans::{has_stop, is_admitted, is_stop};
use op_types::{Body, Entry, LAST_CONF, Part};

/// Whether an entry that is forwarded isn't a stop-sign of the last configuration.
fn is_admitted_entry(part: &Part, entry: &Entry) -> bool
    ensures { result ≡ is_admitted part.now 0 (entry.now ∷ []) }
{
    !(part.conf == LAST_CONF && is_stop(entry))
}

/// Whether what a message brings is admitted.
pub(crate) fn is_admitted_body(part: &Part, body: &Body) -> bool
    ensures { result ≡ is_admitted_body part.now body.now }
{
    match body {
        Body::Promise(_, _, _, _, start, entries) => is_admitted(part, *start, entries.as_slice()),
        Body::AcceptSync(_, start, entries) => is_admitted(part, *start, entries.as_slice()),
        Body::Accept(_, at, entries) => is_admitted(part, *at, entries.as_slice()),
        Body::PromisePart(_, run) => is_admitted(part, run.at, run.run.as_slice()),
        Body::AcceptSyncPart(_, run) => is_admitted(part, run.at, run.run.as_slice()),
        Body::Forward(entry) => is_admitted_entry(part, entry),
        Body::Forwards(entries) => !has_stop(entries.as_slice()),
        Body::HeartbeatRequest(_)
        | Body::HeartbeatReply(_, _, _)
        | Body::Prepare(_, _, _, _)
        | Body::Accepted(_, _)
        | Body::Decide(_, _)
        | Body::PrepareReq
        | Body::Refuse(_, _)
        | Body::TrimAsk(_)
        | Body::Progress(_, _)
        | Body::Trim(_)
        | Body::NextConf(_, _, _, _)
        | Body::AskBase
        | Body::BasePart(_, _)
        | Body::BasePiece(_)
        | Body::AskSegment(_, _)
        | Body::Segment(_, _)
        | Body::Confirm(_, _)
        | Body::Confirmed(_, _)
        | Body::Watch(_) => true,
    }
}
