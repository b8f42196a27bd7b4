//! What a message is of, by what it says.
ghost use Rattle.std.specs.Prelude.{◌≡◌};
ghost use Rattle.op_protocol.specs.Rows.{is_of_joining, may_be_above, is_prepare_req};
ghost use Rattle.op_protocol.specs.Watched.{is_watching};

use op_types::Body;

/// Whether a node handles it that joins a configuration: news, and what is asked and given of a closed list.
pub(crate) fn is_of_joining(body: &Body) -> bool
    ensures { result ≡ is_of_joining body.now }
{
    match body {
        Body::NextConf(_, _, _, _)
        | Body::AskBase
        | Body::BasePart(_, _)
        | Body::BasePiece(_)
        | Body::AskSegment(_, _)
        | Body::Segment(_, _) => true,
        _ => false,
    }
}

/// Whether it may be of a configuration above the latest: news, and what is given of a closed list.
pub(crate) fn may_be_above(body: &Body) -> bool
    ensures { result ≡ may_be_above body.now }
{
    match body {
        Body::NextConf(_, _, _, _)
        | Body::BasePart(_, _)
        | Body::BasePiece(_)
        | Body::Segment(_, _) => true,
        _ => false,
    }
}

/// Whether it is an observer's, or to one.
pub(crate) fn is_watching(body: &Body) -> bool
    ensures { result ≡ is_watching body.now }
{
    match body {
        Body::Watch(_) => true,
        _ => false,
    }
}

/// Whether it asks to be prepared.
pub(crate) fn is_prepare_req(body: &Body) -> bool
    ensures { result ≡ is_prepare_req body.now }
{
    match body {
        Body::PrepareReq => true,
        _ => false,
    }
}
