ghost use Rattle.std.specs.Prelude.{◌≡◌};
ghost use Rattle.op_serving.specs.Room.{is_urgent};

use op_types::Body;

/// Whether what a message says goes ahead of what waits behind: heartbeats, what confirms a leader for a
/// read, a wish to be prepared, and news of a configuration.
pub fn is_urgent(body: &Body) -> bool
    ensures { result ≡ is_urgent body.now }
{
    matches!(
        body,
        Body::HeartbeatRequest(_)
            | Body::HeartbeatReply(..)
            | Body::Confirm(..)
            | Body::Confirmed(..)
            | Body::PrepareReq
            | Body::NextConf(..)
    )
}
