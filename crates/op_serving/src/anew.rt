ghost use Rattle.std.specs.Prelude.{◌≡◌};
ghost use Rattle.op_serving.specs.Room.{begins_anew};

use op_types::{Body, Watch};

/// Whether what a message says takes the place of all that waits behind: a Prepare in whose ballot no log is
/// adopted yet, or entries that an observer is shown.
pub fn begins_anew(body: &Body) -> bool
    ensures { result ≡ begins_anew body.now }
{
    match body {
        Body::Prepare(ballot, accepted, _, _) => !accepted.is_same(*ballot),
        Body::Watch(Watch::Shown(..)) => true,
        _ => false,
    }
}
