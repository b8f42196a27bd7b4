ghost use Rattle.std.specs.Prelude.{◌≡◌};
ghost use Rattle.op_serving.specs.Room.{is_excess};

use op_types::{Body, MOST_PART_BYTES, Watch};

/// Whether a message is dropped where so many wait behind: a piece of an observer's base, where these are
/// more than the pieces that come before it.
pub fn is_excess(body: &Body, behind: usize) -> bool
    ensures { result ≡ is_excess body.now behind }
{
    match body {
        Body::Watch(Watch::Base(_, piece)) => {
            (piece.from as u128) < behind as u128 * MOST_PART_BYTES as u128
        }
        _ => false,
    }
}
