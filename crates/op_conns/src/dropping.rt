ghost use Rattle.std.specs.Prelude.{◌≡◌, ◌≤◌, length, drop};

use bytes::BytesMut;

/// Lets go of the first `count` bytes. Those behind them stay where they are until more are added than there
/// is room for, and are moved then only where that frees as much as it moves. A buffer that is empty keeps
/// this many bytes of room at most.
pub fn drop_front(bytes: &mut BytesMut, count: usize, room_kept: usize)
    requires { count ≤ length bytes.old.items }
    ensures { bytes.new.items ≡ drop count bytes.old.items }
{
    bytes.advance(count);
    if bytes.is_empty() {
        bytes.clear();
        if bytes.capacity() > room_kept {
            *bytes = BytesMut::new(*bytes.allocator());
        }
    }
}
