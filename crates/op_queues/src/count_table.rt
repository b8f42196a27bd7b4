ghost use Rattle.std.specs.Prelude.{◌≡◌, ◌<◌, ◌-◌};
ghost use Rattle.op_serving.specs.State.{changed};
ghost use Rattle.op_queues.specs.Counted.{count_of};

use op_outside::Conn;
use std::collections::BTreeMap;

/// The count of a connection, which is 0 where none is noted.
pub fn count_of(counts: &BTreeMap<Conn, usize>, conn: Conn) -> usize
    ensures { result ≡ count_of conn counts.now.entries }
{
    match counts.get(&conn) {
        Some(count) => *count,
        None => 0,
    }
}

/// The count of a connection is one less.
pub fn count_down(counts: &mut BTreeMap<Conn, usize>, conn: Conn)
    requires { 0 < count_of conn counts.old.entries }
    ensures { counts.new.entries ≡ changed (λ n. n - 1) conn counts.old.entries }
{
    if let Some(count) = counts.get_mut(&conn) {
        *count -= 1;
    }
}
