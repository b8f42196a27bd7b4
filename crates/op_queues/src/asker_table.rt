ghost use Rattle.std.specs.Prelude.{◌≡◌, None, All, OnOk, OnErr};
ghost use Rattle.std.specs.Map.{keys_of};
ghost use Rattle.std.specs.FinMap as map;
ghost use Rattle.op_serving.specs.State.{askers_in, without_asker};
ghost use Rattle.op_queues.specs.Asked.{AwaitedInRange};

use op_outside::Conn;
use op_serving::Awaited;
use op_types::NoMemory;
use std::collections::BTreeMap;

/// A connection is the last to have asked for a command or a read. Without memory nobody had asked.
pub fn put_asker(
    askers: &mut BTreeMap<Awaited, Conn>,
    conn: Conn,
    key: Awaited,
) -> Result<(), NoMemory>
    ensures ok { OnOk result (askers_in askers.new.entries
        ≡ map.insert (askers_in askers.old.entries) key conn) }
    ensures err { OnErr result (askers_in askers.new.entries ≡ askers_in askers.old.entries) }
    ensures absent { OnErr result (map.get (askers_in askers.old.entries) key ≡ None) }
    ensures range { AwaitedInRange key → All AwaitedInRange (keys_of askers.old.entries) →
        All AwaitedInRange (keys_of askers.new.entries) }
{
    askers.insert(key, conn)?;
    Ok(())
}

/// Nobody waits for the answer to a command or a read from now on. Gives who waited.
pub fn forget(askers: &mut BTreeMap<Awaited, Conn>, key: Awaited) -> Option<Conn>
    ensures was { result ≡ map.get (askers_in askers.old.entries) key }
    ensures rest { askers_in askers.new.entries ≡ map.remove (askers_in askers.old.entries) key }
    ensures range { All AwaitedInRange (keys_of askers.old.entries) →
        All AwaitedInRange (keys_of askers.new.entries) }
{
    askers.remove(&key)
}

/// Whoever asked at a connection waits no more.
pub fn forget_all(askers: &mut BTreeMap<Awaited, Conn>, conn: Conn)
    ensures is { askers_in askers.new.entries
        ≡ without_asker conn (askers_in askers.old.entries) }
    ensures range { All AwaitedInRange (keys_of askers.old.entries) →
        All AwaitedInRange (keys_of askers.new.entries) }
{
    askers.retain(|_, at| *at != conn);
}
