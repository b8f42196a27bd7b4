//! Which bytes are a base, and the service of a base and of what stands behind it.
ghost use Rattle.std.specs.Prelude.{◌≡◌, IsTrue, IfOk};
ghost use Rattle.op_kv.specs.Bases.{IsBase};
ghost use Rattle.op_protocol.specs.Bases.{is_base, service_from, service_at};

use crate::deciding::{between, index};
use op_kv::Map;
use op_types::{Entry, NoMemory, Part};
use std::alloc::Global;

/// Whether these bytes are the base of a service.
pub fn is_base(bytes: &[u8]) -> bool
    ensures same { result ≡ is_base bytes.now }
    ensures base { IsTrue result → IsBase bytes.now }
{
    Map::is_base(bytes)
}

/// The service of a base, after entries that go on from it.
pub fn service_from(alloc: Global, base: &[u8], entries: &[Entry]) -> Result<Map, NoMemory>
    requires { IsBase base.now }
    ensures { IfOk result (λ m. m.service ≡ service_from base.now entries.now) }
{
    let mut service = Map::from_base(alloc, base)?;
    let (_, change) = service.plan(alloc, entries)?;
    service.adopt(change);
    Ok(service)
}

/// The service at a position of a part's log that isn't trimmed. It costs the base and the entries before the
/// position.
pub fn service_at(alloc: Global, part: &Part, at: u64) -> Result<Map, NoMemory>
    requires { IsBase part.now.base }
    ensures { IfOk result (λ m. m.service ≡ service_at part.now at) }
{
    let entries = between(part.tail.as_slice(), 0, index(part.trimmed, at));
    service_from(alloc, part.base.as_slice(), entries)
}
