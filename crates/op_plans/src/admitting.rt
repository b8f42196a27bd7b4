//! What comes to a log has to fit it.
ghost use Rattle.std.specs.Prelude.{◌≡◌};
ghost use Rattle.op_protocol.specs.Parts.{has_stop, is_admitted};

use crate::log::is_stop;
use op_types::{Entry, LAST_CONF, POSITIONS_END, Part};

/// Whether some entry is a stop-sign.
pub fn has_stop(entries: &[Entry]) -> bool
    ensures { result ≡ has_stop entries.now }
{
    for entry in entries {
        if is_stop(entry) {
            return true;
        }
    }
    false
}

/// Whether entries end within the positions, and are no stop-sign of the last configuration.
pub fn is_admitted(part: &Part, at: u64, entries: &[Entry]) -> bool
    ensures { result ≡ is_admitted part.now at entries.now }
{
    at as u128 + entries.len() as u128 <= POSITIONS_END as u128
        && !(part.conf == LAST_CONF && has_stop(entries))
}
