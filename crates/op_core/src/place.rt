ghost use Rattle.std.specs.Prelude.{◌≡◌, ◌≤◌, IfSome};
ghost use Rattle.op_types.specs.Changes.{closed_len};
ghost use Rattle.op_types.specs.Limits.{positions_end};
ghost use Rattle.op_runs.specs.Summary.{joining_conf, stands_at};

use crate::line::{joins, place};
use op_types::{ConfNo, Durable};

/// Where a node stands.
#[derive(Clone, Copy)]
pub struct Place {
    /// Its configuration, how much of it is decided, and how much is trimmed.
    pub at: Option<(ConfNo, u64, u64)>,
    /// The configuration that it joins.
    pub joining: Option<ConfNo>,
}

impl Place {
    /// Where a node stands that has stored this.
    pub(crate) fn of(durable: &Durable) -> Place
        requires { IfSome durable.now.closed (λ l. closed_len l ≤ positions_end) }
        ensures { result ≡ record {
          at = stands_at durable.now.part durable.now.closed;
          joining = joining_conf durable.now.joining;
        } }
    {
        Place {
            at: place(durable),
            joining: joins(durable),
        }
    }

    /// Nowhere.
    pub(crate) fn nowhere() -> Place {
        Place {
            at: None,
            joining: None,
        }
    }
}
