//! What a node leads.
ghost use Rattle.std.specs.Prelude.{◌≡◌};
ghost use Rattle.op_types.specs.Roles.{role_of, turned};
ghost use Rattle.op_chain.specs.Leads.{lead_of};

use op_types::{Ballot, Role, Turn};

/// What a node leads.
#[derive(Clone, Copy, Debug, PartialEq, Eq)]
pub struct Lead {
    /// Its ballot.
    pub ballot: Ballot,
    /// How long the log was that it adopted.
    pub adopted_len: u64,
}

/// What a node leads in this role.
pub(crate) fn lead_of(role: &Role) -> Option<Lead>
    ensures { result ≡ lead_of (role_of role.now) }
{
    match role {
        Role::Leading(leading) => Some(Lead {
            ballot: leading.ballot,
            adopted_len: leading.adopted_len,
        }),
        Role::Idle | Role::Preparing(_) => None,
    }
}

/// What it leads when this turn is adopted.
pub(crate) fn lead_after(turn: &Turn, role: &Role) -> Option<Lead>
    ensures { result ≡ lead_of (turned turn.now (role_of role.now)) }
{
    match turn {
        Turn::Become(next) => lead_of(next),
        Turn::NextRound(_, next) => match next {
            Some(next) => lead_of(next),
            None => lead_of(role),
        },
        Turn::Renew => None,
        _ => lead_of(role),
    }
}
