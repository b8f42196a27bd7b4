//! Scenarios of partial links.
ghost use Rattle.std.specs.Prelude.{◌≡◌, IfNone, IfOk, IfSome};
ghost use Rattle.op_gen.specs.Scenarios.{links_of, members_of, name_of};
ghost use Rattle.op_gen.specs.declared.scenario.Scenario.{Scenario};

use crate::pairs::Links;
use op_types::{Members, NoMemory};

/// What becomes of the links among members that all hear one another, so that the last of them leads.
#[derive(Clone, Copy, Debug, PartialEq, Eq)]
pub enum Scenario {
    /// Each of five members keeps its link to member 1 and no other: the leader hears no majority.
    Quorum,
    /// The same, but the leader keeps no link.
    Constrained,
    /// Three members in a row, with the leader at an end.
    Chained,
}

impl Scenario {
    /// The scenario of this name. `None` comes exactly where there is none.
    pub fn named(name: &str) -> Option<Scenario>
        ensures some { IfSome result (λ s. name.now ≡ name_of s) }
        ensures none { IfNone result ((s : Scenario) → name.now ≡ name_of s → ⊥) }
    {
        match name {
            "quorum" => Some(Scenario::Quorum),
            "constrained" => Some(Scenario::Constrained),
            "chained" => Some(Scenario::Chained),
            _ => None,
        }
    }

    /// Its name.
    pub fn name(self) -> &'static str
        ensures { result.now ≡ name_of self }
    {
        match self {
            Scenario::Quorum => "quorum",
            Scenario::Constrained => "constrained",
            Scenario::Chained => "chained",
        }
    }

    /// Its members. `NoMemory` comes only where a list of ids has no room for them.
    pub fn members(self) -> Result<Members, NoMemory>
        ensures { IfOk result (λ members. members ≡ members_of self) }
    {
        let pids: &[u32] = match self {
            Scenario::Quorum | Scenario::Constrained => &[1, 2, 3, 4, 5],
            Scenario::Chained => &[1, 2, 3],
        };
        Members::from_slice(pids)
    }

    /// The links that are left.
    pub fn links(self) -> Links<'static>
        ensures { result.pairs.now ≡ links_of self }
    {
        let pairs: &'static [(u32, u32)] = match self {
            Scenario::Quorum => &[(1, 2), (1, 3), (1, 4), (1, 5)],
            Scenario::Constrained => &[(1, 2), (1, 3), (1, 4)],
            Scenario::Chained => &[(1, 2), (2, 3)],
        };
        Links { pairs }
    }
}

/// The links of the scenario of this name. `None` comes exactly where there is none.
pub fn links(name: &str) -> Option<Links<'static>>
    ensures some { IfSome result (λ links.
        (s : Scenario) × (name.now ≡ name_of s) × (links.pairs.now ≡ links_of s)) }
    ensures none { IfNone result ((s : Scenario) → name.now ≡ name_of s → ⊥) }
{
    Scenario::named(name).map(Scenario::links)
}
