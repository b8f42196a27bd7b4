//! All configurations, one after another, as definitions of one pure machine, and what is proved of it over
//! every schedule: whatever is lost, repeated, reordered or stopped. No code runs here. Inside a
//! configuration a server is a member of `op_paxos`; `specs/Servers.antt` is a server's step, and
//! `specs/Worlds.antt` says what may happen.
#![tactic(auto)]

ghost use Rattle.op_configurations.specs.Laws.{
  EndedBelow,
  Grows,
  JoiningKeeps,
  JoinsAbove,
  LatestRises,
  LettersStand,
  MeetsMachine,
  MessagesStand,
  NeverFalls,
  OneList,
  Safe,
  Stands,
  TrimsKnown,
};
ghost use Rattle.op_configurations.specs.Stored.{BeforeIsFixed, HoldsOn, LedgerSame, ShowsSame, StoredStands};
ghost use Rattle.op_configurations.specs.Views.{AloneDecides, EachIsARun, ExchangeDecides, InnerGrows};

/// What any two servers show of a configuration are prefixes of one another. Each happening is finitely many
/// allowed steps of the list machine, which is safe and only grows. No decided index falls until a later
/// configuration is closed, and no latest configuration ever; the lists before that are ended, and never
/// change again.
pub fn lists_are_one()
    ensures one_list { OneList }
    ensures machine { MeetsMachine }
    ensures safe { Safe }
    ensures grows { Grows }
    ensures never_falls { NeverFalls }
    ensures latest { LatestRises }
    ensures ended { EndedBelow }
    ensures fixed { BeforeIsFixed }
{}

/// What servers keep stands in the lists, and so does each stored state that holds such a state, whatever
/// happens elsewhere: what it shows is the run's machine. Nothing is trimmed that a member of its
/// configuration never knew. A server that joins keeps its part, and joins only what is above it.
pub fn states_stand()
    ensures stands { Stands }
    ensures stored { StoredStands }
    ensures holds { HoldsOn }
    ensures shows { ShowsSame }
    ensures ledger { LedgerSame }
    ensures trims { TrimsKnown }
    ensures joining { JoiningKeeps }
    ensures above { JoinsAbove }
{}

/// Each news of a configuration, base and segment that was ever sent is true of the lists, and each Decide,
/// Progress and Trim of what was known.
pub fn letters_stand()
    ensures letters { LettersStand }
    ensures messages { MessagesStand }
{}

/// Seen from one configuration, a run is a run of `op_paxos` among its members, which only goes on. One
/// exchange inside it decides what it carried, and a leader that is a majority alone decides what is proposed
/// to it.
pub fn each_configuration_is_a_run()
    ensures views { EachIsARun }
    ensures inner_grows { InnerGrows }
    ensures exchange { ExchangeDecides }
    ensures alone { AloneDecides }
{}
