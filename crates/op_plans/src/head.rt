ghost use Rattle.std.specs.Prelude.{◌≡◌};
ghost use Rattle.op_plans.specs.Heads.{part_of};

use op_types::{Ballot, Body, Entries, PromisedRun, SyncRun};

/// What a message tells beside its entries, where these are too long for one.
#[derive(Clone, Copy)]
pub enum Head {
    /// A promise: the ballot, and the log's accepted round, its length, what is decided, and where the
    /// entries begin.
    Promise(Ballot, Ballot, u64, u64, u64),
    /// An accept sync: the ballot, and where the entries begin and end.
    AcceptSync(Ballot, u64, u64),
}

impl Head {
    /// The part of the message with a run from a position on.
    pub fn part(self, at: u64, run: Entries) -> Body
        ensures { result ≡ part_of self at run }
    {
        match self {
            Head::Promise(ballot, accepted, len, decided, start) => {
                let part = PromisedRun {
                    at,
                    run,
                    accepted,
                    len,
                    decided,
                    start,
                };
                Body::PromisePart(ballot, part)
            }
            Head::AcceptSync(ballot, start, end) => {
                let part = SyncRun {
                    start,
                    end,
                    at,
                    run,
                };
                Body::AcceptSyncPart(ballot, part)
            }
        }
    }
}
