//! The disks of a node that a line names, their calls, and the images that a stop in one leaves.
ghost use Rattle.std.specs.Prelude.{◌≡◌, ◌<◌, ◌↔◌, decimal, IsTrue};
ghost use Rattle.op_runs.specs.Possible.{IsCall, IsDisk, images};
ghost use Rattle.op_text.specs.Found.{IsFound};
ghost use Rattle.op_sched.specs.Grammar.{SuitsDisks, calls_of};

use op_runs::What;
use op_text::number;

/// How many disks a node has that are not mirrored; `disks_of` is the same for clauses.
const PLAIN_DISKS: u8 = 2;

/// How many disks a node has that are mirrored; `most_disks` of `op_runs` is the same for clauses.
const MIRRORED_DISKS: u8 = 4;

/// How many calls of each disk can be named; `calls_of_disk` of `op_runs` is the same for clauses.
const CALLS_OF_DISK: u8 = 50;

/// The last call that can be named: the first disk's come before the second's, and so on.
const LAST_CALL: u8 = MIRRORED_DISKS * CALLS_OF_DISK;

/// Whether what happens suits the nodes' disks, which are mirrored or not.
pub fn suits_disks(is_mirrored: bool, what: &What) -> bool
    ensures { IsTrue result ↔ SuitsDisks is_mirrored what.now }
{
    match what {
        What::CrashAt(_, call, _) => *call <= last_call(is_mirrored),
        What::Fail(_, call) => !is_mirrored && *call <= last_call(is_mirrored),
        What::Kill(..) => is_mirrored,
        _ => true,
    }
}

/// The last call of the disks that a node has.
fn last_call(is_mirrored: bool) -> u8
    ensures { result ≡ calls_of is_mirrored }
{
    if is_mirrored {
        LAST_CALL
    } else {
        PLAIN_DISKS * CALLS_OF_DISK
    }
}

/// The number of a disk that a word writes.
#[tactic(auto, using(std::proofs::lemmas::Fmt::decimal_injective))]
pub fn disk(word: &[u8]) -> Option<u8>
    ensures { IsFound (λ n. IsDisk n × (word.now ≡ decimal n)) result }
{
    let n = number(word)?;
    if 1 <= n && n <= u64::from(MIRRORED_DISKS) {
        Some(n as u8)
    } else {
        None
    }
}

/// The number of a call that a word writes.
#[tactic(auto, using(std::proofs::lemmas::Fmt::decimal_injective))]
pub fn call(word: &[u8]) -> Option<u8>
    ensures { IsFound (λ n. IsCall n × (word.now ≡ decimal n)) result }
{
    let n = number(word)?;
    if 1 <= n && n <= u64::from(LAST_CALL) {
        Some(n as u8)
    } else {
        None
    }
}

/// The number of an image that a word writes.
#[tactic(auto, using(std::proofs::lemmas::Fmt::decimal_injective))]
pub fn image(word: &[u8]) -> Option<u8>
    ensures { IsFound (λ n. (n < images) × (word.now ≡ decimal n)) result }
{
    let n = number(word)?;
    if n <= u64::from(u8::MAX) {
        Some(n as u8)
    } else {
        None
    }
}
