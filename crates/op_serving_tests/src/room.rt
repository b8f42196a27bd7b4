//! Frames for a peer that takes none: they wait behind what waits for it, and heartbeats don't. A new ballot
//! takes their place.
use op_outside::Conn;
use op_queues::Sessions;
use op_serving::Kind;
use op_types::{Ballot, Body, Msg, NoMemory, Pid};
use std::alloc::Global;
use std::test::Fail;

/// The connection of the peer's session.
const CONN: Conn = 5;

/// The peer.
const PEER: Pid = 2;

/// So many bytes has a frame that tells how much is decided: its head, two ids, configuration and tag, a
/// ballot and a length.
const DECIDE: usize = 8 + 4 + 4 + 4 + 1 + 12 + 8;

/// So many has a heartbeat's request: the same, and a round.
const REQUEST: usize = 8 + 4 + 4 + 4 + 1 + 8;

/// So many has a wish to be prepared: the same, and nothing more.
const WISH: usize = 8 + 4 + 4 + 4 + 1;

/// So many has a Prepare: the same, two ballots and two lengths.
const PREPARE: usize = 8 + 4 + 4 + 4 + 1 + 12 + 12 + 8 + 8;

/// So many of the first are needed until 2 MiB wait.
const AHEAD: usize = 51_151;

/// So many wait behind them.
const BEHIND: usize = 1000;

/// A node with a session of its peer.
fn with_peer(alloc: Global) -> Result<Sessions, NoMemory> {
    let mut sessions = Sessions::new(alloc, 1)?;
    sessions.know(PEER)?;
    sessions.join(CONN, Kind::Unknown)?;
    sessions.link(PEER, CONN);
    Ok(sessions)
}

/// Tells the peer so often how much is decided.
fn tell(sessions: &mut Sessions, times: usize) {
    let ballot = Ballot { number: 1, pid: 1 };
    for _ in 0..times {
        sessions.send((
            PEER,
            Msg {
                conf: 1,
                body: Body::Decide(ballot, 1),
            },
        ));
    }
}

/// Asks the peer for a heartbeat.
fn ask(sessions: &mut Sessions) {
    sessions.send((
        PEER,
        Msg {
            conf: 1,
            body: Body::HeartbeatRequest(1),
        },
    ));
}

/// Asks the peer for a promise of a new ballot: the log was accepted in another.
fn prepare_anew(sessions: &mut Sessions) {
    let ballot = Ballot { number: 2, pid: 1 };
    let accepted = Ballot { number: 1, pid: 1 };
    sessions.send((
        PEER,
        Msg {
            conf: 1,
            body: Body::Prepare(ballot, accepted, 1, 1),
        },
    ));
}

/// Asks the peer for a promise of a ballot that is led: the log was accepted in it.
fn prepare_again(sessions: &mut Sessions) {
    let ballot = Ballot { number: 2, pid: 1 };
    sessions.send((
        PEER,
        Msg {
            conf: 1,
            body: Body::Prepare(ballot, ballot, 1, 1),
        },
    ));
}

/// Asks the peer to be prepared.
fn wish(sessions: &mut Sessions) {
    sessions.send((
        PEER,
        Msg {
            conf: 1,
            body: Body::PrepareReq,
        },
    ));
}

/// The peer takes all that waits for it.
fn take_all(sessions: &mut Sessions) {
    let waiting = sessions.waiting(CONN).len();
    sessions.took(CONN, waiting);
}

/// What is done with the peer's session.
#[derive(Clone, Copy)]
enum Step {
    /// It is told so often how much is decided.
    Tells(usize),
    /// It is asked for a heartbeat.
    Asks,
    /// It is asked to be prepared.
    Wishes,
    /// It is asked for a promise of a new ballot, or of one that is led.
    PreparesAnew,
    PreparesAgain,
    /// It takes all that waits for it.
    TakesAll,
    /// So many bytes wait for it.
    Waits(usize),
    /// What is to be closed is closed, and it isn't.
    StaysOpen,
}

/// Whether what is told of the session is so.
fn tells(sessions: &mut Sessions, step: Step) -> bool {
    match step {
        Step::Waits(count) => sessions.waiting(CONN).len() == count,
        _ => {
            sessions.shed();
            sessions.is_open(CONN)
        }
    }
}

/// Whether a step is done, and what it tells is so.
fn goes(sessions: &mut Sessions, step: Step) -> bool {
    match step {
        Step::Tells(times) => tell(sessions, times),
        Step::Asks => ask(sessions),
        Step::Wishes => wish(sessions),
        Step::PreparesAnew => prepare_anew(sessions),
        Step::PreparesAgain => prepare_again(sessions),
        Step::TakesAll => take_all(sessions),
        Step::Waits(_) | Step::StaysOpen => return tells(sessions, step),
    }
    true
}

/// The first of these steps of a new session that goes otherwise.
fn first_wrong(alloc: Global, steps: &[Step]) -> Result<Option<usize>, NoMemory> {
    let mut sessions = with_peer(alloc)?;
    for (place, step) in steps.iter().enumerate() {
        if !goes(&mut sessions, *step) {
            return Ok(Some(place));
        }
    }
    Ok(None)
}

/// More frames than may wait.
const TOO_MANY: Step = Step::Tells(AHEAD + BEHIND);

/// What comes of what waits behind.
const ROWS: [&[Step]; 4] = [
    // A heartbeat goes before it.
    &[
        TOO_MANY,
        Step::Waits(AHEAD * DECIDE),
        Step::Asks,
        Step::Waits(AHEAD * DECIDE + REQUEST),
        Step::TakesAll,
        Step::Waits(0),
        Step::Asks,
        Step::Waits(BEHIND * DECIDE + REQUEST),
        Step::StaysOpen,
    ],
    // A new ballot takes its place. What moves up goes before a heartbeat.
    &[
        TOO_MANY,
        Step::PreparesAnew,
        Step::Waits(AHEAD * DECIDE),
        Step::TakesAll,
        Step::Asks,
        Step::Waits(PREPARE + REQUEST),
    ],
    // A ballot that is led waits its turn.
    &[
        TOO_MANY,
        Step::PreparesAgain,
        Step::Waits(AHEAD * DECIDE),
        Step::TakesAll,
        Step::Asks,
        Step::Waits(BEHIND * DECIDE + PREPARE + REQUEST),
    ],
    // A wish to be prepared goes before it.
    &[
        TOO_MANY,
        Step::Wishes,
        Step::Waits(AHEAD * DECIDE + WISH),
        Step::TakesAll,
        Step::Asks,
        Step::Waits(BEHIND * DECIDE + REQUEST),
    ],
];

#[test]
fn frames_wait_behind_what_waits(rt: HostRuntime) -> Result<(), Fail> {
    for (place, steps) in ROWS.iter().enumerate() {
        let wrong = first_wrong(rt.alloc(), steps)?;
        assert!(rt; wrong.is_none(), "row {place}, step {wrong:?}");
    }
    Ok(())
}
