//! The forms of lines. Each reads the words after a line's name.
ghost use Rattle.std.specs.Prelude.{◌≡◌, ◌∷◌, [], map, codes, decimal, IfOk};
ghost use Rattle.op_types.specs.Ranges.{IsPid};
ghost use Rattle.op_runs.specs.declared.events.What.TheVariants as what;
ghost use Rattle.op_text.specs.Found.{IsFound};
ghost use Rattle.op_sched.specs.Grammar.{AreHeaderWords, AreObserverWords, AreSpareWords, AreWordsOf};
ghost use Rattle.op_sched.specs.Forms.{op_form_name, form_name, ArePeers, AreCallOf, AreDiskOf, AreIdsOf, AreMembersOf, AreStopOf, AreSparesOf, AreObserversOf, are_apart, are_beside};

use crate::reading::calls::{call, disk, image};
use crate::reading::operations::{OpForm, op_form_of, operation};
use crate::reading::reads::client_read;
use op_runs::What;
use op_text::{client_number, is_name, number, pid};
use op_types::{Command, Commands, MOST_MEMBERS, Members, NoMemory, Pid, Shared, is_among};
use std::alloc::Global;

/// How many spares a schedule has at most; `most_spares` is the same for clauses.
const MOST_SPARES: usize = 31;

/// How many observers a schedule has at most; `most_observers` is the same for clauses.
const MOST_OBSERVERS: usize = 22;

/// The one server that words name.
fn one_server(words: &[&[u8]]) -> Option<Pid>
    ensures { IsFound (λ p. IsPid p × (map (λ x. x.now) words.now ≡ decimal p ∷ [])) result }
{
    match words {
        [id] => pid(id),
        _ => None,
    }
}

/// The two servers that words name, which differ.
fn two_servers(words: &[&[u8]]) -> Option<(Pid, Pid)>
    ensures { IsFound (λ x. ArePeers x.0 x.1
        × (map (λ w. w.now) words.now ≡ decimal x.0 ∷ decimal x.1 ∷ [])) result }
{
    let [first, second] = words else {
        return None;
    };
    let (first, second) = (pid(first)?, pid(second)?);
    if first == second {
        return None;
    }
    Some((first, second))
}

/// The ids that words name, from 1 to `most`, each above the one before it.
fn rising_ids(words: &[&[u8]], most: usize) -> Result<Option<Members>, NoMemory>
    ensures { IfOk result (IsFound (AreIdsOf most (map (λ x. x.now) words.now))) }
{
    if words.is_empty() || most < words.len() {
        return Ok(None);
    }
    let mut ids = Members::new();
    let mut last = 0;
    for word in words {
        let Some(id) = pid(word) else {
            return Ok(None);
        };
        if id <= last {
            return Ok(None);
        }
        ids.push(id)?;
        last = id;
    }
    Ok(Some(ids))
}

/// The members of a configuration that words name.
fn member_ids(words: &[&[u8]]) -> Result<Option<Members>, NoMemory>
    ensures { IfOk result (IsFound (AreMembersOf (map (λ x. x.now) words.now))) }
{
    rising_ids(words, MOST_MEMBERS)
}

/// The members that a header's words name.
pub fn members(words: &[&[u8]]) -> Result<Option<Members>, NoMemory>
    ensures { IfOk result (IsFound (AreHeaderWords (map (λ x. x.now) words.now))) }
{
    let Some((name, words)) = words.split_first() else {
        return Ok(None);
    };
    if !is_name(name, b"members") {
        return Ok(None);
    }
    member_ids(words)
}

/// The spares that the words of a second header name, none of them a member.
pub fn spares(words: &[&[u8]], members: &Members) -> Result<Option<Members>, NoMemory>
    ensures { IfOk result (IsFound (AreSpareWords members.now (map (λ x. x.now) words.now))) }
{
    let Some((name, words)) = words.split_first() else {
        return Ok(None);
    };
    if !is_name(name, b"spares") {
        return Ok(None);
    }
    spare_ids(words, members)
}

/// The ids that words name, none of them a member.
fn spare_ids(words: &[&[u8]], members: &Members) -> Result<Option<Members>, NoMemory>
    ensures { IfOk result (IsFound (AreSparesOf members.now (map (λ x. x.now) words.now))) }
{
    let Some(ids) = rising_ids(words, MOST_SPARES)? else {
        return Ok(None);
    };
    if are_apart(members.as_slice(), ids.as_slice()) {
        Ok(Some(ids))
    } else {
        Ok(None)
    }
}

/// The observers that the words of a header name, none of them a member or a spare.
pub fn observers(
    words: &[&[u8]],
    members: &Members,
    spares: &Members,
) -> Result<Option<Members>, NoMemory>
    ensures { IfOk result (IsFound
        (AreObserverWords members.now spares.now (map (λ x. x.now) words.now))) }
{
    let Some((name, words)) = words.split_first() else {
        return Ok(None);
    };
    if !is_name(name, b"observers") {
        return Ok(None);
    }
    observer_ids(words, members, spares)
}

/// The ids that words name, none of them a member or a spare.
fn observer_ids(
    words: &[&[u8]],
    members: &Members,
    spares: &Members,
) -> Result<Option<Members>, NoMemory>
    ensures { IfOk result (IsFound
        (AreObserversOf members.now spares.now (map (λ x. x.now) words.now))) }
{
    let Some(ids) = rising_ids(words, MOST_OBSERVERS)? else {
        return Ok(None);
    };
    if are_beside(members, spares, ids.as_slice()) {
        Ok(Some(ids))
    } else {
        Ok(None)
    }
}

/// Whether none of these ids is a member or a spare.
fn are_beside(members: &Members, spares: &Members, ids: &[Pid]) -> bool
    ensures { result ≡ are_beside members.now spares.now ids.now }
{
    are_apart(members.as_slice(), ids) && are_apart(spares.as_slice(), ids)
}

/// Whether none of these ids is a member.
fn are_apart(members: &[Pid], ids: &[Pid]) -> bool
    ensures { result ≡ are_apart members.now ids.now }
{
    match ids {
        [] => true,
        [first, rest @ ..] => !is_among(members, *first) && are_apart(members, rest),
    }
}

/// `tick`: a server.
fn tick(words: &[&[u8]]) -> Option<What>
    ensures { IsFound (AreWordsOf (codes "tick" ∷ map (λ x. x.now) words.now)) result }
{
    Some(What::Tick(one_server(words)?))
}

/// `deliver`: a message's number, from 0.
fn deliver(words: &[&[u8]]) -> Option<What>
    ensures { IsFound (AreWordsOf (codes "deliver" ∷ map (λ x. x.now) words.now)) result }
{
    match words {
        [index] => Some(What::Deliver(number(index)?)),
        _ => None,
    }
}

/// `up`: the server where a session begins, and the one that it is with.
#[tactic(auto, using(crate::proofs::EventWords::no_up))]
fn up(words: &[&[u8]]) -> Option<What>
    ensures { IsFound (AreWordsOf (codes "up" ∷ map (λ x. x.now) words.now)) result }
{
    let (at, peer) = two_servers(words)?;
    Some(What::Up(at, peer))
}

/// `drop`: the server where a session ends, and the one that it was with.
#[tactic(auto, using(crate::proofs::EventWords::no_down))]
fn down(words: &[&[u8]]) -> Option<What>
    ensures { IsFound (AreWordsOf (codes "drop" ∷ map (λ x. x.now) words.now)) result }
{
    let (at, peer) = two_servers(words)?;
    Some(What::Down(at, peer))
}

/// The server and the call of its disks that words name.
fn one_call(words: &[&[u8]]) -> Option<(Pid, u8)>
    ensures { IsFound (AreCallOf (map (λ x. x.now) words.now)) result }
{
    match words {
        [id, at] => Some((pid(id)?, call(at)?)),
        _ => None,
    }
}

/// The server and the one of its disks that words name.
fn one_disk(words: &[&[u8]]) -> Option<(Pid, u8)>
    ensures { IsFound (AreDiskOf (map (λ x. x.now) words.now)) result }
{
    match words {
        [id, at] => Some((pid(id)?, disk(at)?)),
        _ => None,
    }
}

/// The server, the call of its disks and the image of them that words name.
fn one_stop(words: &[&[u8]]) -> Option<(Pid, u8, u8)>
    ensures { IsFound (AreStopOf (map (λ x. x.now) words.now)) result }
{
    match words {
        [id, at, left] => Some((pid(id)?, call(at)?, image(left)?)),
        _ => None,
    }
}

/// `crash`: a server, and where it stops inside a call of its disks this call and the image that is left.
#[tactic(auto, using(crate::proofs::EventWords::no_crash))]
fn crash(words: &[&[u8]]) -> Option<What>
    ensures { IsFound (AreWordsOf (codes "crash" ∷ map (λ x. x.now) words.now)) result }
{
    if let Some(id) = one_server(words) {
        return Some(What::Crash(id));
    }
    let (id, call, image) = one_stop(words)?;
    Some(What::CrashAt(id, call, image))
}

/// `fail`: a server, and the call of its disks that fails.
#[tactic(auto, using(crate::proofs::EventWords::no_failure))]
fn failure(words: &[&[u8]]) -> Option<What>
    ensures { IsFound (AreWordsOf (codes "fail" ∷ map (λ x. x.now) words.now)) result }
{
    let (id, call) = one_call(words)?;
    Some(What::Fail(id, call))
}

/// `kill`: a server, and the one of its disks that fails from now on.
#[tactic(auto, using(crate::proofs::EventWords::no_kill))]
fn kill(words: &[&[u8]]) -> Option<What>
    ensures { IsFound (AreWordsOf (codes "kill" ∷ map (λ x. x.now) words.now)) result }
{
    let (id, disk) = one_disk(words)?;
    Some(What::Kill(id, disk))
}

/// `start`: a server.
fn start(words: &[&[u8]]) -> Option<What>
    ensures { IsFound (AreWordsOf (codes "start" ∷ map (λ x. x.now) words.now)) result }
{
    Some(What::Start(one_server(words)?))
}

/// `ballots`: a server.
fn ballots(words: &[&[u8]]) -> Option<What>
    ensures { IsFound (AreWordsOf (codes "ballots" ∷ map (λ x. x.now) words.now)) result }
{
    Some(What::Ballots(one_server(words)?))
}

/// `show`: a server.
fn show(words: &[&[u8]]) -> Option<What>
    ensures { IsFound (AreWordsOf (codes "show" ∷ map (λ x. x.now) words.now)) result }
{
    Some(What::Show(one_server(words)?))
}

/// `stop`: a server, and the members of the next configuration.
fn stop(alloc: Global, words: &[&[u8]]) -> Result<Option<What>, NoMemory>
    ensures { IfOk result (IsFound (AreWordsOf (codes "stop" ∷ map (λ x. x.now) words.now))) }
{
    let Some((id, words)) = words.split_first() else {
        return Ok(None);
    };
    let Some(id) = pid(id) else {
        return Ok(None);
    };
    let Some(members) = member_ids(words)? else {
        return Ok(None);
    };
    Ok(Some(What::Stop(id, Shared::new(alloc, members)?)))
}

/// `trim`: a server.
fn trim(words: &[&[u8]]) -> Option<What>
    ensures { IsFound (AreWordsOf (codes "trim" ∷ map (λ x. x.now) words.now)) result }
{
    Some(What::Trim(one_server(words)?))
}

/// `read`: a server, and a client's read.
fn read(alloc: Global, words: &[&[u8]]) -> Result<Option<What>, NoMemory>
    ensures { IfOk result (IsFound (AreWordsOf (codes "read" ∷ map (λ x. x.now) words.now))) }
{
    let Some((id, words)) = words.split_first() else {
        return Ok(None);
    };
    let Some(id) = pid(id) else {
        return Ok(None);
    };
    match client_read(alloc, words)? {
        Some(read) => Ok(Some(What::Read(id, read))),
        None => Ok(None),
    }
}

/// The server and the command that the words after an operation's name say: a server, a client, the number of
/// its command, and the operation's own words.
pub fn command(
    alloc: Global,
    form: OpForm,
    words: &[&[u8]],
) -> Result<Option<(Pid, Commands)>, NoMemory>
    ensures { IfOk result (IsFound (λ x.
        AreWordsOf (op_form_name form ∷ map (λ w. w.now) words.now) (what.Commands x.0 x.1))) }
{
    let [id, client, seq, words @ ..] = words else {
        return Ok(None);
    };
    let Some(id) = pid(id) else {
        return Ok(None);
    };
    let Some(client) = client_number(client) else {
        return Ok(None);
    };
    let Some(seq) = client_number(seq) else {
        return Ok(None);
    };
    let Some(op) = operation(alloc, form, words)? else {
        return Ok(None);
    };
    let mut commands = Vec::with_capacity(alloc, 1)?;
    commands.push_reserved(Command { client, seq, op });
    Ok(Some((id, Commands::from_vec(commands))))
}

/// What the words after an operation's name say.
fn proposal(alloc: Global, form: OpForm, words: &[&[u8]]) -> Result<Option<What>, NoMemory>
    ensures { IfOk result (IsFound (AreWordsOf (op_form_name form ∷ map (λ x. x.now) words.now))) }
{
    match command(alloc, form, words)? {
        Some((id, commands)) => Ok(Some(What::Commands(id, commands))),
        None => Ok(None),
    }
}

/// The forms of an event's line, each with a name of its own.
#[derive(Clone, Copy)]
pub enum Form {
    /// `tick`
    Tick,
    /// `put`, `del`, `get`, `cas`, `many` or `forget`
    Command(OpForm),
    /// `stop`
    Stop,
    /// `trim`
    Trim,
    /// `read`
    Read,
    /// `deliver`
    Deliver,
    /// `up`
    Up,
    /// `drop`
    Drop,
    /// `crash`
    Crash,
    /// `fail`
    Fail,
    /// `kill`
    Kill,
    /// `start`
    Start,
    /// `show`
    Show,
    /// `ballots`
    Ballots,
}

/// The form that a line's first word names.
pub fn form_of(word: &[u8]) -> Option<Form>
    ensures { IsFound (λ form. word.now ≡ form_name form) result }
{
    if let Some(op) = op_form_of(word) {
        Some(Form::Command(op))
    } else if is_name(word, b"tick") {
        Some(Form::Tick)
    } else if is_name(word, b"stop") {
        Some(Form::Stop)
    } else if is_name(word, b"trim") {
        Some(Form::Trim)
    } else if is_name(word, b"read") {
        Some(Form::Read)
    } else if is_name(word, b"deliver") {
        Some(Form::Deliver)
    } else if is_name(word, b"up") {
        Some(Form::Up)
    } else if is_name(word, b"drop") {
        Some(Form::Drop)
    } else if is_name(word, b"crash") {
        Some(Form::Crash)
    } else if is_name(word, b"fail") {
        Some(Form::Fail)
    } else if is_name(word, b"kill") {
        Some(Form::Kill)
    } else if is_name(word, b"start") {
        Some(Form::Start)
    } else if is_name(word, b"show") {
        Some(Form::Show)
    } else if is_name(word, b"ballots") {
        Some(Form::Ballots)
    } else {
        None
    }
}

/// What the words after the name of this form say.
pub fn event_of(alloc: Global, form: Form, words: &[&[u8]]) -> Result<Option<What>, NoMemory>
    ensures { IfOk result (IsFound (AreWordsOf (form_name form ∷ map (λ x. x.now) words.now))) }
{
    match form {
        Form::Tick => Ok(tick(words)),
        Form::Command(op) => proposal(alloc, op, words),
        Form::Stop => stop(alloc, words),
        Form::Trim => Ok(trim(words)),
        Form::Read => read(alloc, words),
        Form::Deliver => Ok(deliver(words)),
        Form::Up => Ok(up(words)),
        Form::Drop => Ok(down(words)),
        Form::Crash => Ok(crash(words)),
        Form::Fail => Ok(failure(words)),
        Form::Kill => Ok(kill(words)),
        Form::Start => Ok(start(words)),
        Form::Show => Ok(show(words)),
        Form::Ballots => Ok(ballots(words)),
    }
}
