//! What happens in a drill's events, drawn from the words of a generator.
ghost use Rattle.std.specs.Prelude.{◌≡◌, ◌≤◌, ◌<◌, ◌+◌, ◌%◌, ◌∷◌, ◌++◌, [], ℕ, nat_eq, true, decimal, IfOk};
ghost use Rattle.std.specs.Set.{is_member};
ghost use Rattle.op_types.specs.Ranges.{AreCommands, IsNumber, IsPid, MembersInRange};
ghost use Rattle.op_runs.specs.Possible.{WhatInRange, are_nodes, is_possible};
ghost use Rattle.op_gen.specs.Draws.{crash_drawn, delivery_drawn, drawn_as, drill_ids, drill_nodes, failure_drawn, put_drawn, put_of, servers, session_drawn, stop_drawn, three_from, word_of};

use crate::kind::Kind;
use op_runs::What;
use op_types::{Blob, Command, Commands, Members, NoMemory, Op, Pid, Shared};
use rand_core::utils::NextWord;
use rand_pcg::Lcg64Xsh32;
use std::alloc::Global;

/// How many servers there are, from 1 on.
const SERVERS: u32 = 5;

/// How many clients there are, from 1 on.
const CLIENTS: u32 = 4;

/// How many keys clients put.
const KEYS: u32 = 16;

/// How many messages, of those that were sent last, may be delivered.
const RECENT: u64 = 64;

/// How many calls of a node's first disk a stop or a failure is drawn from.
const CALLS: u32 = 4;

/// How many images of its disks a stop may leave.
const IMAGES: u32 = 256;

/// What happens in an event of this kind and number, where so many messages were sent.
pub fn drawn_as(
    alloc: Global,
    words: &mut Lcg64Xsh32,
    kind: Kind,
    number: u64,
    sent: u64,
) -> Result<What, NoMemory>
    requires { IsNumber number }
    ensures what { IfOk result (λ w. w ≡ (drawn_as kind number sent words.old).0) }
    ensures words { words.new ≡ (drawn_as kind number sent words.old).1 }
    ensures range { IfOk result WhatInRange }
    ensures possible { IfOk result (λ w. is_possible drill_ids sent w ≡ true) }
{
    match kind {
        Kind::Tick => Ok(What::Tick(server(words))),
        Kind::Delivery => Ok(delivery(words, sent)),
        Kind::Put => put(alloc, words, number),
        Kind::Crash => Ok(crash(words)),
        Kind::Start => Ok(What::Start(server(words))),
        Kind::Failure => Ok(failure(words)),
        Kind::Trim => Ok(What::Trim(server(words))),
        Kind::Session => Ok(session(words)),
        Kind::Stop => stop(alloc, words),
    }
}

/// One of the last messages is delivered; there is a tick where none was sent.
fn delivery(words: &mut Lcg64Xsh32, sent: u64) -> What
    ensures what { result ≡ (delivery_drawn sent words.old).0 }
    ensures words { words.new ≡ (delivery_drawn sent words.old).1 }
    ensures range { WhatInRange result }
    ensures possible { is_possible drill_ids sent result ≡ true }
{
    if sent == 0 {
        return What::Tick(1);
    }
    let back = below(words, sent.min(RECENT) as u32);
    What::Deliver(sent - 1 - u64::from(back))
}

/// A client's put.
fn put(alloc: Global, words: &mut Lcg64Xsh32, number: u64) -> Result<What, NoMemory>
    requires { IsNumber number }
    ensures what { IfOk result (λ w. w ≡ (put_drawn number words.old).0) }
    ensures words { words.new ≡ (put_drawn number words.old).1 }
    ensures range { IfOk result WhatInRange }
    ensures possible { (sent : ℕ) → IfOk result (λ w. is_possible drill_ids sent w ≡ true) }
{
    let pid = server(words);
    let client = 1 + below(words, CLIENTS);
    let key = below(words, KEYS);
    Ok(What::Commands(pid, one_put(alloc, client, number, key)?))
}

/// A stop in a call of a disk.
fn crash(words: &mut Lcg64Xsh32) -> What
    ensures what { result ≡ (crash_drawn words.old).0 }
    ensures words { words.new ≡ (crash_drawn words.old).1 }
    ensures range { WhatInRange result }
    ensures possible { (sent : ℕ) → is_possible drill_ids sent result ≡ true }
{
    let pid = server(words);
    let call = 1 + below(words, CALLS);
    let image = below(words, IMAGES);
    What::CrashAt(pid, call as u8, image as u8)
}

/// A call of a disk that fails.
fn failure(words: &mut Lcg64Xsh32) -> What
    ensures what { result ≡ (failure_drawn words.old).0 }
    ensures words { words.new ≡ (failure_drawn words.old).1 }
    ensures range { WhatInRange result }
    ensures possible { (sent : ℕ) → is_possible drill_ids sent result ≡ true }
{
    let pid = server(words);
    let call = 1 + below(words, CALLS);
    What::Fail(pid, call as u8)
}

/// A session, or a tick.
#[tactic(auto, using(crate::proofs::Servers::one_of_five))]
fn session(words: &mut Lcg64Xsh32) -> What
    ensures what { result ≡ (session_drawn words.old).0 }
    ensures words { words.new ≡ (session_drawn words.old).1 }
    ensures range { WhatInRange result }
    ensures possible { (sent : ℕ) → is_possible drill_ids sent result ≡ true }
{
    let at = below(words, SERVERS);
    let peer = below(words, SERVERS);
    if at == peer {
        What::Tick(1 + at)
    } else {
        What::Up(1 + at, 1 + peer)
    }
}

/// A stop-sign.
fn stop(alloc: Global, words: &mut Lcg64Xsh32) -> Result<What, NoMemory>
    ensures what { IfOk result (λ w. w ≡ (stop_drawn words.old).0) }
    ensures words { words.new ≡ (stop_drawn words.old).1 }
    ensures range { IfOk result WhatInRange }
    ensures possible { (sent : ℕ) → IfOk result (λ w. is_possible drill_ids sent w ≡ true) }
{
    let pid = server(words);
    let first = below(words, SERVERS);
    let members = Members::from_slice(three_from(first))?;
    Ok(What::Stop(pid, Shared::new(alloc, members)?))
}

/// A server, 1 to 5.
#[tactic(auto, using(crate::proofs::Servers::one_of_five))]
fn server(words: &mut Lcg64Xsh32) -> Pid
    ensures drawn { result ≡ 1 + (word_of words.old).0 % servers }
    ensures words { words.new ≡ (word_of words.old).1 }
    ensures node { is_member nat_eq drill_nodes result ≡ true }
    ensures range { IsPid result }
{
    1 + below(words, SERVERS)
}

/// The next word modulo a number.
pub fn below(words: &mut Lcg64Xsh32, count: u32) -> u32
    requires { 1 ≤ count }
    ensures drawn { result ≡ (word_of words.old).0 % count }
    ensures words { words.new ≡ (word_of words.old).1 }
    ensures less { result < count }
{
    words.next_word() % count
}

/// The client's command of this number, which puts `v` and that number at `k` and this one.
fn one_put(alloc: Global, client: u32, number: u64, key: u32) -> Result<Commands, NoMemory>
    requires client { IsNumber client }
    requires number { IsNumber number }
    ensures put { IfOk result (λ cs. cs ≡ put_of client number key ∷ []) }
    ensures range { IfOk result AreCommands }
{
    let key = numbered(alloc, "k", u64::from(key))?;
    let value = numbered(alloc, "v", number)?;
    let mut commands = Commands::new(alloc);
    commands.push(Command {
        client: u64::from(client),
        seq: number,
        op: Op::Put(key, value),
    })?;
    Ok(commands)
}

/// A letter and a number.
fn numbered(alloc: Global, letter: &str, number: u64) -> Result<Blob, NoMemory>
    ensures { IfOk result (λ b. b ≡ letter.now ++ decimal number) }
{
    Blob::from_vec(format!(in alloc; "{letter}{number}")?.into_bytes())
}

/// Three of five servers in a ring, rising.
fn three_from(first: u32) -> &'static [Pid]
    ensures three { result.now ≡ three_from first }
    ensures range { MembersInRange result.now }
    ensures nodes { are_nodes drill_nodes result.now ≡ true }
{
    match first {
        0 => &[1, 2, 3],
        1 => &[2, 3, 4],
        2 => &[3, 4, 5],
        3 => &[1, 4, 5],
        _ => &[1, 2, 5],
    }
}
