//! The task that words ask for.
ghost use Rattle.std.specs.Prelude.{◌≡◌, ◌≤◌, ◌∷◌, ◌↔◌, map, codes, decimal, string_bytes, slice_get, Some, IfOk, IfErr, IsTrue, Err};
ghost use Rattle.op_text.specs.Found.{IsFound};
ghost use Rattle.op_setup.specs.Commands.{NamesFirst};
ghost use Rattle.op_setup.specs.Tasks.{task_words, IsTask, IsTaskOf, TaskInRange};

use crate::addresses::addr;
use crate::arguments::bytes;
use crate::commands::omni;
use crate::fail::TaskFail;
use crate::requests::request;
use crate::tasks::{MOST_EVENTS, MOST_ROUNDS, Task};
use clap::ArgMatches;
use op_gen::Scenario;
use op_text::{number, pid};
use op_types::NoMemory;
use std::alloc::Global;

/// `node`: an id.
fn node(words: &[String]) -> Option<Task>
    ensures { IsFound (IsTaskOf (codes "node" ∷ map string_bytes words.now)) result }
{
    match words {
        [id] => Some(Task::Node(pid(bytes(id))?)),
        _ => None,
    }
}

/// `drill`: a seed and how many events, or the flag `--links`, a scenario's name, and how many rounds.
fn drill(words: &[String]) -> Option<Task>
    ensures { IsFound (IsTaskOf (codes "drill" ∷ map string_bytes words.now)) result }
{
    match words {
        [seed, count] => {
            let seed = number(bytes(seed))?;
            Some(Task::Drill(seed, number_to(bytes(count), MOST_EVENTS)?))
        }
        [flag, name, count] if flag.as_str() == "--links" => {
            let scenario = Scenario::named(name.as_str())?;
            Some(Task::DrillLinks(scenario, number_to(bytes(count), MOST_ROUNDS)?))
        }
        _ => None,
    }
}

/// The number from 1 to this one that a word writes.
#[tactic(auto, using(std::proofs::lemmas::Fmt::decimal_injective))]
fn number_to(word: &[u8], most: u64) -> Option<u64>
    ensures { IsFound (λ n. (1 ≤ n) × (n ≤ most) × (word.now ≡ decimal n)) result }
{
    let n = number(word)?;
    if 1 <= n && n <= most { Some(n) } else { None }
}

/// `call`: an address, and a request's words.
fn call(alloc: Global, words: &[String]) -> Result<Option<Task>, NoMemory>
    ensures found { IfOk result (IsFound (IsTaskOf (codes "call" ∷ map string_bytes words.now))) }
    ensures memory { IfErr result (λ _. IsTask (codes "call" ∷ map string_bytes words.now)) }
{
    let Some((addr_word, words)) = words.split_first() else {
        return Ok(None);
    };
    let Some(addr) = addr(addr_word.as_str()) else {
        return Ok(None);
    };
    match request(alloc, words)? {
        Some(request) => Ok(Some(Task::Call(addr, request))),
        None => Ok(None),
    }
}

/// The task that words ask for. Memory is taken only for words that are a task's.
fn asked(alloc: Global, words: &[String]) -> Result<Option<Task>, NoMemory>
    ensures found { IfOk result (IsFound (IsTaskOf (map string_bytes words.now))) }
    ensures memory { IfErr result (λ _. IsTask (map string_bytes words.now)) }
{
    let Some((name, words)) = words.split_first() else {
        return Ok(None);
    };
    match name.as_str() {
        "node" => Ok(node(words)),
        "replay" if words.is_empty() => Ok(Some(Task::Replay)),
        "call" => call(alloc, words),
        "cluster" if words.is_empty() => Ok(Some(Task::Cluster)),
        "drill" => Ok(drill(words)),
        _ => Ok(None),
    }
}

/// What clap makes of a task's words: it finds their command, and fails only for want of memory.
fn matched<'a>(alloc: Global, words: &'a [String]) -> Result<ArgMatches<'a>, TaskFail>
    requires { IsTask (map string_bytes words.now) }
    ensures found { IfOk result (λ m. NamesFirst m (map string_bytes words.now)) }
    ensures memory { result ≡ Err TaskFail.Usage → ⊥ }
{
    let command = omni(alloc)?;
    Ok(command.try_get_matches_from(words)?)
}

/// The task that the words of the command line ask for; the program's name isn't one of them. `Usage` comes
/// exactly where they are no task's, before clap reads any of them and with no memory taken. `NoMemory` comes
/// only where the allocator has none.
pub fn task(alloc: Global, words: &[String]) -> Result<Task, TaskFail>
    ensures found { IfOk result (λ t. map string_bytes words.now ≡ task_words t) }
    ensures in_range { IfOk result TaskInRange }
    ensures usage { result ≡ Err TaskFail.Usage → IsTask (map string_bytes words.now) → ⊥ }
    ensures usage_always { (IsTask (map string_bytes words.now) → ⊥) → result ≡ Err TaskFail.Usage }
{
    let Some(task) = asked(alloc, words)? else {
        return Err(TaskFail::Usage);
    };
    matched(alloc, words)?;
    Ok(task)
}
