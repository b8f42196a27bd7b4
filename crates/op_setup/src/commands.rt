//! The commands, for clap.
ghost use Rattle.std.specs.Prelude.{◌≡◌, IfOk, false};
ghost use Rattle.clap.specs.Words.{app_of, rule_of};
ghost use Rattle.clap.specs.declared.builder.command.Command.TheViews.{out-Command as fields_of};
ghost use Rattle.op_setup.specs.Commands.{call_app, cluster_app, drill_app, needed, node_app, omni_app, optional, program_app, replay_app, several};

use clap::{Arg, ArgAction, Command};
use std::alloc::{AllocError, Global};

/// A word that has to be there.
fn needed<'a>(alloc: Global, id: &'a str) -> Arg<'a>
    ensures rule { rule_of result ≡ needed id.entry.now }
    ensures local { result.global ≡ false }
{
    Arg::new(alloc, id).required(true).action(ArgAction::Set)
}

/// A word that may be there.
fn optional<'a>(alloc: Global, id: &'a str) -> Arg<'a>
    ensures rule { rule_of result ≡ optional id.entry.now }
    ensures local { result.global ≡ false }
{
    Arg::new(alloc, id).action(ArgAction::Set)
}

/// One word or more, to the last one.
fn several<'a>(alloc: Global, id: &'a str) -> Arg<'a>
    ensures rule { rule_of result ≡ several id.entry.now }
    ensures local { result.global ≡ false }
{
    Arg::new(alloc, id)
        .required(true)
        .action(ArgAction::Append)
        .num_args(1..)
        .trailing_var_arg(true)
}

/// The command `node`, with an id.
fn node<'a>(alloc: Global) -> Result<Command<'a>, AllocError>
    ensures app { IfOk result (λ c. app_of c ≡ node_app) }
    ensures local { IfOk result (λ c. (fields_of c).has_globals ≡ false) }
{
    Command::new(alloc, "node").arg(needed(alloc, "id"))
}

/// The command `replay`, which takes no more words.
fn replay<'a>(alloc: Global) -> Command<'a>
    ensures app { app_of result ≡ replay_app }
    ensures local { (fields_of result).has_globals ≡ false }
{
    Command::new(alloc, "replay")
}

/// The command `call`, with an address and a request's words.
fn call<'a>(alloc: Global) -> Result<Command<'a>, AllocError>
    ensures app { IfOk result (λ c. app_of c ≡ call_app) }
    ensures local { IfOk result (λ c. (fields_of c).has_globals ≡ false) }
{
    Command::new(alloc, "call")
        .arg(needed(alloc, "addr"))?
        .arg(several(alloc, "word"))
}

/// The command `cluster`, which takes no more words.
fn cluster<'a>(alloc: Global) -> Command<'a>
    ensures app { app_of result ≡ cluster_app }
    ensures local { (fields_of result).has_globals ≡ false }
{
    Command::new(alloc, "cluster")
}

/// The command `drill`, with a seed and a number of events, or the flag `--links`, a scenario's name and a
/// number of rounds.
fn drill<'a>(alloc: Global) -> Result<Command<'a>, AllocError>
    ensures app { IfOk result (λ c. app_of c ≡ drill_app) }
    ensures local { IfOk result (λ c. (fields_of c).has_globals ≡ false) }
{
    Command::new(alloc, "drill")
        .arg(optional(alloc, "links").long("links"))?
        .arg(needed(alloc, "number"))?
        .arg(optional(alloc, "events"))
}

/// The program, whose words come without its own name.
fn program<'a>(alloc: Global) -> Command<'a>
    ensures { app_of result ≡ program_app }
{
    Command::new(alloc, "omni").no_binary_name(true)
}

/// The program and its commands.
pub fn omni<'a>(alloc: Global) -> Result<Command<'a>, AllocError>
    ensures { IfOk result (λ c. app_of c ≡ omni_app) }
{
    let node = node(alloc)?;
    let call = call(alloc)?;
    let drill = drill(alloc)?;
    program(alloc)
        .subcommand(node)?
        .subcommand(replay(alloc))?
        .subcommand(call)?
        .subcommand(cluster(alloc))?
        .subcommand(drill)
}
