ghost use Rattle.std.specs.Prelude.{◌≡◌, All, IfSome, map, zip};
ghost use Rattle.op_types.specs.Ranges.{AreCommands};
ghost use Rattle.op_command.specs.Replies.{said_of as denied};
ghost use Rattle.op_command.specs.Ranges.{OutcomeInRange, RefusalInRange};
ghost use Rattle.op_serving.specs.Ranges.{InputInRange, KeyAtInRange, WantedInRange};
ghost use Rattle.op_serving.specs.Handing.{of_command, no_command, refusal_of};
ghost use Rattle.op_serving.specs.Inputs.{asked_by, key_of};

use op_command::{ClientReply, Said};
use op_outside::Conn;
use op_serving::{Key, Keys, Wanted};
use op_types::{Command, Input, Outcome, Refusal};

/// What clients asked for at the connections whose frames an input was: each command at its own.
pub fn asked_by(who: &[Conn], input: &Input) -> Option<Wanted>
    requires { InputInRange input.now }
    ensures is { result ≡ asked_by who.now input.now }
    ensures range { IfSome result WantedInRange }
{
    let first = who.first()?;
    match input {
        Input::Commands(commands) => Some(Wanted::Commands(keys_of(who, commands.as_slice()))),
        Input::Stop(_) => Some(Wanted::Stop(*first)),
        Input::TrimNow => Some(Wanted::Trim(*first)),
        Input::Read(read) => Some(Wanted::Read(*first, (read.client, read.seq))),
        _ => None,
    }
}

/// Which commands these are, each with its connection.
fn keys_of(who: &[Conn], commands: &[Command]) -> Keys
    requires { AreCommands commands.now }
    ensures is { result ≡ zip who.now (map key_of commands.now) }
    ensures range { All KeyAtInRange result }
{
    let mut keys = Keys::new();
    for (conn, command) in who.iter().zip(commands) {
        keys.push(*conn, (command.client, command.seq));
    }
    keys
}

/// What is said of a command or a read.
pub fn of_command(key: Key, said: Said) -> ClientReply
    ensures { result ≡ of_command key said }
{
    ClientReply {
        client: key.0,
        seq: key.1,
        said,
    }
}

/// What is said of no command.
pub fn of_no_command(said: Said) -> ClientReply
    ensures { result ≡ no_command said }
{
    ClientReply {
        client: 0,
        seq: 0,
        said,
    }
}

/// Why a proposal is not done; None stands for want of memory.
pub fn denied(why: Option<Refusal>) -> Said
    ensures { result ≡ denied why }
{
    match why {
        None => Said::RefusedMemory,
        Some(why) => Said::Outcome(Outcome::Refused(why)),
    }
}

/// Why a proposal is refused, if it is.
pub fn refusal(outcome: Option<Outcome>) -> Option<Refusal>
    ensures is { result ≡ refusal_of outcome }
    ensures range { IfSome outcome OutcomeInRange → IfSome result RefusalInRange }
{
    match outcome {
        Some(Outcome::Refused(why)) => Some(why),
        _ => None,
    }
}
