//! The messages that were sent.
ghost use Rattle.std.specs.Prelude.{◌≡◌, ◌++◌, OnOk};
ghost use Rattle.op_runs.specs.World.{sent_by};

use op_types::{Msg, NoMemory, Pid, Sends};
use std::marker::Model;

/// A message, from one node to another.
#[derive(Drop)]
pub struct Sent {
    /// The sender.
    pub from: Pid,
    /// The addressee.
    pub to: Pid,
    /// What was sent.
    pub message: Msg,
}

impl Model for Sent {
    ghost use Rattle.op_runs.specs.World as runs;

    ghost Value = { runs.Sent };

    ghost view = { λ s. record { from = s.from; to = s.to; message = s.message } };
}

/// Adds what a node sends.
#[inline(always)]
pub fn send_all(messages: &mut Vec<Sent>, from: Pid, sends: Sends) -> Result<(), NoMemory>
    ensures { OnOk result (messages.new.items ≡ messages.old.items ++ sent_by from sends) }
{
    if sends.is_empty() {
        return Ok(());
    }
    send_some(messages, from, sends)
}

/// The same, where there is something to send.
#[inline(never)]
fn send_some(messages: &mut Vec<Sent>, from: Pid, sends: Sends) -> Result<(), NoMemory>
    ensures { OnOk result (messages.new.items ≡ messages.old.items ++ sent_by from sends) }
{
    'sends: for (to, message) in sends.into_vec() {
        messages.push(Sent { from, to, message })?;
    }
    Ok(())
}
