ghost use Rattle.std.specs.Prelude.{◌≡◌, ◌++◌, ℕ, OnOk, OnErr, IfOk, Ok, Err};
ghost use Rattle.op_types.specs.declared.messages.Msg.{Msg};
ghost use Rattle.op_fields.specs.Prefixes.{KeepsPrefix};
ghost use Rattle.op_fields.specs.Form.{whole};
ghost use Rattle.op_fields.specs.Taken.{Gives, IfBad};
ghost use Rattle.op_msg.specs.Ranges.{MsgInRange, AddressedInRange};
ghost use Rattle.op_msg.specs.Forms.{pid, kind, conf, msg, addressed};

use crate::body::{FORWARDS, HEARTBEAT_REQUEST, NEXT_CONF, body_at, put_body, tag_of};
use op_fields::{NoMemory, TakeFail, put_u8, put_u32, u8_in, u32_in};
use op_types::{ConfNo, GREATEST_PID, LAST_CONF, Msg, Pid};
use std::alloc::Global;

/// Appends a message with its sender and its addressee. Without memory nothing is appended.
pub fn put(out: &mut Vec<u8>, from: Pid, to: Pid, m: &Msg) -> Result<(), NoMemory>
    requires { AddressedInRange (from, to, m.now) }
    ensures ok { OnOk result (out.new.items ≡ out.old.items ++ addressed.text (from, to, m.now)) }
    ensures err { OnErr result (out.new.items ≡ out.old.items) }
{
    let len = out.len();
    let Ok(()) = put_parts(out, from, to, m) else {
        out.truncate(len);
        return Err(NoMemory);
    };
    Ok(())
}

#[tactic(auto, using(op_fields::proofs::Prefixes::kept_through))]
fn put_parts(out: &mut Vec<u8>, from: Pid, to: Pid, m: &Msg) -> Result<(), NoMemory>
    requires { AddressedInRange (from, to, m.now) }
    ensures ok { OnOk result (out.new.items ≡ out.old.items ++ addressed.text (from, to, m.now)) }
    ensures err { OnErr result (KeepsPrefix out.old.items out.new.items) }
{
    put_u32(out, from)?;
    put_u32(out, to)?;
    put_msg(out, m)
}

#[tactic(auto, using(op_fields::proofs::Prefixes::kept_through))]
fn put_msg(out: &mut Vec<u8>, m: &Msg) -> Result<(), NoMemory>
    requires { MsgInRange m.now }
    ensures ok { OnOk result (out.new.items ≡ out.old.items ++ msg.text m.now) }
    ensures err { OnErr result (KeepsPrefix out.old.items out.new.items) }
{
    put_u8(out, tag_of(&m.body))?;
    put_u32(out, m.conf)?;
    put_body(out, &m.body)
}

/// The sender, the addressee and the message that these bytes are. They are `Bad` at the byte offset of the
/// first field, from the left, that is short or out of range, or else of the first byte that is left over.
pub fn take(alloc: Global, bytes: &[u8]) -> Result<(Pid, Pid, Msg), TakeFail>
    // What is taken is encoded so.
    ensures found { IfOk result (λ x. addressed.fits x × (bytes.now ≡ addressed.text x)) }
    // A message's encoding is taken, unless memory runs out.
    ensures only { (x : ℕ × ℕ × Msg) → addressed.fits x → bytes.now ≡ addressed.text x →
        Gives result (Ok x) }
    // The bytes are no message.
    ensures bad { IfBad result (λ at.
        (whole addressed bytes.now ≡ Err at)
        × ((x : ℕ × ℕ × Msg) → addressed.fits x → bytes.now ≡ addressed.text x → ⊥)) }
{
    whole_message(alloc, bytes)
}

fn whole_message(alloc: Global, bytes: &[u8]) -> Result<(Pid, Pid, Msg), TakeFail>
    ensures { Gives result (whole addressed bytes.now) }
{
    let (message, end) = addressed_at(alloc, bytes, 0)?;
    if end < bytes.len() {
        return Err(TakeFail::Bad { at: end });
    }
    Ok(message)
}

fn addressed_at(
    alloc: Global,
    bytes: &[u8],
    at: usize,
) -> Result<((Pid, Pid, Msg), usize), TakeFail>
    ensures { Gives result (addressed.read bytes.now at) }
{
    let (from, at) = pid_at(bytes, at)?;
    let (to, at) = pid_at(bytes, at)?;
    let (message, at) = msg_at(alloc, bytes, at)?;
    Ok(((from, to, message), at))
}

fn pid_at(bytes: &[u8], at: usize) -> Result<(Pid, usize), TakeFail>
    ensures { Gives result (pid.read bytes.now at) }
{
    u32_in(bytes, at, 1, GREATEST_PID)
}

fn msg_at(alloc: Global, bytes: &[u8], at: usize) -> Result<(Msg, usize), TakeFail>
    ensures { Gives result (msg.read bytes.now at) }
{
    let (tag, at) = tag_at(bytes, at)?;
    let (conf, at) = conf_at(bytes, at, tag)?;
    let (body, at) = body_at(alloc, bytes, at, tag)?;
    Ok((Msg { conf, body }, at))
}

/// The tag of a message.
fn tag_at(bytes: &[u8], at: usize) -> Result<(u8, usize), TakeFail>
    ensures { Gives result (kind.read bytes.now at) }
{
    u8_in(bytes, at, HEARTBEAT_REQUEST, FORWARDS)
}

/// The configuration of a message with this tag.
fn conf_at(bytes: &[u8], at: usize, tag: u8) -> Result<(ConfNo, usize), TakeFail>
    ensures { Gives result ((conf tag).read bytes.now at) }
{
    let least = if tag == NEXT_CONF { 2 } else { 0 };
    u32_in(bytes, at, least, LAST_CONF)
}
