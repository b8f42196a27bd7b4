//! Entries and ids, as text.
ghost use Rattle.std.specs.Prelude.{◌≡◌, ◌+◌, ◌≤◌, ◌++◌, codes, decimal, length, OnOk};
ghost use Rattle.std.specs.List.{flat_map};
ghost use Rattle.op_text.specs.Percent.{encoded};
ghost use Rattle.op_text.specs.Operations.{op_name};
ghost use Rattle.op_sched.specs.Pieces.{operands_text, place_text};
ghost use Rattle.op_sched.specs.Text.{entry_line, op_text, pid_text, write_text};

use op_text::{MOST_DIGITS, ROW_BYTES, Row, put_encoded, put_named};
use op_types::{Blob, Command, ConfNo, Entry, NoMemory, Op, Pid, Write};

/// The most bytes that the name of an operation has: `forget`.
const NAME_BYTES: usize = 6;

/// The most bytes that `put_place` puts: a name of 5 letters, and two numbers, with a space behind each.
const PLACE_BYTES: usize = 2 * MOST_DIGITS + 8;

/// Appends the line of what a configuration's log holds at a position, from 0, with its end.
pub fn put_entry(text: &mut Vec<u8>, conf: ConfNo, pos: u64, entry: &Entry) -> Result<(), NoMemory>
    ensures { OnOk result (text.new.items ≡ text.old.items ++ entry_line conf pos entry.now) }
{
    match entry {
        Entry::Command(command) => put_command(text, conf, pos, command)?,
        Entry::Stop(sign) => {
            let mut row = Row::new();
            row.word(b"stop");
            put_place(&mut row, conf, pos);
            text.extend_from_slice(row.as_slice())?;
            put_pids(text, sign.get().members.as_slice())?;
        }
    }
    text.push(b'\n')?;
    Ok(())
}

/// Puts the name of an entry's line and where the entry stands before what it is.
fn put_place(row: &mut Row, conf: ConfNo, pos: u64)
    requires { length row.old + PLACE_BYTES ≤ ROW_BYTES }
    ensures { row.new ≡ place_text conf pos ++ row.old }
{
    row.word(b" ");
    row.number(pos);
    row.word(b" ");
    row.number(u64::from(conf));
    row.word(b"entry ");
}

/// Appends the line of a client's command, without its end.
fn put_command(
    text: &mut Vec<u8>,
    conf: ConfNo,
    pos: u64,
    command: &Command,
) -> Result<(), NoMemory>
    ensures { OnOk result (text.new.items
        ≡ text.old.items ++ place_text conf pos ++ op_text command.now.client command.now.seq command.now.op) }
{
    let mut row = Row::new();
    row.number(command.seq);
    row.word(b" ");
    row.number(command.client);
    row.word(b" ");
    row.word(op_name(&command.op));
    put_place(&mut row, conf, pos);
    text.extend_from_slice(row.as_slice())?;
    put_operands(text, &command.op)
}

/// The name of a client's operation.
fn op_name(op: &Op) -> &'static [u8]
    ensures name { result.now ≡ op_name op.now }
    ensures short { length result.now ≤ NAME_BYTES }
{
    match op {
        Op::Put(..) => b"put",
        Op::Del(_) => b"del",
        Op::Get(_) => b"get",
        Op::Cas(..) => b"cas",
        Op::Many(_) => b"many",
        Op::Forget(_) => b"forget",
    }
}

/// Appends what an operation is done with, each word after a space.
fn put_operands(text: &mut Vec<u8>, op: &Op) -> Result<(), NoMemory>
    ensures { OnOk result (text.new.items ≡ text.old.items ++ operands_text op.now) }
{
    match op {
        Op::Put(key, value) => {
            put_operand(text, key)?;
            put_operand(text, value)
        }
        Op::Del(key) | Op::Get(key) => put_operand(text, key),
        Op::Cas(key, old, new) => {
            put_operand(text, key)?;
            put_operand(text, old)?;
            put_operand(text, new)
        }
        Op::Many(writes) => put_writes(text, writes.as_slice()),
        Op::Forget(client) => put_named(text, b" ", *client),
    }
}

/// Appends writes, each word after a space.
fn put_writes(text: &mut Vec<u8>, writes: &[Write]) -> Result<(), NoMemory>
    ensures { OnOk result (text.new.items ≡ text.old.items ++ flat_map write_text writes.now) }
{
    for write in writes {
        put_write(text, write)?;
    }
    Ok(())
}

/// Appends a write, each word after a space.
fn put_write(text: &mut Vec<u8>, write: &Write) -> Result<(), NoMemory>
    ensures { OnOk result (text.new.items ≡ text.old.items ++ write_text write.now) }
{
    match write {
        Write::Put(key, value) => {
            text.extend_from_slice(b" put")?;
            put_operand(text, key)?;
            put_operand(text, value)
        }
        Write::Del(key) => {
            text.extend_from_slice(b" del")?;
            put_operand(text, key)
        }
    }
}

/// Appends a key or a value after a space.
fn put_operand(text: &mut Vec<u8>, bytes: &Blob) -> Result<(), NoMemory>
    ensures { OnOk result (text.new.items ≡ text.old.items ++ codes " " ++ encoded bytes.now) }
{
    text.push(b' ')?;
    put_encoded(text, bytes.as_slice())
}

/// Appends ids, each after a space.
pub fn put_pids(text: &mut Vec<u8>, pids: &[Pid]) -> Result<(), NoMemory>
    ensures { OnOk result (text.new.items ≡ text.old.items ++ flat_map pid_text pids.now) }
{
    for pid in pids {
        put_named(text, b" ", u64::from(*pid))?;
    }
    Ok(())
}
