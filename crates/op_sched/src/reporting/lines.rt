//! The lines that events gave, as text.
ghost use Rattle.std.specs.Prelude.{◌≡◌, ◌+◌, ◌≤◌, ◌++◌, codes, length, OnOk};
ghost use Rattle.op_text.specs.Answers.{answer_text, ballot_text};
ghost use Rattle.op_runs.specs.declared.summary.Line.TheVariants as line;
ghost use Rattle.op_sched.specs.Pieces.{asked_text};
ghost use Rattle.op_sched.specs.Text.{line_text};

use op_runs::Line;
use op_text::{
    MOST_DIGITS, ROW_BYTES, Row, put_answer, put_ballot, put_cause, put_encoded, put_named,
    put_spaced,
};
use op_types::{Answer, Ballot, Blob, Cause, NoMemory, Outcome, Pid};

/// The most bytes that `put_asked` puts: three numbers, each before a space.
const ASKED_BYTES: usize = 3 * MOST_DIGITS + 3;

/// Appends a line that an event gave, with its end.
pub fn put_line(text: &mut Vec<u8>, line: &Line) -> Result<(), NoMemory>
    ensures { OnOk result (text.new.items ≡ text.old.items ++ line_text line.now) }
{
    match line {
        Line::Answer(at, outcome) => put_outcome_line(text, *at, outcome),
        Line::Reply(pid, client, seq, answer) => {
            put_answer_line(text, b"reply ", *pid, *client, *seq, answer)
        }
        Line::Dropped(pid, client, seq, cause) => put_cause_line(text, *pid, *client, *seq, cause),
        Line::Read(pid, client, seq, answer) => {
            put_answer_line(text, b"read ", *pid, *client, *seq, answer)
        }
        Line::Pair(pid, key, value) => put_pair(text, *pid, key, value),
        Line::Ballots(pid, own, leader, promised) => {
            put_ballots(text, *pid, own, leader, promised)
        }
    }
}

/// Appends the line of what the proposal of a schedule's line was answered.
fn put_outcome_line(text: &mut Vec<u8>, at: u64, outcome: &Outcome) -> Result<(), NoMemory>
    ensures { OnOk result (text.new.items ≡ text.old.items ++ line_text (line.Answer at outcome.now)) }
{
    let mut row = Row::new();
    row.word(b"\n");
    row.outcome(outcome);
    row.word(b" ");
    row.number(at);
    row.word(b"answer ");
    text.extend_from_slice(row.as_slice())
}

/// Puts a node's id, a client, and the number of its command or its read, each with a space behind it, before
/// the row.
fn put_asked(row: &mut Row, pid: Pid, client: u64, seq: u64)
    requires { length row.old + ASKED_BYTES ≤ ROW_BYTES }
    ensures put { row.new ≡ asked_text pid client seq ++ row.old }
    ensures longer { length row.new ≤ length row.old + ASKED_BYTES }
{
    row.word(b" ");
    row.number(seq);
    row.word(b" ");
    row.number(client);
    row.word(b" ");
    row.number(u64::from(pid));
}

/// Appends the line of what a client's command or its read was answered, which begins with this name.
#[inline(always)]
fn put_answer_line(
    text: &mut Vec<u8>,
    name: &[u8],
    pid: Pid,
    client: u64,
    seq: u64,
    answer: &Answer,
) -> Result<(), NoMemory>
    requires { length name.now + ASKED_BYTES ≤ ROW_BYTES }
    ensures { OnOk result (text.new.items
        ≡ text.old.items ++ name.now ++ asked_text pid client seq ++ answer_text answer.now ++ codes "\n") }
{
    let mut row = Row::new();
    put_asked(&mut row, pid, client, seq);
    row.word(name);
    text.extend_from_slice(row.as_slice())?;
    put_answer(text, answer)?;
    text.push(b'\n')?;
    Ok(())
}

/// Appends the line of a proposal that was given up.
fn put_cause_line(
    text: &mut Vec<u8>,
    pid: Pid,
    client: u64,
    seq: u64,
    cause: &Cause,
) -> Result<(), NoMemory>
    ensures { OnOk result (text.new.items
        ≡ text.old.items ++ line_text (line.Dropped pid client seq cause.now)) }
{
    let mut row = Row::new();
    put_asked(&mut row, pid, client, seq);
    row.word(b"dropped ");
    text.extend_from_slice(row.as_slice())?;
    put_cause(text, cause)?;
    text.push(b'\n')?;
    Ok(())
}

/// Appends the line of a key and its value.
fn put_pair(text: &mut Vec<u8>, pid: Pid, key: &Blob, value: &Blob) -> Result<(), NoMemory>
    ensures { OnOk result (text.new.items ≡ text.old.items ++ line_text (line.Pair pid key.now value.now)) }
{
    text.extend_from_slice(b"pair ")?;
    put_spaced(text, u64::from(pid))?;
    put_encoded(text, key.as_slice())?;
    text.push(b' ')?;
    put_encoded(text, value.as_slice())?;
    text.push(b'\n')?;
    Ok(())
}

/// Appends a word of a line, and a ballot.
fn put_named_ballot(text: &mut Vec<u8>, name: &[u8], ballot: &Ballot) -> Result<(), NoMemory>
    ensures { OnOk result (text.new.items ≡ text.old.items ++ name.now ++ ballot_text ballot.now) }
{
    text.extend_from_slice(name)?;
    put_ballot(text, ballot)
}

/// Appends the line of a node's ballots.
fn put_ballots(
    text: &mut Vec<u8>,
    pid: Pid,
    own: &Ballot,
    leader: &Ballot,
    promised: &Ballot,
) -> Result<(), NoMemory>
    ensures { OnOk result (text.new.items
        ≡ text.old.items ++ line_text (line.Ballots pid own.now leader.now promised.now)) }
{
    put_named(text, b"ballots ", u64::from(pid))?;
    put_named_ballot(text, b" own ", own)?;
    put_named_ballot(text, b" leader ", leader)?;
    put_named_ballot(text, b" promised ", promised)?;
    text.push(b'\n')?;
    Ok(())
}
