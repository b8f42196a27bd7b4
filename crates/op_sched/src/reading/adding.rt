//! Events, added as their lines are read.
ghost use Rattle.std.specs.Prelude.{◌≡◌, ◌∷◌, map, IfOk};
ghost use Rattle.op_sched.specs.Forms.{Adds, op_form_name, form_name};
ghost use Rattle.op_sched.specs.Grammar.{AreWordsOf, SuitsDisks};

use crate::reading::calls::suits_disks;
use crate::reading::forms::{Form, command, event_of, form_of};
use crate::reading::operations::OpForm;
use op_runs::{Event, What};
use op_types::NoMemory;
use std::alloc::Global;

/// Adds the event that the words of a line say, at nodes whose disks are mirrored or not, and returns whether
/// they say one.
pub fn add_event(
    events: &mut Vec<Event>,
    alloc: Global,
    is_mirrored: bool,
    line: u64,
    words: &[&[u8]],
) -> Result<bool, NoMemory>
    ensures { IfOk result (Adds
        (λ w. AreWordsOf (map (λ x. x.now) words.now) w × SuitsDisks is_mirrored w)
        line events.old.items events.new.items) }
{
    let Some((name, words)) = words.split_first() else {
        return Ok(false);
    };
    match form_of(name) {
        // Most lines are commands: these are added apart from the others, whose results take room and time.
        Some(Form::Command(op)) => add_command(events, alloc, op, line, words),
        Some(form) => add_other(events, alloc, is_mirrored, form, line, words),
        None => Ok(false),
    }
}

/// Adds the command that the words after an operation's name say.
fn add_command(
    events: &mut Vec<Event>,
    alloc: Global,
    form: OpForm,
    line: u64,
    words: &[&[u8]],
) -> Result<bool, NoMemory>
    ensures { IfOk result (Adds
        (AreWordsOf (op_form_name form ∷ map (λ x. x.now) words.now))
        line events.old.items events.new.items) }
{
    let Some((id, commands)) = command(alloc, form, words)? else {
        return Ok(false);
    };
    events.reserve(1)?;
    events.push_reserved(Event {
        line,
        what: What::Commands(id, commands),
    });
    Ok(true)
}

/// Adds the event that the words after the name of a form say, and that suits the nodes' disks.
#[inline(never)]
fn add_other(
    events: &mut Vec<Event>,
    alloc: Global,
    is_mirrored: bool,
    form: Form,
    line: u64,
    words: &[&[u8]],
) -> Result<bool, NoMemory>
    ensures { IfOk result (Adds
        (λ w. AreWordsOf (form_name form ∷ map (λ x. x.now) words.now) w × SuitsDisks is_mirrored w)
        line events.old.items events.new.items) }
{
    match event_of(alloc, form, words)? {
        Some(what) if suits_disks(is_mirrored, &what) => {
            events.push(Event { line, what })?;
            Ok(true)
        }
        _ => Ok(false),
    }
}
