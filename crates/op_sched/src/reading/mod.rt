//! A schedule, read from its text.
ghost use Rattle.std.specs.Prelude.{◌≡◌, false, [], ◌+◌, ◌<◌, ◌^◌, length, IfOk};
ghost use Rattle.op_sched.specs.Failing.{IfBadLine};
ghost use Rattle.op_sched.specs.Forms.{Adds};
ghost use Rattle.op_text.specs.Found.{IsFound};
ghost use Rattle.op_sched.specs.Grammar.{numbered_lines, IsHeader, IsSpareLine, IsObserverLine, IsEventLine, AreEvents};
ghost use Rattle.op_sched.specs.Grammar.{AreAfterObservers, AreAfterSpares, AreAfterHeader, IsSchedule};
ghost use Rattle.op_sched.specs.Grammar.{IsFirstBadEvent, IsFirstBadAfterObservers, IsFirstBadAfterSpares, IsFirstBadAfter, IsFirstBadLine};
ghost use Rattle.op_sched.specs.Courses.{course_in};

mod adding;
mod calls;
mod forms;
mod lines;
mod operations;
mod reads;
mod words;

use crate::schedule::{SchedFail, Schedule};
use adding::add_event;
use lines::{NumberedLine, next_numbered};
use op_runs::{Event, Events};
use op_text::is_name;
use op_types::{Members, NoMemory};
use std::alloc::Global;
use words::{MOST_WORDS, Words, split_words};

/// The schedule that a text says. `BadLine` names the first line that isn't in the grammar, and `NoMemory`
/// comes only where the allocator has none.
pub fn read(alloc: Global, text: &[u8]) -> Result<Schedule, SchedFail>
    ensures found { IfOk result (λ s. IsSchedule text.now s) }
    ensures bad { IfBadLine result (IsFirstBadLine text.now) }
{
    let header = match next_numbered(1, text) {
        Ok(header) => header,
        Err(end) => return Err(SchedFail::BadLine { line: end }),
    };
    let Some(members) = members(header.line)? else {
        return Err(SchedFail::BadLine {
            line: header.number,
        });
    };
    let (spares, course) = after_header(alloc, &members, header.number + 1, header.after)?;
    Ok(Schedule {
        members,
        spares,
        observers: course.observers,
        is_mirrored: course.is_mirrored,
        events: course.events,
    })
}

/// The members that a header line names.
fn members(line: &[u8]) -> Result<Option<Members>, NoMemory>
    ensures { IfOk result (IsFound (IsHeader line.now)) }
{
    let mut words: Words = [&[]; MOST_WORDS];
    let count = split_words(&mut words, line);
    forms::members(&words[..count])
}

/// What the lines after the members and the spares say.
#[derive(Drop)]
struct Course {
    /// The observers.
    observers: Members,
    /// Whether the nodes' disks are mirrored.
    is_mirrored: bool,
    /// What happens, in the order of the lines.
    events: Events,
}

/// The spares, and what comes after them, behind a header with these members, of a text whose first line has
/// this number.
#[tactic(none)]
fn after_header(
    alloc: Global,
    members: &Members,
    number: u64,
    text: &[u8],
) -> Result<(Members, Course), SchedFail>
    requires fits { number + length text.now < 2 ^ 64 }
    ensures found { IfOk result (λ x.
        AreAfterHeader members.now (numbered_lines number text.now) x.0 (course_in x.1)) }
    ensures bad { IfBadLine result (IsFirstBadAfter members.now (numbered_lines number text.now)) }
{
    let Ok(next) = next_numbered(number, text) else {
        return Ok((Members::new(), no_course(alloc)));
    };
    match spares(members, next.line)? {
        Some(spares) => {
            let course = after_spares(alloc, members, &spares, next.number + 1, next.after)?;
            Ok((spares, course))
        }
        None => {
            let spares = Members::new();
            let course = after_spares(alloc, members, &spares, number, text)?;
            Ok((spares, course))
        }
    }
}

/// The spares that a line names, beside these members.
fn spares(members: &Members, line: &[u8]) -> Result<Option<Members>, NoMemory>
    ensures { IfOk result (IsFound (IsSpareLine members.now line.now)) }
{
    let mut words: Words = [&[]; MOST_WORDS];
    let count = split_words(&mut words, line);
    forms::spares(&words[..count], members)
}

/// The observers, and what comes after them, behind these members and spares, of a text whose first line has
/// this number.
#[tactic(none)]
fn after_spares(
    alloc: Global,
    members: &Members,
    spares: &Members,
    number: u64,
    text: &[u8],
) -> Result<Course, SchedFail>
    requires fits { number + length text.now < 2 ^ 64 }
    ensures found { IfOk result (λ x.
        AreAfterSpares members.now spares.now (numbered_lines number text.now) (course_in x)) }
    ensures bad { IfBadLine result
        (IsFirstBadAfterSpares members.now spares.now (numbered_lines number text.now)) }
{
    let Ok(next) = next_numbered(number, text) else {
        return Ok(no_course(alloc));
    };
    match observers(members, spares, next.line)? {
        Some(observers) => after_observers(alloc, observers, next.number + 1, next.after),
        None => after_observers(alloc, Members::new(), number, text),
    }
}

/// The observers that a line names, beside these members and spares.
fn observers(members: &Members, spares: &Members, line: &[u8]) -> Result<Option<Members>, NoMemory>
    ensures { IfOk result (IsFound (IsObserverLine members.now spares.now line.now)) }
{
    let mut words: Words = [&[]; MOST_WORDS];
    let count = split_words(&mut words, line);
    forms::observers(&words[..count], members, spares)
}

/// Behind these observers, whether the disks are mirrored, which a first line says, and the events, of a text
/// whose first line has this number.
fn after_observers(
    alloc: Global,
    observers: Members,
    number: u64,
    text: &[u8],
) -> Result<Course, SchedFail>
    requires fits { number + length text.now < 2 ^ 64 }
    ensures observers { IfOk result (λ x. x.observers ≡ observers) }
    ensures found { IfOk result (λ x.
        AreAfterObservers (numbered_lines number text.now) x.is_mirrored x.events) }
    ensures bad { IfBadLine result (IsFirstBadAfterObservers (numbered_lines number text.now)) }
{
    let Ok(next) = next_numbered(number, text) else {
        return Ok(Course {
            observers,
            is_mirrored: false,
            events: Events::new(alloc),
        });
    };
    if is_name(next.line, b"mirror") {
        Ok(Course {
            observers,
            is_mirrored: true,
            events: events(alloc, true, next.number + 1, next.after)?,
        })
    } else {
        Ok(Course {
            observers,
            is_mirrored: false,
            events: events(alloc, false, number, text)?,
        })
    }
}

/// What no lines say.
fn no_course(alloc: Global) -> Course
    ensures { result ≡ record { observers = []; is_mirrored = false; events = [] } }
{
    Course {
        observers: Members::new(),
        is_mirrored: false,
        events: Events::new(alloc),
    }
}

/// The events of a text whose first line has this number, at nodes whose disks are mirrored or not.
fn events(alloc: Global, is_mirrored: bool, number: u64, text: &[u8]) -> Result<Events, SchedFail>
    requires fits { number + length text.now < 2 ^ 64 }
    ensures found { IfOk result (λ events. AreEvents is_mirrored (numbered_lines number text.now) events) }
    ensures bad { IfBadLine result (IsFirstBadEvent is_mirrored (numbered_lines number text.now)) }
{
    let mut events = Vec::new(alloc);
    let mut words: Words = [&[]; MOST_WORDS];
    let mut at = number;
    let mut rest = text;
    while let Ok(next) = next_numbered(at, rest) {
        if !event(&mut events, alloc, is_mirrored, &mut words, &next)? {
            return Err(SchedFail::BadLine { line: next.number });
        }
        at = next.number + 1;
        rest = next.after;
    }
    Ok(Events::from_vec(events))
}

/// Adds the event that a line says, at nodes whose disks are mirrored or not, and returns whether it says
/// one. Its words take the place of those that stand here.
fn event<'a>(
    events: &mut Vec<Event>,
    alloc: Global,
    is_mirrored: bool,
    words: &mut Words<'a>,
    next: &NumberedLine<'a>,
) -> Result<bool, NoMemory>
    ensures { IfOk result (Adds (IsEventLine is_mirrored next.now.line.now)
        next.now.number events.old.items events.new.items) }
{
    let count = split_words(words, next.line);
    add_event(events, alloc, is_mirrored, next.number, &words[..count])
}
