ghost use Rattle.std.specs.Prelude.{◌≡◌, None};

use crate::faults::counted;
use crate::folders::sync_folder_of;
use crate::log::Log;
use op_outside::{ChildFail, Spawner};
use op_setup::{identity_text, settings};
use std::alloc::Global;
use std::collections::BTreeMap;
use std::collections::btree_map::Entry;
use std::fs::{self, OpenFile, OpenOptions};
use std::io::{self, ErrorKind, Write};
use std::os::unix::process::ExitStatusExt;
use std::path::{Path, PathBuf};
use std::process::{Child, Command, ExitStatus, OpenProcess, Processes, Stdio};
use std::rt::Files;
use std::time::{Clock, Duration};

/// A program that runs, or has ended.
#[derive(Drop)]
struct Running<P: OpenProcess + Drop> {
    child: Child<P>,
    /// Whether it was seen that it has ended, or that it can't be seen.
    is_over: bool,
}

impl<P: OpenProcess + Drop> Running<P> {
    /// How it ended, where that wasn't seen before.
    fn newly_ended(&mut self) -> Option<ExitStatus> {
        if self.is_over {
            return None;
        }
        let answer = self.child.try_wait();
        self.is_over = !matches!(&answer, Ok(None));
        answer.ok().flatten()
    }
}

/// How long to wait before it is looked again whether a program has ended, in milliseconds.
const LOOK_AGAIN_MILLIS: u64 = 50;

/// The status of a program that a signal ended is this and the signal's number.
const KILLED: i32 = 128;

/// The file of a node's folder that says whose it is.
pub const IDENTITY_FILE: &str = "omni.id";

/// A program that is run as `PROGRAM node ID`, in the folder `nID` of the current folder, which is made where
/// it is absent: then it is told whose it is, by its file `omni.id`, where the settings that a start gives
/// name their cluster. Its standard input is these settings, and its standard output goes nowhere. Calls are
/// not told.
#[derive(Drop)]
pub struct Programs<R: Processes + Files + Clock + Eprint + Alloc<A = Global> + Drop> {
    rt: R,
    program: Option<PathBuf>,
    running: BTreeMap<u32, Running<R::Started>>,
    log: Log,
    faults: u64,
}

impl<R: Processes + Files + Clock + Eprint + Alloc<A = Global> + Drop> Programs<R> {
    /// Runs the program at this path. Where the path could not be read, each start fails.
    pub fn new(rt: R, program: io::Result<PathBuf>) -> Self
        ensures { ⟦<Programs<R> as Spawner>⟧.fault_count result ≡ 0 }
    {
        let running = BTreeMap::new(rt.alloc());
        Programs {
            rt,
            program: program.ok(),
            running,
            log: Log::off(),
            faults: 0,
        }
    }

    /// The same, which tells of starts and ends by these lines.
    pub fn telling(mut self, log: Log) -> Self
        ensures { ⟦<Programs<R> as Spawner>⟧.fault_count result
            ≡ ⟦<Programs<R> as Spawner>⟧.fault_count self }
    {
        self.log = log;
        self
    }
}

impl<R: Processes + Files + Clock + Eprint + Alloc<A = Global> + Drop> Spawner for Programs<R> {
    ghost told = { λ _. None };

    ghost fault_count = { λ p. p.faults };

    fn faults(&self) -> u64 {
        self.faults
    }

    /// It fails too where a program of this id runs. A start that failed leaves nothing running.
    fn start(&mut self, id: u32, input: &[u8]) -> Result<(), ChildFail> {
        let answer = start(&self.rt, &self.program, &mut self.running, id, input);
        match &answer {
            Ok(()) => self
                .log
                .tell(&self.rt, format_args!("node {id} is started")),
            Err(error) => self
                .log
                .tell(&self.rt, format_args!("can't start node {id}: {error}")),
        }
        counted(&mut self.faults, answer, ChildFail)
    }

    /// Of a program that a signal ended the status is 128 and the signal's number, as a shell has it.
    fn end(&mut self, id: u32) -> Result<u8, ChildFail> {
        watch(&self.rt, self.log, &mut self.running, id);
        let answer = end(&mut self.running, id);
        counted(&mut self.faults, answer, ChildFail)
    }
}

/// Starts a program, once there is room to keep it.
fn start<R: Processes + Files + Alloc<A = Global>>(
    rt: &R,
    program: &Option<PathBuf>,
    running: &mut BTreeMap<u32, Running<R::Started>>,
    id: u32,
    input: &[u8],
) -> io::Result<()> {
    let Some(program) = program else {
        return Err(ErrorKind::NotFound.into());
    };
    match running.entry(id)? {
        Entry::Occupied(_) => Err(ErrorKind::AlreadyExists.into()),
        Entry::Vacant(place) => {
            let folder = format!(in rt.alloc(); "n{id}")?;
            make_folder(rt, folder.as_str(), id, input)?;
            let mut child = spawn(rt, program, id, folder.as_str())?;
            feed(&mut child, input)?;
            place.insert(Running {
                child,
                is_over: false,
            });
            Ok(())
        }
    }
}

/// The program of an id in this folder, with its input open.
fn spawn<R: Processes + Files + Alloc<A = Global>>(
    rt: &R,
    program: &PathBuf,
    id: u32,
    folder: &str,
) -> io::Result<Child<R::Started>> {
    let alloc = rt.alloc();
    let word = id.to_string(alloc)?;
    let mut command = Command::new(alloc, program.as_path())?;
    command.arg("node")?.arg(word.as_str())?;
    command.current_dir(folder)?;
    command.stdin(Stdio::piped()).stdout(Stdio::null());
    command.spawn(rt)
}

/// Makes the folder of an id where it is absent, tells it then whose it is, and makes its name last.
fn make_folder<R: Files + Alloc<A = Global>>(
    rt: &R,
    folder: &str,
    id: u32,
    settings: &[u8],
) -> io::Result<()> {
    match fs::create_dir(rt, folder) {
        Ok(()) => tell_folder(rt, folder, id, settings)?,
        Err(error) if error.kind() == ErrorKind::AlreadyExists => {}
        Err(error) => return Err(error),
    }
    sync_folder_of(rt, Path::new(folder))
}

/// Tells a folder that it is the node's of this id, where the settings name their cluster.
fn tell_folder<R: Files + Alloc<A = Global>>(
    rt: &R,
    folder: &str,
    id: u32,
    text: &[u8],
) -> io::Result<()> {
    let alloc = rt.alloc();
    let Ok(Some(name)) = settings(alloc, text, Some(id)).map(|found| found.cluster) else {
        return Ok(());
    };
    let line = identity_text(alloc, id, name.as_slice())?;
    let path = format!(in alloc; "{folder}/{IDENTITY_FILE}")?;
    let mut file = OpenOptions::new()
        .write(true)
        .create(true)
        .open(rt, path.as_str())?;
    file.write_all(&line)?;
    file.sync_all()?;
    sync_folder_of(rt, Path::new(path.as_str()))
}

/// Gives a program its input, and closes it. A program that doesn't take it is ended.
fn feed<P: OpenProcess>(child: &mut Child<P>, input: &[u8]) -> io::Result<()> {
    let Some(mut pipe) = child.stdin.take() else {
        return Ok(());
    };
    let given = pipe.write_all(input);
    drop(pipe);
    if given.is_err() {
        child.kill()?;
        child.wait()?;
    }
    given
}

/// Waits until a program has ended, where lines are asked for, and tells meanwhile of each that does.
fn watch<R: Clock + Eprint + Alloc<A = Global>, P: OpenProcess + Drop>(
    rt: &R,
    log: Log,
    running: &mut BTreeMap<u32, Running<P>>,
    id: u32,
) {
    if !log.is_on() {
        return;
    }
    'looks: for _ in 0..u64::MAX {
        look(rt, log, running);
        if running.get(&id).is_none_or(|program| program.is_over) {
            break;
        }
        rt.sleep(Duration::from_millis(LOOK_AGAIN_MILLIS));
    }
}

/// Tells of each program that has ended since it was looked last.
fn look<R: Clock + Eprint + Alloc<A = Global>, P: OpenProcess + Drop>(
    rt: &R,
    log: Log,
    running: &mut BTreeMap<u32, Running<P>>,
) {
    for (id, program) in running {
        if let Some(status) = program.newly_ended() {
            tell_end(rt, log, *id, status);
        }
    }
}

/// Waits for the end of a program, and gives its exit status.
fn end<P: OpenProcess + Drop>(running: &mut BTreeMap<u32, Running<P>>, id: u32) -> io::Result<u8> {
    let Some(mut program) = running.remove(&id) else {
        return Err(ErrorKind::NotFound.into());
    };
    status_of(program.child.wait()?).ok_or(ErrorKind::Other.into())
}

/// The exit status of a program, or 128 and the number of the signal that ended it.
fn status_of(status: ExitStatus) -> Option<u8> {
    let number = match (status.code(), status.signal()) {
        (Some(code), _) => code,
        (None, Some(signal)) => signal.checked_add(KILLED)?,
        (None, None) => return None,
    };
    u8::try_from(number).ok()
}

/// Tells how a program ended.
fn tell_end<R: Clock + Eprint + Alloc<A = Global>>(rt: &R, log: Log, id: u32, status: ExitStatus) {
    match (status.code(), status.signal()) {
        (_, Some(signal)) => log.tell(rt, format_args!("node {id} was ended by signal {signal}")),
        (Some(code), None) => log.tell(rt, format_args!("node {id} has ended with status {code}")),
        (None, None) => {}
    }
}
