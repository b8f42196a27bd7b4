//! A replicated log. `omni replay` reads a schedule from standard input and writes the report of its run;
//! `omni node ID` serves as a node over sockets and the files `omni.a` and `omni.b` of the current folder,
//! with `omni.c` and `omni.d` as their second copies where it is mirrored, and with `omni.id`, which says
//! whose the folder is, where its settings name the cluster; `omni call ADDR WORD..` asks one; and `omni
//! cluster` runs each node of its settings as a child program.
#![tactic(auto)]

use either::{Left, Right};
use op_edge::{
    FileDisk, IDENTITY_FILE, Input, Limits, Log, MioNet, MonotonicClock, Output, Programs, Watched,
    words,
};
use op_top::{Host, NodeDisks, Status, session};
use std::alloc::AllocError;
use std::env;
use std::path::PathBuf;
use std::process::ExitCode;

/// The files of a node's disks, in the current folder.
const FIRST_DISK: &str = "omni.a";

const SECOND_DISK: &str = "omni.b";

/// The files of their second copies, which a node without mirrors doesn't make.
const FIRST_COPY: &str = "omni.c";

const SECOND_COPY: &str = "omni.d";

fn main(rt: HostRuntime) -> ExitCode {
    let alloc = rt.alloc();
    let words = words(alloc, env::args(&rt));
    let (log, of_settings) = match &words {
        Ok(words) => {
            let log = Log::of_process(&rt, words);
            (log, log.of_settings(words))
        }
        Err(_) => (Log::off(), Log::off()),
    };
    let mut err = Output::new(Right(rt.stderr()));
    let Ok(disks) = disks(&rt, log) else {
        Status::NoMemory.tell(&mut err);
        return ExitCode::from(Status::NoMemory.code());
    };
    let mut host = Host {
        net: MioNet::new(&rt, alloc, MonotonicClock::new(&rt)).set(log, Limits::of_process(&rt)),
        clock: MonotonicClock::new(&rt),
        input: Input::new(Watched::new(&rt, of_settings, rt.stdin())),
        out: Output::new(Left(rt.stdout())),
        err,
        children: Programs::new(&rt, env::current_exe(&rt)).telling(log),
    };
    let ending = session(alloc, words, disks, &mut host);
    ExitCode::from(ending.status.code())
}

/// The files of a node in the current folder.
fn disks(rt: &HostRuntime, log: Log) -> Result<NodeDisks<FileDisk<&HostRuntime>>, AllocError> {
    let path = |name: &str| PathBuf::from_str(rt.alloc(), name);
    Ok(NodeDisks {
        first: FileDisk::first_copy(rt, path(FIRST_DISK)?, path(FIRST_COPY)?).telling(log),
        second: FileDisk::first_copy(rt, path(SECOND_DISK)?, path(SECOND_COPY)?).telling(log),
        first_copy: FileDisk::second_copy(rt, path(FIRST_COPY)?, path(FIRST_DISK)?).telling(log),
        second_copy: FileDisk::second_copy(rt, path(SECOND_COPY)?, path(SECOND_DISK)?).telling(log),
        identity: FileDisk::existing(rt, path(IDENTITY_FILE)?).telling(log),
    })
}
