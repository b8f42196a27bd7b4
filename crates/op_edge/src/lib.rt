//! The real things outside the program: streams, files, sockets, the clock and child programs. Bytes are
//! handed on as they are, and failures are counted.
#![tactic(auto)]

mod arguments;
mod copied;
mod faults;
mod file_disk;
mod folders;
mod input;
mod lazy_file;
mod limits;
mod log;
mod mio_net;
mod monotonic_clock;
mod notes;
mod options;
mod output;
mod peer;
mod poller;
mod programs;
mod settings_lines;
mod sockets;
mod watched;

pub use arguments::words;
pub use file_disk::FileDisk;
pub use input::Input;
pub use limits::Limits;
pub use log::Log;
pub use mio_net::MioNet;
pub use monotonic_clock::MonotonicClock;
pub use output::Output;
pub use programs::{IDENTITY_FILE, Programs};
pub use watched::Watched;

/// How often a call is tried that a signal cuts short.
const TRIES: u32 = 1000;
