//! Lines for who runs the program.

use jiff::Timestamp;
use std::alloc::{AllocError, Global};
use std::env;
use std::fmt::Display;
use std::rt::Env;
use std::time::Clock;

/// Lines on standard error that tell what happens, each with its moment, where they are asked for. No
/// contract speaks of them.
#[derive(Clone, Copy)]
pub struct Log {
    is_on: bool,
    /// Whose they are, if they are a node's.
    node: Option<u32>,
}

impl Log {
    /// No lines.
    pub fn off() -> Log {
        Log {
            is_on: false,
            node: None,
        }
    }

    /// Lines, if the environment has `OMNI_LOG=1`, for a process of these words.
    pub fn of_process<R: Env + Alloc<A = Global>>(rt: &R, words: &[String]) -> Log {
        match env::var(rt, "OMNI_LOG") {
            Ok(value) => Log {
                is_on: value.as_str() == "1",
                node: node_of(words),
            },
            Err(_) => Log::off(),
        }
    }

    /// The same, if settings are the input of a process of these words, and else no lines.
    pub fn of_settings(self, words: &[String]) -> Log {
        match words.first() {
            Some(word) if word.as_str() == "node" || word.as_str() == "cluster" => self,
            _ => Log::off(),
        }
    }

    /// Whether lines are asked for.
    pub(crate) fn is_on(self) -> bool {
        self.is_on
    }

    /// Writes a line. It is lost where there is no memory for it, or standard error doesn't take it.
    pub(crate) fn tell<R: Clock + Eprint + Alloc<A = Global>, D: Display + Drop>(
        self,
        rt: &R,
        what: D,
    ) {
        if !self.is_on {
            return;
        }
        if let Ok(line) = self.line(rt, what) {
            let _ = rt.eprint(line.as_str());
        }
    }

    fn line<R: Clock + Alloc<A = Global>, D: Display + Drop>(
        self,
        rt: &R,
        what: D,
    ) -> Result<String, AllocError> {
        let alloc = rt.alloc();
        let moment = moment(rt);
        match self.node {
            Some(id) => format!(in alloc; "{moment} node {id}: {what}\n"),
            None => format!(in alloc; "{moment} {what}\n"),
        }
    }

    /// The milliseconds since some moment, where lines are asked for and the system tells the time.
    pub(crate) fn millis<R: Clock>(self, rt: &R) -> Option<u64> {
        if !self.is_on {
            return None;
        }
        let now = rt.monotonic().ok()?;
        u64::try_from(now.as_millis()).ok()
    }
}

/// The node as which these words serve.
fn node_of(words: &[String]) -> Option<u32> {
    let [command, id] = words else {
        return None;
    };
    if command.as_str() != "node" {
        return None;
    }
    id.as_str().parse::<u32>().ok()
}

/// The time in seconds, in UTC; 1970 where the system doesn't tell it.
fn moment<R: Clock>(rt: &R) -> Timestamp {
    let seconds = rt.since_1970().map(|since| since.as_secs()).unwrap_or(0);
    let seconds = i64::try_from(seconds).unwrap_or(0);
    Timestamp::from_second(seconds).unwrap_or(Timestamp::UNIX_EPOCH)
}
