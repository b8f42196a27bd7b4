//! How many connections are kept, and for how long.

use libc::types::rlimit;
use libc::{RLIMIT_NOFILE, getrlimit};
use std::env;
use std::rt::Env;

/// How many files are kept free for servers and the node's own ones.
const OTHER_FILES: u64 = 128;

/// The fewest clients that may be connected at a time, however few files there are.
const FEWEST_CLIENTS: u64 = 8;

/// How many connections are kept, and for how long. No contract speaks of them: each connection may end at
/// any time.
#[derive(Clone, Copy)]
pub struct Limits {
    /// How many clients may be connected at a time.
    pub most_clients: u64,
    /// How long a client may say nothing, in milliseconds. None: for ever.
    pub idle_millis: Option<u64>,
}

impl Limits {
    /// What the environment says: by `OMNI_MOST_CLIENTS` how many clients, and by `OMNI_IDLE_S` for how many
    /// seconds. Where it doesn't, as many as the process may have files, but 128, which are for the others,
    /// and for ever.
    pub fn of_process<R: Env + Alloc>(rt: &R) -> Limits {
        let limits = Limits::of_files();
        Limits {
            most_clients: number(rt, "OMNI_MOST_CLIENTS").unwrap_or(limits.most_clients),
            idle_millis: number(rt, "OMNI_IDLE_S").map(|seconds| seconds.saturating_mul(1000)),
        }
    }

    /// As many clients as the process may have files, but 128, for ever.
    pub(crate) fn of_files() -> Limits {
        let mut files = rlimit {
            rlim_cur: 0,
            rlim_max: 0,
        };
        let most = if getrlimit(RLIMIT_NOFILE, &mut files) < 0 {
            FEWEST_CLIENTS
        } else {
            files.rlim_cur.saturating_sub(OTHER_FILES)
        };
        Limits {
            most_clients: most.max(FEWEST_CLIENTS),
            idle_millis: None,
        }
    }
}

/// The number that a variable of the environment is.
fn number<R: Env + Alloc>(rt: &R, name: &str) -> Option<u64> {
    let value = env::var(rt, name).ok()?;
    value.as_str().parse::<u64>().ok()
}
