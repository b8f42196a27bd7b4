//! Why no task is found.
ghost use Rattle.std.specs.Prelude.{◌≡◌, ◌↔◌};
ghost use Rattle.clap.specs.Words.{kind_of};
ghost use Rattle.clap.specs.declared.error.kind.ErrorKind.TheVariants.{OutOfMemory};
ghost use Rattle.op_setup.specs.declared.fail.TaskFail.TheVariants.{NoMemory};

use clap::Error;
use clap::error::ErrorKind;
use std::alloc::AllocError;

/// Why words give no task.
#[derive(Clone, Copy, Debug, PartialEq, Eq)]
pub enum TaskFail {
    /// The words are no task's.
    Usage,
    /// The words are a task's, and the allocator has no memory for clap.
    NoMemory,
}

impl From<AllocError> for TaskFail {
    ghost from_gives = { λ _ fail. fail ≡ NoMemory };

    fn from(_error: AllocError) -> TaskFail {
        TaskFail::NoMemory
    }
}

impl From<Error> for TaskFail {
    ghost from_gives = { λ error fail. (fail ≡ NoMemory) ↔ (kind_of error ≡ OutOfMemory) };

    fn from(error: Error) -> TaskFail {
        if error.kind() == ErrorKind::OutOfMemory {
            TaskFail::NoMemory
        } else {
            TaskFail::Usage
        }
    }
}
