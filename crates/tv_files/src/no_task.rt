//! Why a command line asks for nothing that can be done.

use std::alloc::AllocError;

/// Why a command line asks for nothing that can be done.
#[derive(Debug, Drop)]
pub enum NoTask {
    NoMemory,
    /// What is wrong with it, or the help that it asks for: the text to tell.
    Usage(String),
}

impl From<AllocError> for NoTask {
    ghost use Rattle.std.specs.Prelude.{◌≡◌};
    ghost use Rattle.tv_files.specs.declared.no_task.NoTask.TheVariants.{NoMemory};

    ghost from_gives = { λ _ fault. fault ≡ NoMemory };

    fn from(_error: AllocError) -> NoTask {
        NoTask::NoMemory
    }
}
