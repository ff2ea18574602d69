//! Why a run in a terminal ended.

use thiserror::Error;

/// Why a run in a terminal ended.
#[derive(Clone, Copy, Debug, PartialEq, Eq)]
pub enum Parting {
    /// By itself: the run was quit, or nothing can happen any more.
    Over,
    /// The user left it.
    Left,
    /// Nothing more comes from the user.
    Ended,
}

/// Why a run in a terminal was broken off.
#[derive(Clone, Copy, Debug, PartialEq, Eq, Error)]
pub enum PlayFault {
    /// There was no memory to begin it.
    #[error("out of memory")]
    NoMemory,
    /// What comes from the user can't be read.
    #[error("cannot read")]
    Read,
    /// The log can't be written.
    #[error("cannot write the log")]
    Log,
    /// The screen can't be written.
    #[error("cannot write the screen")]
    Screen,
    /// What the user did can't be recorded.
    #[error("cannot write the tape")]
    Tape,
}
