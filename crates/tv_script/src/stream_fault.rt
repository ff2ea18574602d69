//! Why a script that is read in pieces was left.

ghost use Rattle.std.specs.Prelude.{◌≡◌};
ghost use Rattle.tv_script.specs.declared.stream_fault.StreamFault.TheVariants.{NoMemory};
ghost use Rattle.tv_script.specs.Streams.{stream_fault};

use crate::script_text::ScriptFault;
use std::alloc::AllocError;
use thiserror::Error;

/// Why a script that is read in pieces was left before its end. Lines count from 1.
#[derive(Clone, Copy, Debug, PartialEq, Eq, Error)]
pub enum StreamFault {
    #[error("out of memory")]
    NoMemory,
    /// The line is none of a script.
    #[error("line {0} is none of a script")]
    Syntax(usize),
    /// The line's point is not on the screen.
    #[error("the point of line {0} is not on the screen")]
    OffScreen(usize),
    /// More than 1,048,576 bytes came, or a line with which there are more than 100,000 items.
    #[error("the script is too long")]
    TooLong,
    /// The reader failed.
    #[error("cannot read")]
    Read,
    /// The writer failed, or took nothing, when so many items were begun.
    #[error("cannot write, at item {0}")]
    Write(usize),
}

impl From<AllocError> for StreamFault {
    ghost from_gives = { λ _ e. e ≡ NoMemory };

    fn from(_error: AllocError) -> StreamFault {
        StreamFault::NoMemory
    }
}

impl From<ScriptFault> for StreamFault {
    ghost from_gives = { λ fault e. e ≡ stream_fault fault };

    fn from(fault: ScriptFault) -> StreamFault {
        match fault {
            ScriptFault::NoMemory => StreamFault::NoMemory,
            ScriptFault::Syntax(line) => StreamFault::Syntax(line),
            ScriptFault::OffScreen(line) => StreamFault::OffScreen(line),
            ScriptFault::TooLong => StreamFault::TooLong,
        }
    }
}
