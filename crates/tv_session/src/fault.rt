//! Why a session wasn't made.

use std::alloc::AllocError;
use thiserror::Error;

/// Why a session wasn't made.
#[derive(Clone, Copy, Debug, PartialEq, Eq, Error)]
pub enum SessionFault {
    #[error("out of memory")]
    NoMemory,
    /// The first view, counted from 1, windows before bodies, that doesn't stand as the description declares it, is missing or
    /// is one too many.
    #[error("view {0} is not as it is declared")]
    ViewMismatch(usize),
}

impl From<AllocError> for SessionFault {
    ghost use Rattle.std.specs.Prelude.{◌≡◌};
    ghost use Rattle.tv_session.specs.declared.fault.SessionFault.TheVariants.{NoMemory};

    ghost from_gives = { λ _ fault. fault ≡ NoMemory };

    fn from(_error: AllocError) -> SessionFault {
        SessionFault::NoMemory
    }
}
