//! Why there is no control.

use std::alloc::AllocError;
use thiserror::Error;

/// Why no control was made of a node.
#[derive(Clone, Copy, Debug, Drop, PartialEq, Eq, Error)]
pub enum ControlFault {
    #[error("no memory")]
    NoMemory,
    #[error("the node is of another kind")]
    WrongKind,
}

impl From<AllocError> for ControlFault {
    ghost use Rattle.std.specs.Prelude.{◌≡◌};
    ghost use Rattle.tv_view.specs.declared.fault.ControlFault.TheVariants.{NoMemory};

    ghost from_gives = { λ _ fault. fault ≡ NoMemory };

    fn from(_error: AllocError) -> ControlFault {
        ControlFault::NoMemory
    }
}
