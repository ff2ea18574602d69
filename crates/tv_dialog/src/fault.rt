//! Why there is no dialog.

use std::alloc::AllocError;
use thiserror::Error;

/// Why no dialog was made of a node.
#[derive(Clone, Copy, Debug, Drop, PartialEq, Eq, Error)]
pub enum DialogFault {
    #[error("no memory")]
    NoMemory,
    #[error("the node is of another kind")]
    WrongKind,
}

impl From<AllocError> for DialogFault {
    ghost use Rattle.std.specs.Prelude.{◌≡◌};
    ghost use Rattle.tv_dialog.specs.declared.fault.DialogFault.TheVariants.{NoMemory};

    ghost from_gives = { λ _ fault. fault ≡ NoMemory };

    fn from(_error: AllocError) -> DialogFault {
        DialogFault::NoMemory
    }
}
