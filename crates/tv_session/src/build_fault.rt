//! Why no views were put together.

use std::alloc::{AllocError, AllocFailed};
use thiserror::Error;

/// Why no views were put together.
#[derive(Clone, Copy, Debug, PartialEq, Eq, Error)]
pub enum BuildFault {
    #[error("out of memory")]
    NoMemory,
    /// The steps are no plan: something ends or is added where nothing is begun, stands where it can't, or didn't end.
    #[error("the steps are no plan")]
    WrongPlan,
}

impl From<AllocError> for BuildFault {
    ghost use Rattle.std.specs.Prelude.{◌≡◌};
    ghost use Rattle.tv_session.specs.declared.build_fault.BuildFault.TheVariants.{NoMemory};

    ghost from_gives = { λ _ fault. fault ≡ NoMemory };

    fn from(_error: AllocError) -> BuildFault {
        BuildFault::NoMemory
    }
}

impl<T: Drop> From<AllocFailed<T>> for BuildFault {
    ghost use Rattle.std.specs.Prelude.{◌≡◌};
    ghost use Rattle.tv_session.specs.declared.build_fault.BuildFault.TheVariants.{NoMemory};

    ghost from_gives = { λ _ fault. fault ≡ NoMemory };

    fn from(_failed: AllocFailed<T>) -> BuildFault {
        BuildFault::NoMemory
    }
}
