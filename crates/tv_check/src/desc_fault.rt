//! Why a description isn't known to be sound.

use std::alloc::AllocError;
use thiserror::Error;
use tv_model::{Fault, Sequence};

/// What the search for faults answers where a description has some, or where memory ran out.
#[derive(Debug, Drop, Error)]
pub enum DescFault {
    #[error("out of memory")]
    NoMemory,
    /// All faults, by number and then by line.
    #[error("the description has faults")]
    Faults(Sequence<Fault>),
}

impl From<AllocError> for DescFault {
    ghost use Rattle.std.specs.Prelude.{◌≡◌};
    ghost use Rattle.tv_check.specs.declared.desc_fault.DescFault.TheVariants.{NoMemory};

    ghost from_gives = { λ _ fault. fault ≡ NoMemory };

    fn from(_error: AllocError) -> DescFault {
        DescFault::NoMemory
    }
}
