//! Why a description's text wasn't opened.

ghost use Rattle.std.specs.Prelude.{◌≡◌};
ghost use Rattle.tv_app.specs.Opening.{faulty_opened, unread_opened};
ghost use Rattle.tv_app.specs.declared.fault.OpenFault.TheVariants.{NoMemory};

use std::alloc::AllocError;
use thiserror::Error;
use tv_check::DescFault;
use tv_lang::LangFault;
use tv_model::{Fault, Sequence};

/// Why a description's text wasn't opened.
#[derive(Debug, Drop, Error)]
pub enum OpenFault {
    #[error("out of memory")]
    NoMemory,
    /// The text is not spelled right.
    #[error("{0}")]
    Lang(LangFault),
    /// The faults of a description that is spelled right, by number and then by line.
    #[error("the description has faults")]
    Faults(Sequence<Fault>),
}

impl From<AllocError> for OpenFault {
    ghost from_gives = { λ _ fault. fault ≡ NoMemory };

    fn from(_error: AllocError) -> OpenFault {
        OpenFault::NoMemory
    }
}

impl From<LangFault> for OpenFault {
    ghost from_gives = { λ unread fault. fault ≡ unread_opened unread };

    fn from(unread: LangFault) -> OpenFault {
        match unread {
            LangFault::NoMemory => OpenFault::NoMemory,
            _ => OpenFault::Lang(unread),
        }
    }
}

impl From<DescFault> for OpenFault {
    ghost from_gives = { λ faulty fault. fault ≡ faulty_opened faulty };

    fn from(faulty: DescFault) -> OpenFault {
        match faulty {
            DescFault::NoMemory => OpenFault::NoMemory,
            DescFault::Faults(list) => OpenFault::Faults(list),
        }
    }
}
