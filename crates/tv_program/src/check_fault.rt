//! Why no certificate was written.

ghost use Rattle.std.specs.Prelude.{◌≡◌};
ghost use Rattle.tv_program.specs.declared.check_fault.CheckFault.TheVariants.{NoMemory, Write};
ghost use Rattle.tv_program.specs.Conversions.{desc_checked, lang_checked};

use std::alloc::AllocError;
use tv_check::DescFault;
use tv_io::WriteFailed;
use tv_lang::LangFault;
use tv_model::{Fault, Sequence};

/// Why a description wasn't checked to its end.
#[derive(Debug, Drop)]
pub enum CheckFault {
    NoMemory,
    /// The description is not spelled right.
    Lang(LangFault),
    /// The faults of a description that is spelled right, by number and then by line.
    Faults(Sequence<Fault>),
    /// The writer failed, or took nothing.
    Write,
}

impl From<AllocError> for CheckFault {
    ghost from_gives = { λ _ fault. fault ≡ NoMemory };

    fn from(_error: AllocError) -> CheckFault {
        CheckFault::NoMemory
    }
}

impl From<LangFault> for CheckFault {
    ghost from_gives = { λ unread fault. fault ≡ lang_checked unread };

    fn from(unread: LangFault) -> CheckFault {
        match unread {
            LangFault::NoMemory => CheckFault::NoMemory,
            _ => CheckFault::Lang(unread),
        }
    }
}

impl From<DescFault> for CheckFault {
    ghost from_gives = { λ faulty fault. fault ≡ desc_checked faulty };

    fn from(faulty: DescFault) -> CheckFault {
        match faulty {
            DescFault::NoMemory => CheckFault::NoMemory,
            DescFault::Faults(list) => CheckFault::Faults(list),
        }
    }
}

impl From<WriteFailed> for CheckFault {
    ghost from_gives = { λ _ fault. fault ≡ Write };

    fn from(_failed: WriteFailed) -> CheckFault {
        CheckFault::Write
    }
}
