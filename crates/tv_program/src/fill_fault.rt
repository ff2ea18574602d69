//! Why a description wasn't filled with answers.

ghost use Rattle.std.specs.Prelude.{◌≡◌};
ghost use Rattle.tv_program.specs.declared.fill_fault.FillFault.TheVariants.{NoMemory, Write};
ghost use Rattle.tv_program.specs.FillFaults.{answers_filled, lang_filled};

use std::alloc::AllocError;
use tv_answers::AnswersFault;
use tv_io::WriteFailed;
use tv_lang::LangFault;
use tv_model::{Fault, Sequence};

/// Why a description wasn't filled with answers.
#[derive(Debug, Drop)]
pub enum FillFault {
    NoMemory,
    /// The description is not spelled right, or it is too long when it is filled.
    Lang(LangFault),
    /// The faults of a description that is spelled right, by number and then by line.
    Faults(Sequence<Fault>),
    /// The answers are not spelled right.
    Answers(AnswersFault),
    /// The writer failed, or took nothing.
    Write,
}

impl From<AllocError> for FillFault {
    ghost from_gives = { λ _ fault. fault ≡ NoMemory };

    fn from(_error: AllocError) -> FillFault {
        FillFault::NoMemory
    }
}

impl From<LangFault> for FillFault {
    ghost from_gives = { λ unread fault. fault ≡ lang_filled unread };

    fn from(unread: LangFault) -> FillFault {
        match unread {
            LangFault::NoMemory => FillFault::NoMemory,
            _ => FillFault::Lang(unread),
        }
    }
}

impl From<AnswersFault> for FillFault {
    ghost from_gives = { λ unread fault. fault ≡ answers_filled unread };

    fn from(unread: AnswersFault) -> FillFault {
        match unread {
            AnswersFault::NoMemory => FillFault::NoMemory,
            _ => FillFault::Answers(unread),
        }
    }
}

impl From<WriteFailed> for FillFault {
    ghost from_gives = { λ _ fault. fault ≡ Write };

    fn from(_failed: WriteFailed) -> FillFault {
        FillFault::Write
    }
}
