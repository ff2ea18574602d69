//! Why a call of the program failed, whichever it was.

ghost use Rattle.std.specs.Prelude.{◌≡◌};
ghost use Rattle.tv_program.specs.declared.trouble.Trouble.TheVariants.{NoMemory};
ghost use Rattle.tv_program.specs.Conversions.{accept_told, answer_told, check_told, fill_told, lang_told, run_told};

use crate::accept_fault::AcceptFault;
use crate::answer_fault::{AnswerFault, Ending};
use crate::check_fault::CheckFault;
use crate::fill_fault::FillFault;
use crate::run_fault::RunFault;
use std::alloc::AllocError;
use tv_answers::AnswersFault;
use tv_check::{CertificateFault, Refusal};
use tv_lang::LangFault;
use tv_model::{Fault, Sequence};
use tv_script::ScriptFault;

/// Why a call of the program failed, whichever it was: what `report` tells.
///
/// Each call has a type of its own for what it can answer, which `From` turns into this one.
#[derive(Debug, Drop)]
pub enum Trouble {
    NoMemory,
    /// The description is not spelled right.
    Lang(LangFault),
    /// The faults of a description that is spelled right, by number and then by line.
    Faults(Sequence<Fault>),
    /// The script is not spelled right.
    Script(ScriptFault),
    /// The answers are not spelled right.
    Answers(AnswersFault),
    /// Some of the answers don't fit, which was told.
    Misfits,
    /// No dialog is answered.
    NoAnswers,
    /// An answered dialog has its end disabled.
    Disabled(Ending),
    /// An answered dialog refuses its end.
    Unended(Ending),
    /// The writer failed, or took nothing.
    Write,
    /// A file can't be opened or read.
    Read,
    /// The certificate is not spelled right.
    Cert(CertificateFault),
    /// The description or its certificate is not sound.
    Refused(Refusal),
    /// The views that were made aren't as the description declares them, or none were made.
    View,
}

impl From<AllocError> for Trouble {
    ghost from_gives = { λ _ fault. fault ≡ NoMemory };

    fn from(_error: AllocError) -> Trouble {
        Trouble::NoMemory
    }
}

impl From<LangFault> for Trouble {
    ghost from_gives = { λ unread told. told ≡ lang_told unread };

    fn from(unread: LangFault) -> Trouble {
        match unread {
            LangFault::NoMemory => Trouble::NoMemory,
            _ => Trouble::Lang(unread),
        }
    }
}

impl From<CheckFault> for Trouble {
    ghost from_gives = { λ fault told. told ≡ check_told fault };

    fn from(fault: CheckFault) -> Trouble {
        match fault {
            CheckFault::NoMemory => Trouble::NoMemory,
            CheckFault::Lang(unread) => Trouble::Lang(unread),
            CheckFault::Faults(list) => Trouble::Faults(list),
            CheckFault::Write => Trouble::Write,
        }
    }
}

impl From<AcceptFault> for Trouble {
    ghost from_gives = { λ fault told. told ≡ accept_told fault };

    fn from(fault: AcceptFault) -> Trouble {
        match fault {
            AcceptFault::NoMemory => Trouble::NoMemory,
            AcceptFault::Lang(unread) => Trouble::Lang(unread),
            AcceptFault::Cert(unread) => Trouble::Cert(unread),
            AcceptFault::Refused(refusal) => Trouble::Refused(refusal),
            AcceptFault::Write => Trouble::Write,
        }
    }
}

impl From<RunFault> for Trouble {
    ghost from_gives = { λ fault told. told ≡ run_told fault };

    fn from(fault: RunFault) -> Trouble {
        match fault {
            RunFault::NoMemory => Trouble::NoMemory,
            RunFault::Lang(unread) => Trouble::Lang(unread),
            RunFault::Faults(list) => Trouble::Faults(list),
            RunFault::Script(unread) => Trouble::Script(unread),
            RunFault::View => Trouble::View,
            RunFault::Read => Trouble::Read,
            RunFault::Write | RunFault::Tape => Trouble::Write,
        }
    }
}

impl From<FillFault> for Trouble {
    ghost from_gives = { λ fault told. told ≡ fill_told fault };

    fn from(fault: FillFault) -> Trouble {
        match fault {
            FillFault::NoMemory => Trouble::NoMemory,
            FillFault::Lang(unread) => Trouble::Lang(unread),
            FillFault::Faults(list) => Trouble::Faults(list),
            FillFault::Answers(unread) => Trouble::Answers(unread),
            FillFault::Write => Trouble::Write,
        }
    }
}

impl From<AnswerFault> for Trouble {
    ghost from_gives = { λ fault told. told ≡ answer_told fault };

    fn from(fault: AnswerFault) -> Trouble {
        match fault {
            AnswerFault::Run(unrun) => Trouble::from(unrun),
            AnswerFault::Answers(unread) => Trouble::Answers(unread),
            AnswerFault::Misfits => Trouble::Misfits,
            AnswerFault::NoAnswers => Trouble::NoAnswers,
            AnswerFault::Disabled(ending) => Trouble::Disabled(ending),
            AnswerFault::Refused(ending) => Trouble::Unended(ending),
            AnswerFault::Write => Trouble::Write,
        }
    }
}
