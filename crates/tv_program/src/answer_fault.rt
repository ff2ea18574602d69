//! Why answered dialogs weren't ended.

ghost use Rattle.std.specs.Prelude.{◌≡◌};
ghost use Rattle.tv_program.specs.AnswerFaults.{answers_told};
ghost use Rattle.tv_program.specs.declared.answer_fault.AnswerFault.TheVariants.{Run};
ghost use Rattle.tv_program.specs.declared.run_fault.RunFault.TheVariants.{NoMemory};

use crate::run_fault::RunFault;
use std::alloc::AllocError;
use tv_answers::AnswersFault;
use tv_event::Command;
use tv_valid::Chars;

/// The end that a dialog is given: its name, and the command.
#[derive(Debug, Drop)]
pub struct Ending {
    pub dialog: Chars,
    pub command: Command,
}

/// Why answered dialogs weren't ended.
#[derive(Debug, Drop)]
pub enum AnswerFault {
    /// A run of a dialog can't begin: the description is too long when it is filled, it has faults, or its views aren't as
    /// declared; or memory ran out.
    Run(RunFault),
    /// The answers are not spelled right.
    Answers(AnswersFault),
    /// Some of the answers don't fit. What doesn't was told.
    Misfits,
    /// No dialog is answered.
    NoAnswers,
    /// The dialog has its end disabled by its rules. The dialogs before it ended.
    Disabled(Ending),
    /// The dialog stays open: a field of it refuses its end, as the log says. The dialogs before it ended.
    Refused(Ending),
    /// The writer failed, or took nothing.
    Write,
}

impl From<AllocError> for AnswerFault {
    ghost from_gives = { λ _ fault. fault ≡ Run NoMemory };

    fn from(_error: AllocError) -> AnswerFault {
        AnswerFault::Run(RunFault::NoMemory)
    }
}

impl From<AnswersFault> for AnswerFault {
    ghost from_gives = { λ unread fault. fault ≡ answers_told unread };

    fn from(unread: AnswersFault) -> AnswerFault {
        match unread {
            AnswersFault::NoMemory => AnswerFault::Run(RunFault::NoMemory),
            _ => AnswerFault::Answers(unread),
        }
    }
}

impl From<RunFault> for AnswerFault {
    ghost from_gives = { λ unrun fault. fault ≡ Run unrun };

    fn from(unrun: RunFault) -> AnswerFault {
        AnswerFault::Run(unrun)
    }
}
