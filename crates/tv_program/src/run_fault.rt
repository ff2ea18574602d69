//! Why a script wasn't run on a description, or not to its end.

ghost use Rattle.std.specs.Prelude.{◌≡◌};
ghost use Rattle.tv_program.specs.declared.run_fault.RunFault.TheVariants.{NoMemory};
ghost use Rattle.tv_program.specs.Conversions.{build_run, desc_run, lang_run, session_run, stream_run, terminal_run};

use std::alloc::AllocError;
use tv_check::DescFault;
use tv_lang::LangFault;
use tv_model::{Fault, Sequence};
use tv_play::PlayFault;
use tv_script::{ScriptFault, StreamFault};
use tv_session::{BuildFault, SessionFault};

/// Why a script wasn't run to its end: a fault of the description or of the views, before anything of the script is read, or
/// one that came while the script was performed. Also why a description wasn't played in a terminal, which has no `Script`.
#[derive(Debug, Drop)]
pub enum RunFault {
    NoMemory,
    /// The description is not spelled right.
    Lang(LangFault),
    /// The faults of a description that is spelled right, by number and then by line.
    Faults(Sequence<Fault>),
    /// The views that were made aren't as the description declares them, or none were made.
    View,
    /// The script is not spelled right; the lines before the fault were performed.
    Script(ScriptFault),
    /// The reader of the script failed, or what comes from the terminal can't be read.
    Read,
    /// A writer failed, or took nothing.
    Write,
    /// What the user did can't be recorded.
    Tape,
}

impl From<AllocError> for RunFault {
    ghost from_gives = { λ _ fault. fault ≡ NoMemory };

    fn from(_error: AllocError) -> RunFault {
        RunFault::NoMemory
    }
}

impl From<LangFault> for RunFault {
    ghost from_gives = { λ unread fault. fault ≡ lang_run unread };

    fn from(unread: LangFault) -> RunFault {
        match unread {
            LangFault::NoMemory => RunFault::NoMemory,
            _ => RunFault::Lang(unread),
        }
    }
}

impl From<DescFault> for RunFault {
    ghost from_gives = { λ faulty fault. fault ≡ desc_run faulty };

    fn from(faulty: DescFault) -> RunFault {
        match faulty {
            DescFault::NoMemory => RunFault::NoMemory,
            DescFault::Faults(list) => RunFault::Faults(list),
        }
    }
}

impl From<BuildFault> for RunFault {
    ghost from_gives = { λ unbuilt fault. fault ≡ build_run unbuilt };

    fn from(unbuilt: BuildFault) -> RunFault {
        match unbuilt {
            BuildFault::NoMemory => RunFault::NoMemory,
            BuildFault::WrongPlan => RunFault::View,
        }
    }
}

impl From<SessionFault> for RunFault {
    ghost from_gives = { λ refused fault. fault ≡ session_run refused };

    fn from(refused: SessionFault) -> RunFault {
        match refused {
            SessionFault::NoMemory => RunFault::NoMemory,
            SessionFault::ViewMismatch(_) => RunFault::View,
        }
    }
}

impl From<StreamFault> for RunFault {
    ghost from_gives = { λ left fault. fault ≡ stream_run left };

    fn from(left: StreamFault) -> RunFault {
        match left {
            StreamFault::NoMemory => RunFault::NoMemory,
            StreamFault::Syntax(line) => RunFault::Script(ScriptFault::Syntax(line)),
            StreamFault::OffScreen(line) => RunFault::Script(ScriptFault::OffScreen(line)),
            StreamFault::TooLong => RunFault::Script(ScriptFault::TooLong),
            StreamFault::Read => RunFault::Read,
            StreamFault::Write(_) => RunFault::Write,
        }
    }
}

impl From<PlayFault> for RunFault {
    ghost from_gives = { λ broken fault. fault ≡ terminal_run broken };

    fn from(broken: PlayFault) -> RunFault {
        match broken {
            PlayFault::NoMemory => RunFault::NoMemory,
            PlayFault::Read => RunFault::Read,
            PlayFault::Log | PlayFault::Screen => RunFault::Write,
            PlayFault::Tape => RunFault::Tape,
        }
    }
}
