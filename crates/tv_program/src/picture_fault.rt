//! Why pictures weren't drawn.

ghost use Rattle.std.specs.Prelude.{◌≡◌};
ghost use Rattle.tv_program.specs.declared.picture_fault.DrawingFault.TheVariants.{Run, Shot};
ghost use Rattle.tv_program.specs.Shots.{script_told};

use crate::album::AlbumFault;
use crate::run_fault::RunFault;
use tv_script::ScriptFault;

/// The picture of a `shot` that isn't there, counted from 1, and why.
#[derive(Clone, Copy, Debug, Drop, PartialEq, Eq)]
pub struct ShotFault {
    pub number: usize,
    pub fault: AlbumFault,
}

/// Why the pictures of a script aren't all there.
#[derive(Debug, Drop)]
pub enum DrawingFault {
    /// The script wasn't run: no picture was drawn.
    Run(RunFault),
    /// A picture failed. Those before it are there.
    Shot(ShotFault),
}

impl From<RunFault> for DrawingFault {
    ghost from_gives = { λ unrun fault. fault ≡ Run unrun };

    fn from(unrun: RunFault) -> DrawingFault {
        DrawingFault::Run(unrun)
    }
}

impl From<ScriptFault> for DrawingFault {
    ghost from_gives = { λ unread fault. fault ≡ Run (script_told unread) };

    fn from(unread: ScriptFault) -> DrawingFault {
        match unread {
            ScriptFault::NoMemory => DrawingFault::Run(RunFault::NoMemory),
            _ => DrawingFault::Run(RunFault::Script(unread)),
        }
    }
}

impl From<ShotFault> for DrawingFault {
    ghost from_gives = { λ failed fault. fault ≡ Shot failed };

    fn from(failed: ShotFault) -> DrawingFault {
        DrawingFault::Shot(failed)
    }
}
