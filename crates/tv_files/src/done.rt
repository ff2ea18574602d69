//! How a task was done.

ghost use Rattle.std.specs.Prelude.{◌≡◌};
ghost use Rattle.tv_files.specs.Ends.{done_by};

use tv_play::Parting;

/// How a task was done.
#[derive(Clone, Copy, Debug, PartialEq, Eq)]
pub enum Done {
    /// To its end.
    Whole,
    /// To its end, and what was found are faults, which were told.
    Faulty,
    /// It was broken off: by the user, or because nothing more came from him.
    BrokenOff,
}

impl From<Parting> for Done {
    ghost from_gives = { λ parting done. done ≡ done_by parting };

    fn from(parting: Parting) -> Done {
        match parting {
            Parting::Over => Done::Whole,
            Parting::Left | Parting::Ended => Done::BrokenOff,
        }
    }
}
