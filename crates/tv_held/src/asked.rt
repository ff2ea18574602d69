//! What is asked for.

ghost use Rattle.std.specs.Prelude.{◌≡◌};
ghost use Rattle.tv_held.specs.Asking.{asked_of};

/// What is asked for.
#[derive(Clone, Copy, Debug, PartialEq, Eq)]
pub enum Asked {
    /// Whether a description was opened.
    Status,
    /// That bytes of a terminal are taken, up to the first with which something is done.
    Bytes,
    /// That notice is taken that for a while no byte came.
    Pause,
    /// That the one event of a script's line is performed.
    Line,
    /// That a command is given, as if the user had chosen it.
    Command,
    /// A text.
    Text(Look),
}

/// A text that is asked for.
#[derive(Clone, Copy, Debug, PartialEq, Eq)]
pub enum Look {
    /// The log of the last event.
    Log,
    /// The cells of the screen.
    Screen,
    /// The columns and rows of the screen.
    Shape,
    /// The name of the control that has the focus.
    Focus,
    /// The record with which the dialog of a name opens next.
    Record,
}

impl Asked {
    /// Finds what a number asks for.
    pub fn of(number: u32) -> Option<Asked>
        ensures { result ≡ asked_of number }
    {
        Some(match number {
            0 => Asked::Status,
            1 => Asked::Bytes,
            2 => Asked::Pause,
            3 => Asked::Line,
            4 => Asked::Command,
            5 => Asked::Text(Look::Log),
            6 => Asked::Text(Look::Screen),
            7 => Asked::Text(Look::Shape),
            8 => Asked::Text(Look::Focus),
            9 => Asked::Text(Look::Record),
            _ => return None,
        })
    }
}
