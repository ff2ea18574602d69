//! What is answered.

ghost use Rattle.std.specs.Prelude.{◌≡◌};
ghost use Rattle.tv_held.specs.Holding.{answer_number, bare, unopened};

use tv_app::OpenFault;

/// What is answered to a call.
#[derive(Clone, Copy, Debug, PartialEq, Eq)]
pub enum Answer {
    /// It is done, and no event came of it.
    Done,
    /// An event was performed.
    Event,
    /// Nothing can be made of what was asked.
    Refused,
    /// There was no memory for it. Nothing has changed.
    NoMemory,
    /// The room is too small. Nothing has changed.
    NoRoom,
    /// The user leaves.
    Left,
    /// Nothing can happen any more by itself. An event may have been performed; and another call may still open a dialog.
    Over,
    /// No sound description was opened.
    Unsound,
    /// The whole screen is to be shown anew.
    Refresh,
}

impl Answer {
    /// Returns its number.
    pub fn number(self) -> u8
        ensures { result ≡ answer_number self }
    {
        match self {
            Answer::Done => 0,
            Answer::Event => 1,
            Answer::Refused => 2,
            Answer::NoMemory => 3,
            Answer::NoRoom => 4,
            Answer::Left => 5,
            Answer::Over => 6,
            Answer::Unsound => 7,
            Answer::Refresh => 8,
        }
    }
}

/// What is answered where nothing was opened.
pub(crate) fn unopened(fault: &OpenFault) -> Answer
    ensures { result ≡ unopened fault.now }
{
    match fault {
        OpenFault::NoMemory => Answer::NoMemory,
        OpenFault::Lang(_) | OpenFault::Faults(_) => Answer::Unsound,
    }
}

/// An answer, and a count: of the bytes that were taken, or of those that a text has.
#[derive(Clone, Copy, Debug, PartialEq, Eq)]
pub struct Told {
    pub answer: Answer,
    pub used: usize,
}

impl Told {
    /// Makes an answer that counts nothing.
    pub fn bare(answer: Answer) -> Told
        ensures { result ≡ bare answer }
    {
        Told { answer, used: 0 }
    }
}
