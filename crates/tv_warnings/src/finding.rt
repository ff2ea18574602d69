//! What there is to warn of.

ghost use Rattle.std.specs.Prelude.{◌≡◌};
ghost use Rattle.tv_warnings.specs.Findings.{code_of, is_warning};

use tv_event::{Command, Event};
use tv_model::Id;
use tv_reach::Goal;
use tv_valid::Sequence;
use tv_ways::{Cut, Lost};

/// An end of a dialog.
#[derive(Clone, Copy, Debug, PartialEq, Eq)]
pub struct End {
    pub dialog: Id,
    pub command: Command,
}

/// A view of a dialog.
#[derive(Clone, Copy, Debug, PartialEq, Eq)]
pub struct Member {
    pub dialog: Id,
    pub view: Id,
}

/// An end that an input refuses, whatever a user does.
#[derive(Clone, Copy, Debug, PartialEq, Eq)]
pub struct BlockedEnd {
    pub end: End,
    pub input: Id,
}

/// An end that a hidden input refuses after these events.
#[derive(Debug, Drop)]
pub struct RefusedEnd {
    pub end: End,
    pub input: Id,
    pub events: Sequence<Event>,
}

/// What may be reached or not.
#[derive(Clone, Copy, Debug, PartialEq, Eq)]
pub struct Unknown {
    pub dialog: Id,
    pub goal: Goal,
}

/// What there is to warn of, or to note.
#[derive(Debug, Drop)]
pub enum Finding {
    /// W1: a dialog that nothing opens.
    NotOpened(Id),
    /// W2: an end that no button and no status item gives.
    NoGiver(End),
    /// W3: an end whose givers are never shown and enabled.
    NotGiven(End),
    /// W4: an end that an input refuses which is never shown.
    Blocked(BlockedEnd),
    /// W5: a control that never gets the focus.
    NotFocused(Member),
    /// W6: a label or a text that is never shown.
    NotShown(Member),
    /// W7: an end that a hidden input refuses.
    Refused(RefusedEnd),
    /// W8 and W9: a text of which a character or the marked letter is cut.
    Cut(Cut),
    /// W10: a menu item or a button whose command does nothing there.
    Idle(Id),
    /// No warning: what was given up.
    Unknown(Unknown),
}

impl Finding {
    /// Returns what it is called.
    pub fn code(&self) -> &'static str
        ensures { result.now ≡ code_of self.now }
    {
        match self {
            Finding::NotOpened(_) => "W1",
            Finding::NoGiver(_) => "W2",
            Finding::NotGiven(_) => "W3",
            Finding::Blocked(_) => "W4",
            Finding::NotFocused(_) => "W5",
            Finding::NotShown(_) => "W6",
            Finding::Refused(_) => "W7",
            Finding::Cut(
                Cut {
                    lost: Lost::Character,
                    ..
                },
            ) => "W8",
            Finding::Cut(
                Cut {
                    lost: Lost::Letter,
                    ..
                },
            ) => "W9",
            Finding::Idle(_) => "W10",
            Finding::Unknown(_) => "note",
        }
    }

    /// Whether it is a warning, and no note.
    pub fn is_warning(&self) -> bool
        ensures { result ≡ is_warning self.now }
    {
        !matches!(self, Finding::Unknown(_))
    }
}
