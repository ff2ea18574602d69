//! Whether events reach a goal.

use tv_event::Event;
use tv_model::Id;
use tv_valid::Sequence;

/// Why no events reach a goal.
#[derive(Clone, Copy, Debug, PartialEq, Eq)]
pub enum Reason {
    /// Nothing opens the dialog: no start, no status item, no menu item.
    NotOpened,
    /// No button of the dialog and no status item gives the command.
    NoGiver,
    /// Those that give the command are never shown and enabled.
    NotGiven,
    /// The input starts with a text outside its domain, and is never shown.
    Blocked(Id),
    /// The control is never shown and enabled, or there is none.
    NotFree,
    /// The view is never shown, or there is none.
    NotShown,
}

/// Whether events reach a goal.
#[derive(Debug, Drop)]
pub enum Answer {
    /// These events reach it.
    Way(Sequence<Event>),
    /// No events do.
    Never(Reason),
    /// The search was given up.
    Unknown,
}
