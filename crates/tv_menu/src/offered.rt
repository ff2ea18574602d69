//! Answers to an event that is offered.

use tv_event::Command;

/// What the menu bar or the status line answers to an event.
#[derive(Clone, Copy, Debug, PartialEq, Eq)]
pub enum Offered {
    /// It took the event, and nothing more is to be done.
    Taken,
    /// It took the event, and this command is to be done.
    Turned(Command),
    /// The event is for another.
    Left,
}
