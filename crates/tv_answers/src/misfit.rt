//! What doesn't fit a description.

use tv_event::Command;
use tv_valid::Chars;

/// What doesn't fit, and in which line of the log, counted from 1.
#[derive(Debug, Drop)]
pub struct Misfit {
    pub line: usize,
    pub kind: MisfitKind,
}

/// What doesn't fit.
#[derive(Debug, Drop)]
pub enum MisfitKind {
    /// No dialog has the name.
    NoDialog(Chars),
    /// The dialog can't end by the command.
    NoEnd(Chars, Command),
    /// The dialog has no field of the second name.
    NoField(Chars, Chars),
    /// The dialog's field can't have the value.
    NoValue(Chars, Chars),
}
