//! What a user may want of a dialog.

use tv_event::Command;
use tv_model::Id;

/// What a user may want of a dialog.
#[derive(Clone, Copy, Debug, PartialEq, Eq)]
pub enum Goal {
    /// It opens.
    Opens,
    /// It ends by the command.
    Ends(Command),
    /// Its control of the id has the focus.
    Focuses(Id),
    /// Its control, label or text of the id is visible.
    Shows(Id),
}
