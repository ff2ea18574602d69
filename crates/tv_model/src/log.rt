//! Lines of the log.

use crate::node::Id;
use crate::record::Value;
use tv_cells::Point;
use tv_event::Command;

/// What a run logs of an event.
#[derive(Debug, Drop, Default, PartialEq)]
pub enum LogLine {
    /// A dialog opened.
    Open(Id),
    /// A control received the focus.
    Focus(Id),
    /// A button was pressed.
    Press(Id),
    /// An input's text lies outside its domain, so that the focus didn't move or the dialog didn't end.
    Invalid(Id),
    /// A window closed.
    Close(Id),
    /// The run is over.
    #[default]
    Quit,
    /// A command of the description's own that opened nothing.
    Command(u8),
    /// A dialog ended by a command.
    End(Id, Command),
    /// The value of a field of the dialog that ended.
    Field(Id, Value),
    /// A window or dialog was dragged, and its corner stands here.
    Moved(Id, Point),
}
