//! What a script asks for.

use tv_event::Event;

/// An item of a script; a typed character is the event of its key.
#[derive(Debug, Drop)]
pub enum Item {
    /// A key or a mouse event.
    Event(Event),
    /// The characters of the screen.
    Shot,
    /// The attributes of the screen.
    Colors,
}
