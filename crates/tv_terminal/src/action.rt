//! What a decoder gives.

use tv_event::Event;

/// What a terminal's user did.
#[derive(Clone, Copy, Debug, PartialEq, Eq)]
pub enum Action {
    /// A key, a character, or what the mouse did. Its point is on the screen or beyond its right or lower edge, with
    /// columns and rows from 0 to 9,999.
    Event(Event),
    /// Ctrl-\, which is no key of the language: the user wants to leave.
    Quit,
    /// The terminal reports that it is ready, as it does when it is asked. What it shows may be lost.
    Ready,
    /// The terminal reports its size, as it does when it is asked. What it shows may be lost.
    Resized(Size),
}

/// The size of a terminal in cells, as the terminal tells it.
#[derive(Clone, Copy, Debug, PartialEq, Eq)]
pub struct Size {
    pub columns: u32,
    pub rows: u32,
}
