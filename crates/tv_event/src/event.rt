//! Keys, commands and events.

use tv_cells::Point;

/// A key, or a character that was typed.
#[derive(Clone, Copy, Debug, PartialEq, Eq, Hash)]
pub enum Key {
    Tab,
    ShiftTab,
    Enter,
    Esc,
    Up,
    Down,
    Left,
    Right,
    Home,
    End,
    PageUp,
    PageDown,
    CtrlPageUp,
    CtrlPageDown,
    Backspace,
    Delete,
    Insert,
    /// Ctrl with a letter `A` to `Z`.
    Ctrl(char),
    /// `F1` to `F12`, by their numbers.
    Function(u8),
    /// Alt with a letter `A` to `Z` or a digit.
    Alt(char),
    /// A character as it was typed; a space is the Space key.
    Char(char),
}

/// A command, by its number as in the Turbo Vision guide; 100 to 255 are a description's own.
#[derive(Clone, Copy, Debug, PartialEq, Eq)]
pub struct Command(pub u8);

impl Command {
    /// `cmQuit`
    pub const QUIT: Command = Command(1);
    /// `cmMenu`
    pub const MENU: Command = Command(3);
    /// `cmClose`
    pub const CLOSE: Command = Command(4);
    /// `cmNext`
    pub const NEXT: Command = Command(7);
    /// `cmOK`
    pub const OK: Command = Command(10);
    /// `cmCancel`
    pub const CANCEL: Command = Command(11);
    /// `cmYes`
    pub const YES: Command = Command(12);
    /// `cmNo`
    pub const NO: Command = Command(13);
    /// `cmDefault`, which Enter broadcasts
    pub const DEFAULT: Command = Command(14);
    /// `cmReceivedFocus`
    pub const RECEIVED_FOCUS: Command = Command(50);
    /// `cmReleasedFocus`
    pub const RELEASED_FOCUS: Command = Command(51);
    /// `cmCommandSetChanged`
    pub const COMMAND_SET_CHANGED: Command = Command(52);
    /// `cmGrabDefault`
    pub const GRAB_DEFAULT: Command = Command(61);
    /// `cmReleaseDefault`
    pub const RELEASE_DEFAULT: Command = Command(62);
    /// The least command of a description's own.
    pub const FIRST_OWN: Command = Command(100);
}

/// What happens. Points are columns and rows of the screen, from its top left cell, within -10,000 to 10,000.
#[derive(Clone, Copy, Debug, PartialEq, Eq)]
pub enum Event {
    /// The mouse button goes down.
    Down(Point),
    /// The mouse button goes up.
    Up(Point),
    /// The mouse moves.
    Move(Point),
    Key(Key),
    /// A command goes to the focused view.
    Command(Command),
    /// A command goes to every view.
    Broadcast(Command),
}

/// In which of its three turns a group hands an event to its members.
#[derive(Clone, Copy, Debug, PartialEq, Eq)]
pub enum Phase {
    /// To those with `ofPreProcess`.
    Pre,
    /// To the current member.
    Focused,
    /// To those with `ofPostProcess`.
    Post,
}
