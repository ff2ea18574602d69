//! Why a line has a fault.

ghost use Rattle.std.specs.Prelude.{◌≡◌};
ghost use Rattle.tv_explain.specs.Whys.{because, from_line};

/// Which of its reasons a fault has.
#[derive(Clone, Copy, Debug, PartialEq, Eq)]
pub enum Reason {
    /// The only one that the fault can have.
    Itself,
    /// F5: a status item can't have the key.
    NoStatusKey,
    /// F5: the key is a shortcut of a dialog.
    DialogLetter,
    /// F5: the key opens a menu.
    TitleLetter,
    /// F5: the key brings a window to the front.
    WindowDigit,
    /// F5: a status item before it has the key.
    KeyTwice,
    /// F7: what the rule shows isn't there.
    UnknownTarget,
    /// F7: what the rule goes by isn't there.
    UnknownCluster,
    /// F7: what the rule goes by is neither check boxes nor radio buttons.
    NoCluster,
    /// F7: the cluster hasn't so many items.
    UnknownItem,
    /// F9: the dialog has no control.
    NoControl,
    /// F9: rules reach every control.
    AllReached,
    /// F10: the dialog can't be ended by `cancel`.
    NoCancel,
    /// F10: the button's command isn't an end of its dialog.
    UndeclaredEnd,
    /// F12: the picture is spelled wrong.
    BadPicture,
    /// F12: no text of so many characters is right.
    NoText,
    /// F13: the first text can't be typed.
    StartText,
    /// F13: the first item isn't there.
    StartItem,
    /// F15: the screen has too few or too many columns or rows.
    Screen,
    /// F15: there are too few or too many items.
    Items,
    /// F15: the corner is too far off.
    Corner,
    /// F15: it is too narrow or too wide.
    Width,
    /// F15: it is too low or too high.
    Height,
    /// F15: a window's number, or the most characters of an input.
    Amount,
    /// F15: the number of a command.
    CommandNumber,
    /// F15: a text is too long.
    TextLength,
    /// F15: it is the first one too many.
    TooMany,
    /// F15: it is a pane in too many others.
    Nested,
    /// F16: the command isn't one of 100 to 255.
    OpeningOutside,
    /// F16: a dialog before it has the command.
    OpeningTwice,
    /// F16: the start names nothing.
    StartUnknown,
    /// F16: the start names a window.
    StartWindow,
    /// F17: a title before it marks the letter.
    TitleTwice,
    /// F17: an item before it in its menu marks the letter.
    ItemTwice,
    /// F17: a window before it has the number.
    NumberTwice,
    /// F17: the rule speaks of `cancel` or `close`.
    RulesCancel,
}

/// Why a line has a fault.
#[derive(Clone, Copy, Debug, PartialEq, Eq)]
pub struct Why {
    pub reason: Reason,
    /// The other line of the canonical text that has to do with it.
    pub other: Option<u32>,
}

impl Why {
    /// A fault with one reason alone, and no other line.
    pub const ITSELF: Why = Why {
        reason: Reason::Itself,
        other: None,
    };

    /// Makes an answer of the only reason that the fault can have, and another line.
    pub fn from_line(other: Option<u32>) -> Why
        ensures { result ≡ from_line other }
    {
        Why::because(Reason::Itself, other)
    }

    /// Puts a reason and the other line together.
    pub fn because(reason: Reason, other: Option<u32>) -> Why
        ensures { result ≡ because reason other }
    {
        Why { reason, other }
    }
}
