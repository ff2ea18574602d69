//! What a node is, and what its line declares.

ghost use Rattle.std.specs.Prelude.{◌≡◌, option_copied};
ghost use Rattle.tv_model.specs.Description.Nodes.{name_of, is_control, is_button, is_pane, is_window, is_dialog};

use crate::command::{CommandSpec, Ends};
use tv_valid::{Chars, InputSpec, Sequence};

/// A text of which one letter may be marked as its shortcut.
#[derive(Debug, Drop)]
pub struct MarkedText {
    /// The text, without the mark.
    pub text: Chars,
    /// The place in the text of the marked letter or digit, from 0.
    pub mark: Option<usize>,
}

/// What a node is.
#[derive(Debug, Drop)]
pub enum Kind {
    Window(WindowHead),
    Dialog(DialogHead),
    Text(StaticText),
    Label(Label),
    Button(Button),
    Input(Input),
    CheckBoxes(CheckBoxes),
    RadioButtons(RadioButtons),
    List(ListBox),
    Pane(Pane),
}

/// What a window's own line declares.
#[derive(Debug, Drop)]
pub struct WindowHead {
    pub name: Chars,
    /// Rows.
    pub h: i32,
    /// 1 to 9, or 0 for none.
    pub number: i32,
    pub title: Chars,
}

/// What a dialog's own line declares.
#[derive(Debug, Drop)]
pub struct DialogHead {
    pub name: Chars,
    /// Rows.
    pub h: i32,
    pub title: Chars,
    /// The command that opens it, where no dialog is open.
    pub opens: Option<i32>,
    pub ends: Ends,
}

/// A text that is only shown.
#[derive(Debug, Drop)]
pub struct StaticText {
    /// Rows.
    pub h: i32,
    pub text: Chars,
}

/// A text that stands for a control.
#[derive(Debug, Drop)]
pub struct Label {
    pub text: MarkedText,
    /// The name of the control that the label stands for.
    pub link: Chars,
}

/// A button, which gives a command where it is pressed.
#[derive(Debug, Drop)]
pub struct Button {
    pub name: Chars,
    pub text: MarkedText,
    pub command: CommandSpec,
    /// Whether Enter presses it while no button has the focus.
    pub is_default: bool,
    /// Whether a mouse down gives it the focus.
    pub grabs: bool,
}

/// A line in which a text is typed.
#[derive(Debug, Drop)]
pub struct Input {
    pub name: Chars,
    pub spec: InputSpec,
    pub start: Chars,
    /// Whether the focus may not leave it while its text lies outside its domain.
    pub validates: bool,
}

/// Items of which any may be marked, one a row.
#[derive(Debug, Drop)]
pub struct CheckBoxes {
    pub name: Chars,
    pub items: Sequence<MarkedText>,
    /// The items that are marked at first, rising, counted from 1.
    pub start: Sequence<i32>,
}

/// Items of which one is marked, one a row.
#[derive(Debug, Drop)]
pub struct RadioButtons {
    pub name: Chars,
    pub items: Sequence<MarkedText>,
    /// The item that is marked at first, counted from 1.
    pub start: i32,
}

/// Items of which one is chosen, and of which as many are shown as the list has rows.
#[derive(Debug, Drop)]
pub struct ListBox {
    pub name: Chars,
    /// Rows.
    pub h: i32,
    pub items: Sequence<Chars>,
    /// The item that is chosen at first, counted from 1.
    pub start: i32,
}

/// A group of views: the nodes after it that have one more pane around them stand in it.
#[derive(Debug, Drop)]
pub struct Pane {
    pub name: Chars,
    /// Rows.
    pub h: i32,
}

impl MarkedText {
    ghost use Rattle.tv_model.specs.Description.Marks.{marked_letter, marks};

    /// Returns the letter that it marks, in upper case, or `None` where it marks none.
    pub fn letter(&self) -> Option<char>
        ensures { result ≡ marked_letter self.now }
    {
        let letter = self.text.as_slice().get(self.mark?)?;
        Some(letter.to_ascii_uppercase())
    }

    /// Whether it marks the letter, which is given in upper case.
    pub fn marks(&self, letter: char) -> bool
        ensures { result ≡ marks letter self.now }
    {
        match self.letter() {
            Some(other) => other == letter,
            None => false,
        }
    }
}

impl Kind {
    /// Returns the name that the declaration gives; static texts and labels have none.
    pub fn name(&self) -> Option<&Chars>
        ensures { option_copied result ≡ name_of self.now }
    {
        match self {
            Kind::Window(head) => Some(&head.name),
            Kind::Dialog(head) => Some(&head.name),
            Kind::Button(button) => Some(&button.name),
            Kind::Input(input) => Some(&input.name),
            Kind::CheckBoxes(boxes) => Some(&boxes.name),
            Kind::RadioButtons(radios) => Some(&radios.name),
            Kind::List(list) => Some(&list.name),
            Kind::Pane(pane) => Some(&pane.name),
            Kind::Text(_) | Kind::Label(_) => None,
        }
    }

    /// Whether it can have the focus by its kind: a button, an input, a cluster or a list.
    pub fn is_control(&self) -> bool
        ensures { result ≡ is_control self.now }
    {
        matches!(
            self,
            Kind::Button(_)
                | Kind::Input(_)
                | Kind::CheckBoxes(_)
                | Kind::RadioButtons(_)
                | Kind::List(_)
        )
    }

    /// Whether it is a button.
    pub fn is_button(&self) -> bool
        ensures { result ≡ is_button self.now }
    {
        matches!(self, Kind::Button(_))
    }

    /// Whether it is a pane.
    pub fn is_pane(&self) -> bool
        ensures { result ≡ is_pane self.now }
    {
        matches!(self, Kind::Pane(_))
    }

    /// Whether it is a window.
    pub fn is_window(&self) -> bool
        ensures { result ≡ is_window self.now }
    {
        matches!(self, Kind::Window(_))
    }

    /// Whether it is a dialog.
    pub fn is_dialog(&self) -> bool
        ensures { result ≡ is_dialog self.now }
    {
        matches!(self, Kind::Dialog(_))
    }
}
