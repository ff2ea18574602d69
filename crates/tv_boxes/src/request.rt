//! What is asked for, as the arguments of `dialog` say it.

ghost use Rattle.std.specs.Prelude.{◌≡◌, IfOk};
ghost use Rattle.tv_boxes.specs.Buttons.{standard_labels};

use std::alloc::{AllocError, Global};
use tv_lang::ascii;
use tv_valid::{Chars, Sequence};

/// A box: what it shows, what it asks and how large it is wanted.
#[derive(Debug, Drop)]
pub struct Request {
    pub title: Chars,
    /// What is shown above the fields. A line feed begins a row, and what is longer than a row is wrapped.
    pub text: Chars,
    /// Rows of the box with its frame, or 0 for as many as it needs.
    pub height: u8,
    /// Columns of the box with its frame, or 0 for as many as it needs.
    pub width: u8,
    pub labels: Labels,
    /// Whether Enter says No or Cancel at first.
    pub default_no: bool,
    pub kind: BoxKind,
}

/// The texts of the buttons.
#[derive(Debug, Drop)]
pub struct Labels {
    pub yes: Chars,
    pub no: Chars,
    pub ok: Chars,
    pub cancel: Chars,
}

impl Labels {
    /// Makes those that `dialog` has: Yes, No, OK and Cancel.
    pub fn standard(alloc: Global) -> Result<Labels, AllocError>
        ensures { IfOk result (λ labels. labels ≡ standard_labels) }
    {
        Ok(Labels {
            yes: ascii(alloc, b"Yes")?,
            no: ascii(alloc, b"No")?,
            ok: ascii(alloc, b"OK")?,
            cancel: ascii(alloc, b"Cancel")?,
        })
    }
}

/// What a box asks.
#[derive(Debug, Drop)]
pub enum BoxKind {
    /// `--yesno`: yes or no.
    YesNo,
    /// `--msgbox`: nothing.
    Message,
    /// `--inputbox`: a text, which begins so.
    Input(Chars),
    /// `--menu`: one of the items.
    Menu(Choices),
    /// `--checklist`: any of the items.
    CheckList(Choices),
    /// `--radiolist`: one of the items.
    RadioList(Choices),
    /// `--form`: a text for each field.
    Form(Sequence<FormField>),
}

/// Items to choose from.
#[derive(Debug, Drop)]
pub struct Choices {
    /// Rows of a list of them, or 0 for as many as it needs.
    pub rows: u8,
    pub items: Sequence<Item>,
}

/// An item: its tag, and the text behind that.
#[derive(Debug, Drop)]
pub struct Item {
    pub tag: Chars,
    pub text: Chars,
    /// Whether it is marked or chosen at first: `on` behind it, or a menu's `--default-item`.
    pub is_on: bool,
}

/// A field of a form. Rows and columns count from 1, rows from the one below the free row under the text.
#[derive(Debug, Drop)]
pub struct FormField {
    pub label: Chars,
    pub label_row: u8,
    pub label_column: u8,
    /// What it holds at first.
    pub start: Chars,
    pub row: u8,
    pub column: u8,
    /// The columns in which it is shown.
    pub width: u8,
    /// The most characters that it takes, or 0 for as many as are shown.
    pub longest: u8,
}
