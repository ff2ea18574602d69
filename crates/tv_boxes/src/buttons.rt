//! The buttons of a box.

ghost use Rattle.std.specs.Prelude.{◌≡◌, ◌∷◌, ◌+◌, ◌≤◌, [], IfOk, codes, length, max};
ghost use Rattle.tv_boxes.specs.Buttons.{beside, button_views, buttons_columns, buttons_of, first_mark, press, press_columns, press_view, second_columns, unless_taken};
ghost use Rattle.tv_boxes.specs.Sizes.{size};

use crate::request::{BoxKind, Labels};
use crate::size::size;
use crate::views::view;
use std::alloc::{AllocError, Global};
use tv_lang::ascii;
use tv_model::{Button, CommandSpec, Kind, MarkedText, Node};
use tv_valid::Chars;

/// A button that stands nowhere yet.
#[derive(Drop)]
pub(crate) struct Press {
    name: Chars,
    text: MarkedText,
    command: CommandSpec,
}

/// The buttons of a box: one or two.
#[derive(Drop)]
pub(crate) struct Buttons {
    first: Press,
    second: Option<Press>,
}

// The first place, where a letter or digit is there.
fn first_mark(text: &[char]) -> Option<usize>
    ensures { result ≡ first_mark text.now }
{
    match text.first() {
        Some(letter) if letter.is_ascii_alphanumeric() => Some(0),
        _ => None,
    }
}

// The text, which marks no letter that is taken.
fn unless_taken(taken: Option<char>, text: MarkedText) -> MarkedText
    ensures { result ≡ unless_taken taken text }
{
    match taken {
        Some(letter) if text.marks(letter) => MarkedText {
            text: text.text,
            mark: None,
        },
        _ => text,
    }
}

impl Press {
    fn new(
        alloc: Global,
        name: &[u8],
        label: &Chars,
        command: CommandSpec,
    ) -> Result<Press, AllocError>
        ensures { IfOk result (λ button. button ≡ press name.now label.now command) }
    {
        Ok(Press {
            name: ascii(alloc, name)?,
            text: MarkedText {
                text: label.copy(alloc)?,
                mark: first_mark(label.as_slice()),
            },
            command,
        })
    }

    fn columns(&self) -> u8
        ensures { result ≡ press_columns self.now }
    {
        10.max(size(self.text.text.as_slice().len() + 4))
    }

    // The button beside another, which has its letter first.
    fn beside(self, first: &Press) -> Press
        ensures { result ≡ beside first.now self }
    {
        let Press {
            name,
            text,
            command,
        } = self;
        Press {
            name,
            text: unless_taken(first.text.letter(), text),
            command,
        }
    }

    // The button at a place.
    fn view(self, x: u16, row: u16, is_default: bool) -> Node
        ensures { result ≡ press_view x row is_default self }
    {
        let columns = u16::from(self.columns());
        let Press {
            name,
            text,
            command,
        } = self;
        let kind = Kind::Button(Button {
            name,
            text,
            command,
            is_default,
            grabs: false,
        });
        view(x, row, columns, kind)
    }
}

fn second_columns(second: &Option<Press>) -> u16
    ensures is { result ≡ second_columns second.now }
    ensures few { result ≤ 257 }
{
    match second {
        Some(second) => u16::from(second.columns()) + 2,
        None => 0,
    }
}

impl Buttons {
    /// Makes the buttons of a box.
    pub(crate) fn new(alloc: Global, kind: &BoxKind, labels: &Labels) -> Result<Buttons, AllocError>
        ensures { IfOk result (λ buttons. buttons ≡ buttons_of kind.now labels.now) }
    {
        match kind {
            BoxKind::Message => Ok(Buttons {
                first: Press::new(alloc, b"ok", &labels.ok, CommandSpec::Ok)?,
                second: None,
            }),
            BoxKind::YesNo => Ok(Buttons {
                first: Press::new(alloc, b"yes", &labels.yes, CommandSpec::Yes)?,
                second: Some(Press::new(alloc, b"no", &labels.no, CommandSpec::No)?),
            }),
            _ => Ok(Buttons {
                first: Press::new(alloc, b"ok", &labels.ok, CommandSpec::Ok)?,
                second: Some(Press::new(alloc, b"cancel", &labels.cancel, CommandSpec::Cancel)?),
            }),
        }
    }

    /// Returns the columns of all buttons.
    pub(crate) fn columns(&self) -> u8
        ensures { result ≡ buttons_columns self.now }
    {
        size(usize::from(u16::from(self.first.columns()) + second_columns(&self.second)))
    }

    /// Returns the buttons in a row, in the order of Tab. The one that Enter presses at first is declared first.
    pub(crate) fn views(
        self,
        alloc: Global,
        second_is_default: bool,
        row: u16,
    ) -> Result<Vec<Node>, AllocError>
        ensures { IfOk result (λ views. views.items ≡ button_views second_is_default row self) }
    {
        let Buttons { first, second } = self;
        let mut views = Vec::new(alloc);
        let Some(second) = second else {
            views.push(first.view(2, row, true))?;
            return Ok(views);
        };
        let x = u16::from(first.columns()) + 4;
        let right = second.beside(&first).view(x, row, second_is_default);
        let left = first.view(2, row, !second_is_default);
        if second_is_default {
            views.push(right)?;
            views.push(left)?;
        } else {
            views.push(left)?;
            views.push(right)?;
        }
        Ok(views)
    }
}
