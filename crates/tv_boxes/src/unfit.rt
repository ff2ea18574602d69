//! What of a box can't be shown, in words.

ghost use Rattle.std.specs.Prelude.{◌≡◌, ◌++◌, ◌==◌, flat_map, not};
ghost use Rattle.std.specs.List.{list_any};
ghost use Rattle.tv_cells.specs.Glyph.{is_narrow};
ghost use Rattle.tv_boxes.specs.declared.unfit.Part.TheVariants as parts;
ghost use Rattle.tv_boxes.specs.Unfit.{first, unfit_box, unfit_count, unfit_input, unfit_items, unfit_kind, unfit_marked, unfit_most, unfit_places, unfit_rows, unfit_screen, unfit_start, unfit_text, unfit_views};

use crate::request::{BoxKind, Request};
use std::fmt;
use thiserror::Error;
use tv_cells::is_narrow;
use tv_model::{Desc, Dialog, Kind, MarkedText, Node, natural};
use tv_valid::Chars;

/// A part of a box that has a text.
#[derive(Clone, Copy, Debug, PartialEq, Eq)]
pub enum Part {
    Title,
    Text,
    Label,
    Item,
    Field,
}

impl fmt::Display for Part {
    fn fmt<W: fmt::Write>(&self, f: &mut fmt::Formatter<W>) -> fmt::Result {
        let words = match self {
            Part::Title => "the title",
            Part::Text => "the text",
            Part::Label => "a label",
            Part::Item => "an item",
            Part::Field => "a field",
        };
        write!(f, "{words}")
    }
}

/// Why a box can't be shown.
#[derive(Clone, Copy, Debug, PartialEq, Eq, Error)]
pub enum Unfit {
    #[error("{0} has a character that isn't one column wide")]
    Character(Part),
    #[error("{0} has a tilde")]
    Tilde(Part),
    #[error("{0} has more than 120 characters")]
    Long(Part),
    #[error("a field begins with more than it takes")]
    Start,
    #[error("a field takes no character, or more than 120")]
    Most,
    #[error("there is no item")]
    NoItem,
    #[error("there are more items than can be shown")]
    Items,
    #[error("the box is wider than 132 columns")]
    Width,
    #[error("the box is higher than 58 rows")]
    Height,
    #[error("there are more rows and fields than a box may have")]
    Views,
    #[error("a field lies outside the form or over another one")]
    Places,
}

/// Says what can't be shown of a box with this description: the first of all that can't.
pub(crate) fn why_unfit(request: &Request, desc: &Desc) -> Option<Unfit>
    ensures { result ≡ first (unfit_box request.now desc.now) }
{
    unfit_text(Part::Title, request.title.as_slice())
        .or(unfit_dialogs(desc.dialogs.as_slice()))
        .or(unfit_outside(request, desc))
}

// What else can't be shown, if all texts and views can.
fn unfit_outside(request: &Request, desc: &Desc) -> Option<Unfit>
    ensures { result ≡ first (unfit_screen desc.now.width desc.now.height ++ unfit_places request.now.kind) }
{
    unfit_screen(desc.width, desc.height).or(unfit_places(&request.kind))
}

fn unfit_dialogs(dialogs: &[Dialog]) -> Option<Unfit>
    ensures { result ≡ first (flat_map (λ dialog. unfit_views dialog.views) dialogs.now) }
{
    for dialog in dialogs {
        let found = unfit_dialog(dialog);
        if found.is_some() {
            return found;
        }
    }
    None
}

fn unfit_dialog(dialog: &Dialog) -> Option<Unfit>
    ensures { result ≡ first (unfit_views dialog.now.views) }
{
    unfit_views(dialog.views.as_slice())
}

fn unfit_screen(width: i32, height: i32) -> Option<Unfit>
    ensures { result ≡ first (unfit_screen width height) }
{
    (width > 132)
        .then_some(Unfit::Width)
        .or((height > 60).then_some(Unfit::Height))
}

fn unfit_places(kind: &BoxKind) -> Option<Unfit>
    ensures { result ≡ first (unfit_places kind.now) }
{
    match kind {
        BoxKind::Form(_) => Some(Unfit::Places),
        _ => None,
    }
}

fn unfit_views(views: &[Node]) -> Option<Unfit>
    ensures { result ≡ first (unfit_views views.now) }
{
    unfit_kinds(views).or((views.len() > 64).then_some(Unfit::Views))
}

// What can't be shown of the first view of which something can't.
fn unfit_kinds(views: &[Node]) -> Option<Unfit>
    ensures { result ≡ first (flat_map (λ view. unfit_kind view.kind) views.now) }
{
    for view in views {
        let found = unfit_kind(&view.kind);
        if found.is_some() {
            return found;
        }
    }
    None
}

fn unfit_kind(kind: &Kind) -> Option<Unfit>
    ensures { result ≡ first (unfit_kind kind.now) }
{
    match kind {
        Kind::Text(shown) => unfit_text(Part::Text, shown.text.as_slice()),
        Kind::Button(button) => unfit_marked(Part::Label, &button.text),
        Kind::Input(input) => unfit_input(input.start.as_slice(), input.spec.max),
        Kind::CheckBoxes(boxes) => unfit_items(boxes.items.as_slice()),
        Kind::RadioButtons(radios) => unfit_items(radios.items.as_slice()),
        Kind::List(list) => unfit_rows(list.items.as_slice()),
        _ => None,
    }
}

fn unfit_text(part: Part, text: &[char]) -> Option<Unfit>
    ensures { result ≡ first (unfit_text part text.now) }
{
    has_wide(text)
        .then_some(Unfit::Character(part))
        .or((text.len() > 120).then_some(Unfit::Long(part)))
}

fn has_wide(text: &[char]) -> bool
    ensures { result ≡ list_any (λ ch. not (is_narrow ch)) text.now }
{
    text.iter().any(|ch| !is_narrow(*ch))
}

fn unfit_marked(part: Part, marked: &MarkedText) -> Option<Unfit>
    ensures { result ≡ first (unfit_marked part marked.now) }
{
    let text = marked.text.as_slice();
    has_tilde(text)
        .then_some(Unfit::Tilde(part))
        .or(unfit_text(part, text))
}

fn has_tilde(text: &[char]) -> bool
    ensures { result ≡ list_any (λ ch. ch == 126) text.now }
{
    text.iter().any(|ch| *ch == '~')
}

fn unfit_input(start: &[char], most: i32) -> Option<Unfit>
    ensures { result ≡ first (unfit_input start.now most) }
{
    unfit_most(most).or(unfit_start(start, most))
}

fn unfit_most(most: i32) -> Option<Unfit>
    ensures { result ≡ first (unfit_most most) }
{
    (most < 1)
        .then_some(Unfit::Most)
        .or((most > 120).then_some(Unfit::Most))
}

fn unfit_start(start: &[char], most: i32) -> Option<Unfit>
    ensures { result ≡ first (unfit_start start.now most) }
{
    (start.len() > natural(&most) as usize)
        .then_some(Unfit::Start)
        .or(unfit_text(Part::Field, start))
}

fn unfit_items(items: &[MarkedText]) -> Option<Unfit>
    ensures { result ≡ first (unfit_items items.now) }
{
    unfit_labels(items).or(unfit_count(items.len(), 16))
}

fn unfit_labels(items: &[MarkedText]) -> Option<Unfit>
    ensures { result ≡ first (flat_map (unfit_marked parts.Item) items.now) }
{
    for item in items {
        let found = unfit_marked(Part::Item, item);
        if found.is_some() {
            return found;
        }
    }
    None
}

fn unfit_rows(items: &[Chars]) -> Option<Unfit>
    ensures { result ≡ first (unfit_rows items.now) }
{
    unfit_texts(items).or(unfit_count(items.len(), 100))
}

fn unfit_texts(items: &[Chars]) -> Option<Unfit>
    ensures { result ≡ first (flat_map (unfit_text parts.Item) items.now) }
{
    for item in items {
        let found = unfit_text(Part::Item, item.as_slice());
        if found.is_some() {
            return found;
        }
    }
    None
}

fn unfit_count(count: usize, most: usize) -> Option<Unfit>
    ensures { result ≡ first (unfit_count count most) }
{
    (count == 0)
        .then_some(Unfit::NoItem)
        .or((count > most).then_some(Unfit::Items))
}
