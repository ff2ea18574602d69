//! Marks of a letter that was marked before: F4, and F17 of menus.

ghost use Rattle.std.specs.Prelude.{◌≡◌, nat_eq, option_copied};
ghost use Rattle.std.specs.HashSet as set;
ghost use Rattle.std.specs.Option.{option_map};
ghost use Rattle.std.specs.List.{list_any};
ghost use Rattle.tv_model.specs.Description.Letters.{marked_of};
ghost use Rattle.tv_model.specs.Description.Marks.{shares_letter};
ghost use Rattle.tv_explain.specs.Letters.{item_line, item_why, is_given, letter_line, first_marking, first_marker, title_line, title_why};

use crate::why::{Reason, Why};
use std::collections::HashSet;
use tv_model::{MarkedText, Menu, MenuItem, Node};
use tv_names::{marked_of, marks_any};

// Whether the first text marks a letter, and the second one marks it too.
fn shares_letter(text: &MarkedText, other: &MarkedText) -> bool
    ensures { result ≡ shares_letter text.now other.now }
{
    match text.letter() {
        Some(letter) => other.marks(letter),
        None => false,
    }
}

// Whether one of the texts marks the letter of the first.
fn is_marked_in(text: &MarkedText, texts: &[MarkedText]) -> bool
    ensures { result ≡ list_any (shares_letter text.now) texts.now }
{
    texts.iter().any(|other| shares_letter(text, other))
}

// The first view that marks the text's letter.
fn marker_of<'a>(views: &'a [Node], text: &MarkedText) -> Option<&'a Node>
    ensures { option_copied result ≡ first_marker views.now text.now }
{
    views
        .iter()
        .find(|other| is_marked_in(text, marked_of(&other.kind)))
}

// The line that marked the text's letter first: one before, or this one.
fn marked_first(before: &[Node], own: u32, text: &MarkedText) -> u32
    ensures { result ≡ first_marking before.now own text.now }
{
    match marker_of(before, text) {
        Some(other) => other.id.0,
        None => own,
    }
}

// Whether one of the views marks the text's letter.
fn is_marked_by(views: &[Node], text: &MarkedText) -> bool
    ensures { result ≡ list_any (λ other. list_any (shares_letter text.now) (marked_of other.kind)) views.now }
{
    views
        .iter()
        .any(|other| is_marked_in(text, marked_of(&other.kind)))
}

// Whether a view before or a text before marks the text's letter.
fn is_given(before: &[Node], earlier: &[MarkedText], text: &MarkedText) -> bool
    ensures { result ≡ is_given before.now earlier.now text.now }
{
    is_marked_by(before, text) || is_marked_in(text, earlier)
}

/// Finds the line that first marked a letter which the view marks again, where these letters may be shared.
pub fn letter_line(shared: &HashSet<char>, before: &[Node], node: &Node) -> Option<u32>
    ensures { result ≡ letter_line (set.contains nat_eq shared.now) before.now node.now }
{
    let texts = marked_of(&node.kind);
    for (i, text) in texts.iter().enumerate() {
        if is_given(before, &texts[..i], text) && !marks_any(shared, text) {
            return Some(marked_first(before, node.id.0, text));
        }
    }
    None
}

// The menu that marked the title's letter.
fn title_line(before: &[Menu], menu: &Menu) -> Option<u32>
    ensures { result ≡ title_line before.now menu.now }
{
    let other = before
        .iter()
        .find(|other| shares_letter(&menu.title, &other.title));
    other.map(|other| other.id.0)
}

/// Tells which title marked the menu's letter.
pub fn title_why(before: &[Menu], menu: &Menu) -> Why
    ensures { result ≡ title_why before.now menu.now }
{
    Why::because(Reason::TitleTwice, title_line(before, menu))
}

// The item that marked the item's letter.
fn item_line(before: &[MenuItem], item: &MenuItem) -> Option<u32>
    ensures { result ≡ item_line before.now item.now }
{
    let other = before
        .iter()
        .find(|other| shares_letter(&item.text, &other.text));
    other.map(|other| other.id.0)
}

/// Tells which item marked the item's letter.
pub fn item_why(before: &[MenuItem], item: &MenuItem) -> Why
    ensures { result ≡ item_why before.now item.now }
{
    Why::because(Reason::ItemTwice, item_line(before, item))
}
