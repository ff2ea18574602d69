//! Keys of status items, and numbers of windows: F5, and F17 of windows.

ghost use Rattle.std.specs.Prelude.{◌≡◌, find, option_copied};
ghost use Rattle.std.specs.List.{list_any};
ghost use Rattle.std.specs.Ordering.{int_eq};
ghost use Rattle.tv_model.specs.Description.Heads.{window_head};
ghost use Rattle.tv_model.specs.Description.Letters.{marked_of};
ghost use Rattle.tv_model.specs.Description.Marks.{marks};
ghost use Rattle.tv_model.specs.Faults.Letters.{is_window_digit};
ghost use Rattle.tv_explain.specs.Keys.{digit_line, key_holder, key_why, marker_line, number_line, number_why, shortcut_line, taken_why, menu_marking};

use crate::lines::line_of;
use crate::why::{Reason, Why};
use tv_event::Key;
use tv_model::{Desc, Dialog, MarkedText, Menu, Node, StatusItem, Window, is_same_key};
use tv_names::{is_status_key, marked_of};

// Whether one of the texts marks the letter.
fn is_marked(letter: char, texts: &[MarkedText]) -> bool
    ensures { result ≡ list_any (marks letter) texts.now }
{
    texts.iter().any(|text| text.marks(letter))
}

// The first view that marks the letter.
fn marker(letter: char, views: &[Node]) -> Option<&Node>
    ensures { option_copied result ≡ find (λ node. list_any (marks letter) (marked_of node.kind)) views.now }
{
    views
        .iter()
        .find(|node| is_marked(letter, marked_of(&node.kind)))
}

// The first line of these views that marks the letter.
fn marker_line(letter: char, views: &[Node]) -> Option<u32>
    ensures { result ≡ marker_line letter views.now }
{
    line_of(marker(letter, views))
}

// The first line of the dialogs that marks the letter.
fn shortcut_line(letter: char, dialogs: &[Dialog]) -> Option<u32>
    ensures { result ≡ shortcut_line letter dialogs.now }
{
    for dialog in dialogs {
        let line = marker_line(letter, dialog.views.as_slice());
        if line.is_some() {
            return line;
        }
    }
    None
}

// The first menu whose title marks the letter.
fn title_line(letter: char, menus: &[Menu]) -> Option<u32>
    ensures { result ≡ menu_marking letter menus.now }
{
    let menu = menus.iter().find(|menu| menu.title.marks(letter));
    menu.map(|menu| menu.id.0)
}

// Whether the digit, 1 to 9, is the window's number.
fn is_window_digit(digit: char, window: &Window) -> bool
    ensures { result ≡ is_window_digit digit window.now }
{
    match digit {
        '1'..='9' => window.head().number == digit as i32 - '0' as i32,
        _ => false,
    }
}

// The first window of the digit.
fn digit_line(digit: char, windows: &[Window]) -> Option<u32>
    ensures { result ≡ digit_line digit windows.now }
{
    let window = windows.iter().find(|window| is_window_digit(digit, window));
    window.map(|window| window.node.id.0)
}

// The first of the status items that has the key.
fn key_line(before: &[StatusItem], key: Key) -> Option<u32>
    ensures { result ≡ key_holder before.now key }
{
    let item = before.iter().find(|item| is_same_key(item.key, key));
    item.map(|item| item.id.0)
}

// What the key does elsewhere, before what remains.
fn taken_why(desc: &Desc, key: Key, rest: Why) -> Why
    ensures { result ≡ taken_why desc.now key rest }
{
    let Key::Alt(ch) = key else {
        return rest;
    };
    let shortcut = shortcut_line(ch, desc.dialogs.as_slice());
    if shortcut.is_some() {
        return Why::because(Reason::DialogLetter, shortcut);
    }
    let title = title_line(ch, desc.menus.as_slice());
    if title.is_some() {
        return Why::because(Reason::TitleLetter, title);
    }
    let window = digit_line(ch, desc.windows.as_slice());
    if window.is_some() {
        return Why::because(Reason::WindowDigit, window);
    }
    rest
}

/// Tells why a status item can't have its key.
pub fn key_why(desc: &Desc, before: &[StatusItem], item: &StatusItem) -> Why
    ensures { result ≡ key_why desc.now before.now item.now }
{
    if !is_status_key(item.key) {
        return Why::because(Reason::NoStatusKey, None);
    }
    let again = Why::because(Reason::KeyTwice, key_line(before, item.key));
    taken_why(desc, item.key, again)
}

// Whether it is the window's number.
fn has_number(number: i32, window: &Window) -> bool
    ensures { result ≡ int_eq (window_head window.now).number number }
{
    window.head().number == number
}

// The window that has the number.
fn number_line(before: &[Window], window: &Window) -> Option<u32>
    ensures { result ≡ number_line before.now window.now }
{
    let number = window.head().number;
    let other = before.iter().find(|other| has_number(number, other));
    other.map(|other| other.node.id.0)
}

/// Tells which window has the window's number.
pub fn number_why(before: &[Window], window: &Window) -> Why
    ensures { result ≡ number_why before.now window.now }
{
    Why::because(Reason::NumberTwice, number_line(before, window))
}
