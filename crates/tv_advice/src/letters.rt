//! What is told of letters, keys and numbers: F4, F5 and F17.

use crate::naming::key_text;
use crate::saying::{LinePart, Saying};
use std::alloc::{AllocError, Global};
use std::collections::HashSet;
use tv_event::Key;
use tv_explain::Reason;
use tv_model::{Dialog, MarkedText, Menu, MenuItem, Node, StatusItem, Version, Window};
use tv_names::{marked_of, shared_letters};

/// The letters that the views of a dialog mark.
#[derive(Drop)]
pub struct Letters {
    marked: HashSet<char>,
    /// Those that they share lawfully: in version 1 there are none.
    shared: HashSet<char>,
}

impl Letters {
    /// Collects the letters of a dialog.
    pub fn new(alloc: Global, version: Version, dialog: &Dialog) -> Result<Letters, AllocError> {
        let views = dialog.views.as_slice();
        let rules = match version {
            Version::One => None,
            Version::Two => Some(dialog.rules.as_slice()),
        };
        Ok(Letters {
            marked: marked_letters(alloc, views)?,
            shared: shared_letters(alloc, views, rules)?,
        })
    }
}

// The letters that the views mark.
fn marked_letters(alloc: Global, views: &[Node]) -> Result<HashSet<char>, AllocError> {
    let mut marked = HashSet::new(alloc);
    for view in views {
        for text in marked_of(&view.kind) {
            if let Some(letter) = text.letter() {
                marked.insert(letter)?;
            }
        }
    }
    Ok(marked)
}

// The letter of the node that the other one marks too, and may not. Where it is one line, it is a letter that it marks twice.
fn letter_marked_again(letters: &Letters, node: &Node, other: &Node) -> Option<char> {
    let texts = marked_of(&node.kind);
    for (i, text) in texts.iter().enumerate() {
        if let Some(letter) = text.letter() {
            let others = if node.id == other.id {
                &texts[..i]
            } else {
                marked_of(&other.kind)
            };
            let is_marked = others.iter().any(|text| text.marks(letter));
            if is_marked && !letters.shared.contains(&letter) {
                return Some(letter);
            }
        }
    }
    None
}

// The text of the node that marks the letter, the last such.
fn marking(node: &Node, letter: char) -> Option<&MarkedText> {
    let texts = marked_of(&node.kind);
    texts.iter().rev().find(|text| text.marks(letter))
}

// The letters and digits of the text that neither a view marks nor a status item has, in upper case, with commas between.
fn free_letters(
    alloc: Global,
    letters: &Letters,
    status: &HashSet<char>,
    text: &[char],
) -> Result<String, AllocError> {
    let mut free = Vec::new(alloc);
    for ch in text {
        let letter = ch.to_ascii_uppercase();
        let is_taken = letters.marked.contains(&letter) || status.contains(&letter);
        if ch.is_ascii_alphanumeric() && !is_taken && !free.contains(&letter) {
            free.push(letter)?;
        }
    }
    let mut told = String::new(alloc);
    for letter in &free {
        if !told.is_empty() {
            told.push_str(", ")?;
        }
        told.push(*letter)?;
    }
    Ok(told)
}

// How to mend a letter that is marked twice.
fn letter_mend(
    alloc: Global,
    letters: &Letters,
    status: &HashSet<char>,
    text: &MarkedText,
) -> Result<String, AllocError> {
    let free = free_letters(alloc, letters, status, text.text.as_slice())?;
    if free.is_empty() {
        String::from_str(alloc, "mark none")
    } else {
        format!(in alloc; "mark another letter or none; free here: {free}")
    }
}

/// Tells which letter a view marks again that the other one marks.
pub fn letter_again(
    alloc: Global,
    letters: &Letters,
    status: &HashSet<char>,
    node: &Node,
    other: &Node,
) -> Result<Saying, AllocError> {
    let letter = letter_marked_again(letters, node, other).unwrap_or('?');
    let mend = match marking(node, letter) {
        Some(text) => letter_mend(alloc, letters, status, text)?,
        None => String::from_str(alloc, "mark another letter or none")?,
    };
    let message = format!(in alloc; "the letter {letter} is marked twice in this dialog")?;
    let part = LinePart::LastMark(letter);
    let saying = Saying::new(alloc, &message, part, "marked again here", &mend)?;
    let label = format!(in alloc; "Alt-{letter} is this one's")?;
    saying.with_other(alloc, LinePart::FirstMark(letter), &label)
}

// The letter or digit of a key with Alt.
fn alt_letter(key: Key) -> char {
    match key {
        Key::Alt(ch) => ch,
        _ => '?',
    }
}

/// What the key of a status item means already, or that it is given before.
#[derive(Clone, Copy)]
struct Clash {
    /// What is said before the key, and behind it.
    words: (&'static str, &'static str),
    label: &'static str,
    /// Where the other line shows the key, and what is said of it.
    other: (LinePart, &'static str),
}

const FIRST: &str = "status keys come before all others";

// What a key means already, if a status item could have it otherwise.
fn clash_of(key: Key, reason: Reason) -> Option<Clash> {
    let mark = LinePart::FirstMark(alt_letter(key));
    Some(match reason {
        Reason::DialogLetter => Clash {
            words: ("", "is a shortcut of a dialog"),
            label: FIRST,
            other: (mark, "this one shows the letter"),
        },
        Reason::TitleLetter => Clash {
            words: ("", "opens a menu"),
            label: FIRST,
            other: (mark, "this menu shows the letter"),
        },
        Reason::WindowDigit => Clash {
            words: ("", "brings a window to the front"),
            label: FIRST,
            other: (LinePart::word(6), "the window's number"),
        },
        Reason::KeyTwice => Clash {
            words: ("the key ", "is given twice"),
            label: "given again here",
            other: (LinePart::word(2), "this one has the key"),
        },
        _ => return None,
    })
}

// A key that means something else, or is given before.
fn taken_key(alloc: Global, key: &str, clash: Clash) -> Result<Saying, AllocError> {
    let Clash {
        words: (before, behind),
        label,
        other: (part, shown),
    } = clash;
    let message = format!(in alloc; "{before}{key} {behind}")?;
    let mend = "take a key that means nothing else";
    let saying = Saying::new(alloc, &message, LinePart::word(2), label, mend)?;
    saying.with_other(alloc, part, shown)
}

// A key that no status item can have.
fn unfit_key(alloc: Global, key: &str) -> Result<Saying, AllocError> {
    let message = format!(in alloc; "a status item can't have {key}")?;
    let label = "this key belongs to dialogs";
    let mend = "take F1 to F12, Ctrl with a letter but Y, or Alt with a letter or digit";
    Saying::new(alloc, &message, LinePart::word(2), label, mend)
}

/// Tells why a status item can't have its key.
pub fn status_key(alloc: Global, item: &StatusItem, reason: Reason) -> Result<Saying, AllocError> {
    let key = key_text(alloc, item.key)?;
    match clash_of(item.key, reason) {
        Some(clash) => taken_key(alloc, &key, clash),
        None => unfit_key(alloc, &key),
    }
}

/// Tells which letter the menu's title marks again.
pub fn title_again(alloc: Global, menu: &Menu) -> Result<Saying, AllocError> {
    let letter = menu.title.letter().unwrap_or('?');
    let message = format!(in alloc; "the letter {letter} is marked by two menus")?;
    let part = LinePart::LastMark(letter);
    let mend = "mark another letter of the title or none";
    let saying = Saying::new(alloc, &message, part, "marked again here", mend)?;
    let label = format!(in alloc; "Alt-{letter} opens this one")?;
    saying.with_other(alloc, LinePart::FirstMark(letter), &label)
}

/// Tells which letter the item marks again.
pub fn item_again(alloc: Global, item: &MenuItem) -> Result<Saying, AllocError> {
    let letter = item.text.letter().unwrap_or('?');
    let message = format!(in alloc; "the letter {letter} is marked twice in this menu")?;
    let part = LinePart::LastMark(letter);
    let mend = "mark another letter of the item or none";
    let saying = Saying::new(alloc, &message, part, "marked again here", mend)?;
    let label = format!(in alloc; "{letter} chooses this one")?;
    saying.with_other(alloc, LinePart::FirstMark(letter), &label)
}

/// Tells which number the window has again.
pub fn number_again(alloc: Global, window: &Window) -> Result<Saying, AllocError> {
    let number = window.head().number;
    let message = format!(in alloc; "two windows have the number {number}")?;
    let part = LinePart::word(6);
    let mend = "give it another number, or 0 for none";
    let saying = Saying::new(alloc, &message, part, "given again here", mend)?;
    let label = format!(in alloc; "Alt-{number} brings this one to the front")?;
    saying.with_other(alloc, part, &label)
}

/// Tells that a rule can't speak of its command.
pub fn rules_cancel(alloc: Global) -> Result<Saying, AllocError> {
    Saying::new(
        alloc,
        "no rule may disable the way out of a dialog",
        LinePart::word(1),
        "a dialog can always be left by this",
        "drop the rule, or let it speak of another command",
    )
}
