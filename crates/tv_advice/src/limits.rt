//! What is told of the limits: F15.

use crate::inputs::domain_words;
use crate::naming::{with_article, word_of, x_word};
use crate::saying::{LinePart, Saying};
use std::alloc::{AllocError, Global};
use tv_explain::Reason;
use tv_model::{Input, Kind, MarkedText, Node};
use tv_valid::{Chars, DomainSpec};

/// Tells what sizes a screen may have.
pub fn screen_size(alloc: Global) -> Result<Saying, AllocError> {
    let message = "a screen can't have this size";
    let part = LinePart::Words { first: 1, count: 2 };
    let label = "20 to 132 columns, and 10 to 60 rows";
    Saying::new(alloc, message, part, label, "take numbers within these")
}

// Tells how many of a thing there may be.
fn too_many(alloc: Global, what: &str, label: &str) -> Result<Saying, AllocError> {
    let message = format!(in alloc; "this {what} is one too many")?;
    Saying::new(
        alloc,
        &message,
        LinePart::word(0),
        label,
        "drop some of them",
    )
}

// Tells which numbers a command may have, the command being this word of its line.
fn command_number(alloc: Global, at: usize) -> Result<Saying, AllocError> {
    let message = "this number is no command";
    let label = "a command's number is 100 to 255";
    Saying::new(
        alloc,
        message,
        LinePart::word(at),
        label,
        "take a number from 100 to 255",
    )
}

// Tells how long a text may be, this being the word that is too long.
fn text_length(alloc: Global, what: &str, at: usize) -> Result<Saying, AllocError> {
    let message = format!(in alloc; "{what} is too long")?;
    let label = "a text has at most 120 characters";
    Saying::new(
        alloc,
        &message,
        LinePart::word(at),
        label,
        "write a shorter one",
    )
}

fn corner(alloc: Global, node: &Node) -> Result<Saying, AllocError> {
    let word = word_of(&node.kind);
    let message = format!(in alloc; "this {word} stands too far off")?;
    let part = LinePart::Words {
        first: x_word(&node.kind),
        count: 2,
    };
    let label = "a corner stands at -132 to 132";
    Saying::new(alloc, &message, part, label, "take numbers within these")
}

// The widths that a node may have.
fn widths(kind: &Kind) -> &'static str {
    match kind {
        Kind::Window(_) | Kind::Dialog(_) => "12 to 132",
        Kind::Button(_) => "4 to 132",
        Kind::Input(_) => "3 to 132",
        Kind::CheckBoxes(_) | Kind::RadioButtons(_) => "5 to 132",
        Kind::Text(_) | Kind::Label(_) | Kind::List(_) | Kind::Pane(_) => "1 to 132",
    }
}

fn width(alloc: Global, node: &Node) -> Result<Saying, AllocError> {
    let word = word_of(&node.kind);
    let (w, widths) = (node.w, widths(&node.kind));
    let message = format!(in alloc; "this {word} can't be {w} wide")?;
    let one = with_article(&node.kind);
    let label = format!(in alloc; "{one} is {widths} columns wide")?;
    let part = LinePart::word(x_word(&node.kind).saturating_add(2));
    Saying::new(alloc, &message, part, &label, "take a width within these")
}

// The heights that a node may have.
fn heights(kind: &Kind) -> &'static str {
    match kind {
        Kind::Window(_) | Kind::Dialog(_) => "3 to 60",
        _ => "1 to 60",
    }
}

fn height(alloc: Global, node: &Node) -> Result<Saying, AllocError> {
    let word = word_of(&node.kind);
    let heights = heights(&node.kind);
    let message = format!(in alloc; "this {word} can't be so high")?;
    let label = format!(in alloc; "a {word} is {heights} rows high")?;
    let part = LinePart::word(x_word(&node.kind).saturating_add(3));
    Saying::new(alloc, &message, part, &label, "take a height within these")
}

fn items(alloc: Global, node: &Node) -> Result<Saying, AllocError> {
    let word = word_of(&node.kind);
    let (label, further) = match &node.kind {
        Kind::List(_) => ("a list has 1 to 100 items", 106),
        _ => ("a cluster has 1 to 16 items", 21),
    };
    let message = format!(in alloc; "this {word} has too many items")?;
    Saying::new(
        alloc,
        &message,
        LinePart::word(further),
        label,
        "drop some of them",
    )
}

fn too_many_nodes(alloc: Global, node: &Node) -> Result<Saying, AllocError> {
    let label = match &node.kind {
        Kind::Window(_) => "there may be 9 windows",
        Kind::Dialog(_) => "there may be 16 dialogs",
        _ => "there may be 64 views of a window or dialog",
    };
    too_many(alloc, word_of(&node.kind), label)
}

fn amount(alloc: Global, node: &Node) -> Result<Saying, AllocError> {
    match &node.kind {
        Kind::Window(head) => {
            let number = head.number;
            let message = format!(in alloc; "a window can't have the number {number}")?;
            let label = "1 to 9, or 0 for none";
            Saying::new(
                alloc,
                &message,
                LinePart::word(6),
                label,
                "take a number from 0 to 9",
            )
        }
        Kind::Input(input) => {
            let max = input.spec.max;
            let message = format!(in alloc; "an input can't have {max} characters")?;
            let label = "1 to 120 characters";
            Saying::new(
                alloc,
                &message,
                LinePart::word(5),
                label,
                "take a number from 1 to 120",
            )
        }
        _ => too_many_nodes(alloc, node),
    }
}

fn is_too_long(text: &Chars) -> bool {
    text.as_slice().len() > 120
}

// The place of the first item that is too long.
fn long_item(items: &[Chars]) -> usize {
    items.iter().position(is_too_long).unwrap_or(0)
}

// The same of items that may mark letters.
fn long_marked(items: &[MarkedText]) -> usize {
    let place = items.iter().position(|item| is_too_long(&item.text));
    place.unwrap_or(0)
}

// The word with the filter, the picture or the first text that is too long.
fn input_word(input: &Input) -> usize {
    match &input.spec.domain {
        DomainSpec::Filter(text) | DomainSpec::Picture(text) if is_too_long(text) => 7,
        _ => domain_words(&input.spec).saturating_add(6),
    }
}

// The word with the first text of a node that is too long.
fn text_word(kind: &Kind) -> usize {
    match kind {
        Kind::Window(_) => 7,
        Kind::Dialog(_) => 6,
        Kind::Text(_) | Kind::Button(_) => 5,
        Kind::Label(_) => 4,
        Kind::CheckBoxes(boxes) => long_marked(boxes.items.as_slice()).saturating_add(5),
        Kind::RadioButtons(radios) => long_marked(radios.items.as_slice()).saturating_add(5),
        Kind::List(list) => long_item(list.items.as_slice()).saturating_add(6),
        Kind::Input(input) => input_word(input),
        Kind::Pane(_) => 0,
    }
}

// Tells that a text of a node is too long.
fn node_text(alloc: Global, node: &Node) -> Result<Saying, AllocError> {
    let at = text_word(&node.kind);
    if let Kind::Text(_) = &node.kind {
        return text_length(alloc, "this text", at);
    }
    let word = word_of(&node.kind);
    let what = format!(in alloc; "a text of this {word}")?;
    text_length(alloc, &what, at)
}

fn nested(alloc: Global) -> Result<Saying, AllocError> {
    let message = "this pane stands in too many panes";
    let label = "there may be 4 panes around one another";
    Saying::new(
        alloc,
        message,
        LinePart::word(0),
        label,
        "put it into one pane less",
    )
}

/// Tells what of a window, a dialog or a view is outside the limits.
pub fn node_outside(alloc: Global, node: &Node, reason: Reason) -> Result<Saying, AllocError> {
    match reason {
        Reason::Items => items(alloc, node),
        Reason::Corner => corner(alloc, node),
        Reason::Width => width(alloc, node),
        Reason::Height => height(alloc, node),
        Reason::Amount => amount(alloc, node),
        Reason::CommandNumber => command_number(alloc, 6),
        Reason::TextLength => node_text(alloc, node),
        Reason::Nested => nested(alloc),
        _ => too_many_nodes(alloc, node),
    }
}

/// A declaration that is no node.
#[derive(Clone, Copy)]
pub enum Line {
    Menu,
    Item,
    Status,
    Rule,
}

impl Line {
    /// Returns what it is called.
    pub fn word(self) -> &'static str {
        match self {
            Line::Menu => "menu",
            Line::Item => "item",
            Line::Status => "status item",
            Line::Rule => "rule",
        }
    }

    // How many there may be.
    fn most(self) -> &'static str {
        match self {
            Line::Menu => "there may be 8 menus of the bar",
            Line::Item => "there may be 16 items of a menu",
            Line::Status => "there may be 8 items of the status line",
            Line::Rule => "there may be 64 rules of a dialog",
        }
    }

    // The word that is its command.
    fn command_word(self) -> usize {
        match self {
            Line::Menu | Line::Rule => 1,
            Line::Item => 2,
            Line::Status => 3,
        }
    }
}

/// Tells what of a menu, an item or a rule is outside the limits. Its text, if any, is its first word.
pub fn line_outside(alloc: Global, line: Line, reason: Reason) -> Result<Saying, AllocError> {
    match reason {
        Reason::CommandNumber => command_number(alloc, line.command_word()),
        Reason::TextLength => {
            let what = format!(in alloc; "a text of this {}", line.word())?;
            text_length(alloc, &what, 1)
        }
        _ => too_many(alloc, line.word(), line.most()),
    }
}
