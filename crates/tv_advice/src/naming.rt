//! How things are called.

use std::alloc::{AllocError, Global};
use tv_event::Key;
use tv_model::{CommandSpec, Kind, Node};

/// Returns the word for what a node is.
pub fn word_of(kind: &Kind) -> &'static str {
    match kind {
        Kind::Window(_) => "window",
        Kind::Dialog(_) => "dialog",
        Kind::Text(_) => "text",
        Kind::Label(_) => "label",
        Kind::Button(_) => "button",
        Kind::Input(_) => "input",
        Kind::CheckBoxes(_) | Kind::RadioButtons(_) => "cluster",
        Kind::List(_) => "list",
        Kind::Pane(_) => "pane",
    }
}

/// Returns the word for what a node is, after its article.
pub fn with_article(kind: &Kind) -> &'static str {
    match kind {
        Kind::Window(_) => "a window",
        Kind::Dialog(_) => "a dialog",
        Kind::Text(_) => "a text",
        Kind::Label(_) => "a label",
        Kind::Button(_) => "a button",
        Kind::Input(_) => "an input",
        Kind::CheckBoxes(_) | Kind::RadioButtons(_) => "a cluster",
        Kind::List(_) => "a list",
        Kind::Pane(_) => "a pane",
    }
}

/// Returns how to say one of so many items.
pub fn one_of_items(alloc: Global, count: usize) -> Result<String, AllocError> {
    if count == 1 {
        String::from_str(alloc, "take item 1")
    } else {
        format!(in alloc; "take an item from 1 to {count}")
    }
}

/// Returns characters as a text.
pub fn text_of(alloc: Global, chars: &[char]) -> Result<String, AllocError> {
    let mut text = String::new(alloc);
    for ch in chars {
        text.push(*ch)?;
    }
    Ok(text)
}

/// Returns the name that a node gives, or an empty text.
pub fn name_of(alloc: Global, node: &Node) -> Result<String, AllocError> {
    match node.kind.name() {
        Some(name) => text_of(alloc, name.as_slice()),
        None => Ok(String::new(alloc)),
    }
}

/// Returns what a node is, with its name where it has one: the button `ok`.
pub fn called(alloc: Global, node: &Node) -> Result<String, AllocError> {
    let word = word_of(&node.kind);
    match node.kind.name() {
        Some(name) => {
            let name = text_of(alloc, name.as_slice())?;
            format!(in alloc; "the {word} `{name}`")
        }
        None => format!(in alloc; "a {word}"),
    }
}

/// Returns the key as a status line has it.
pub fn key_text(alloc: Global, key: Key) -> Result<String, AllocError> {
    match key {
        Key::Alt(ch) => format!(in alloc; "Alt-{ch}"),
        Key::Ctrl(ch) => format!(in alloc; "Ctrl-{ch}"),
        Key::Function(number) => format!(in alloc; "F{number}"),
        _ => String::from_str(alloc, "this key"),
    }
}

/// Returns the command as a description names it.
pub fn command_text(alloc: Global, command: CommandSpec) -> Result<String, AllocError> {
    let word = match command {
        CommandSpec::Quit => "quit",
        CommandSpec::Menu => "menu",
        CommandSpec::Close => "close",
        CommandSpec::Next => "next",
        CommandSpec::Ok => "ok",
        CommandSpec::Cancel => "cancel",
        CommandSpec::Yes => "yes",
        CommandSpec::No => "no",
        CommandSpec::Number(number) => return format!(in alloc; "{number}"),
    };
    String::from_str(alloc, word)
}

/// Returns the word of a node's line that has its column: what has no name begins with it.
pub fn x_word(kind: &Kind) -> usize {
    match kind {
        Kind::Text(_) | Kind::Label(_) => 1,
        _ => 2,
    }
}
