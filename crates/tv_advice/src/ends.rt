//! What is told of the focus, ends, default buttons and openings: F9 to F11 and F16.

use crate::naming::{command_text, name_of, text_of};
use crate::nearest::{Nearest, Unknown};
use crate::saying::{LinePart, Saying};
use std::alloc::{AllocError, Global};
use tv_explain::{Reason, Why};
use tv_model::{Desc, Kind, Node};

/// Tells why a dialog may have nothing to focus.
pub fn nothing_to_focus(alloc: Global, why: Why) -> Result<Saying, AllocError> {
    let part = LinePart::Words { first: 0, count: 2 };
    if why.reason != Reason::AllReached {
        let message = "this dialog has no control to focus";
        let mend = "give it a button, an input, a cluster or a list";
        return Saying::new(alloc, message, part, "keys have nowhere to go", mend);
    }
    let message = "rules may leave this dialog without a control to focus";
    let label = "rules reach each of its controls";
    let mend = "leave one control that no rule shows or enables";
    let saying = Saying::new(alloc, message, part, label, mend)?;
    saying.with_other(alloc, part, "this one reaches the first")
}

// The word after the title and the opening command: `ends`.
fn ends_word(node: &Node) -> usize {
    match &node.kind {
        Kind::Dialog(head) if head.opens.is_some() => 9,
        _ => 7,
    }
}

/// Tells that a dialog lacks `cancel`.
pub fn lacks_cancel(alloc: Global, node: &Node) -> Result<Saying, AllocError> {
    Saying::new(
        alloc,
        "this dialog can't be cancelled",
        LinePart::word(ends_word(node)),
        "`cancel` is missing: Esc and the close mark end a dialog by it",
        "write `cancel` behind `ends`: the order is ok, cancel, yes, no",
    )
}

/// Tells which end a button's dialog lacks.
pub fn lacks_end(alloc: Global, node: &Node, dialog: &Node) -> Result<Saying, AllocError> {
    let command = match &node.kind {
        Kind::Button(button) => command_text(alloc, button.command)?,
        _ => String::new(alloc),
    };
    let message = format!(in alloc; "this dialog doesn't end by `{command}`")?;
    let label = "pressed, the button would do nothing";
    let mend = format!(in alloc;
        "write `{command}` behind `ends`: the order is ok, cancel, yes, no"
    )?;
    let saying = Saying::new(alloc, &message, LinePart::word(6), label, &mend)?;
    saying.with_other(
        alloc,
        LinePart::word(ends_word(dialog)),
        "the dialog's ends",
    )
}

/// Tells which button is the default already.
pub fn second_default(alloc: Global) -> Result<Saying, AllocError> {
    let message = "this dialog has two default buttons";
    let part = LinePart::word(7);
    let mend = "take `default` from one of the two";
    let saying = Saying::new(alloc, message, part, "a second one", mend)?;
    saying.with_other(alloc, part, "Enter presses this one")
}

// The command that opens a dialog.
fn opening_of(node: &Node) -> i32 {
    match &node.kind {
        Kind::Dialog(head) => head.opens.unwrap_or(0),
        _ => 0,
    }
}

fn opening_again(alloc: Global, number: i32) -> Result<Saying, AllocError> {
    let message = format!(in alloc; "command {number} opens another dialog already")?;
    let part = LinePart::word(8);
    let mend = "give it a command of its own, 100 to 255";
    let saying = Saying::new(alloc, &message, part, "given again here", mend)?;
    saying.with_other(alloc, part, "this dialog has the command")
}

/// Tells why a dialog's command can't open it.
pub fn bad_opening(alloc: Global, node: &Node, why: Why) -> Result<Saying, AllocError> {
    let number = opening_of(node);
    if why.reason == Reason::OpeningTwice {
        return opening_again(alloc, number);
    }
    let message = format!(in alloc; "command {number} can't open a dialog")?;
    let label = "a command's number is 100 to 255";
    let mend = "take a number from 100 to 255";
    Saying::new(alloc, &message, LinePart::word(8), label, mend)
}

fn dialog_names(alloc: Global, desc: &Desc) -> Result<Vec<String>, AllocError> {
    let mut names = Vec::new(alloc);
    for dialog in desc.dialogs.as_slice() {
        names.push(name_of(alloc, &dialog.node)?)?;
    }
    Ok(names)
}

// The place among these names of the one that is nearest to this.
fn nearest_place(alloc: Global, names: &[String], name: &str) -> Result<Option<usize>, AllocError> {
    let unknown = Unknown::new(alloc, name)?;
    let mut nearest = Nearest::none();
    for (place, name) in names.iter().enumerate() {
        nearest = unknown.compare(alloc, nearest, place, name)?;
    }
    Ok(nearest.place)
}

// How to mend a start that names no dialog: by the name of one that is near to it, or so.
fn start_mend(alloc: Global, desc: &Desc, name: &str) -> Result<String, AllocError> {
    let names = dialog_names(alloc, desc)?;
    let found = match nearest_place(alloc, &names, name)? {
        Some(place) => names.get(place),
        None => None,
    };
    match found {
        Some(name) => format!(in alloc; "did you mean `{name}`?"),
        None => String::from_str(alloc, "name a dialog, or drop the line"),
    }
}

// Tells that the start names a window.
fn start_window(alloc: Global, name: &str, mend: &str) -> Result<Saying, AllocError> {
    let message = format!(in alloc; "`{name}` is a window: it can't be open as a dialog")?;
    let part = LinePart::word(1);
    let saying = Saying::new(alloc, &message, part, "a dialog is wanted here", mend)?;
    saying.with_other(alloc, part, "this window has the name")
}

/// Tells why no dialog can be open at the start.
pub fn unknown_start(alloc: Global, desc: &Desc, why: Why) -> Result<Saying, AllocError> {
    let name = match &desc.start {
        Some(name) => text_of(alloc, name.as_slice())?,
        None => String::new(alloc),
    };
    let mend = start_mend(alloc, desc, &name)?;
    if why.reason == Reason::StartWindow {
        return start_window(alloc, &name, &mend);
    }
    let message = format!(in alloc; "no dialog is called `{name}`")?;
    let part = LinePart::word(1);
    Saying::new(alloc, &message, part, "a dialog is wanted here", &mend)
}
