//! What is read of a dialog.

use crate::findings::desc_of;
use crate::tables::Question;
use std::alloc::{AllocError, Global};
use std::test::Fail;
use tv_model::{Button, Desc, Dialog, DialogHead, Kind, Node};

/// What a text spells, as far as its first dialog and the first view in that: the screen's size and the start; the dialog by
/// its line, its place and its width, then its title and its ends; and the view by its line, and as a button by its text.
#[derive(Clone, Copy)]
pub struct FirstDialog;

impl Question for FirstDialog {
    fn answer(&self, alloc: Global, text: &[u8]) -> Result<String, Fail> {
        let desc = desc_of(alloc, text)?;
        desc_told(alloc, &desc)
    }
}

fn desc_told(alloc: Global, desc: &Desc) -> Result<String, Fail> {
    let dialog = desc.dialogs.as_slice().first().ok_or("no dialog")?;
    let view = dialog.views.as_slice().first().ok_or("no view")?;
    let mut told = screen_told(alloc, desc)?;
    push_dialog(&mut told, alloc, dialog)?;
    push_view(&mut told, alloc, view)?;
    Ok(told)
}

fn screen_told(alloc: Global, desc: &Desc) -> Result<String, AllocError> {
    let start = if desc.start.is_some() {
        "a start"
    } else {
        "no start"
    };
    format!(in alloc; "screen {} {}, {start}\n", desc.width, desc.height)
}

fn push_dialog(told: &mut String, alloc: Global, dialog: &Dialog) -> Result<(), AllocError> {
    push_place(told, alloc, &dialog.node)?;
    push_head(told, dialog.head())
}

fn push_place(told: &mut String, alloc: Global, node: &Node) -> Result<(), AllocError> {
    let place = format!(in alloc;
        "dialog of line {} at {} {}, {} wide\n",
        node.id.0, node.x, node.y, node.w
    )?;
    told.push_str(&place)
}

fn push_head(told: &mut String, head: &DialogHead) -> Result<(), AllocError> {
    push_quoted(told, head.title.as_slice())?;
    for (ends, word) in [
        (head.ends.ok, " ok"),
        (head.ends.cancel, " cancel"),
        (head.ends.yes, " yes"),
        (head.ends.no, " no"),
    ] {
        if ends {
            told.push_str(word)?;
        }
    }
    told.push('\n')
}

// A text between bars.
fn push_quoted(told: &mut String, text: &[char]) -> Result<(), AllocError> {
    told.push('|')?;
    for ch in text {
        told.push(*ch)?;
    }
    told.push('|')
}

fn push_view(told: &mut String, alloc: Global, node: &Node) -> Result<(), AllocError> {
    let line = format!(in alloc; "view of line {}\n", node.id.0)?;
    told.push_str(&line)?;
    match &node.kind {
        Kind::Button(button) => push_button(told, alloc, button),
        _ => Ok(()),
    }
}

fn push_button(told: &mut String, alloc: Global, button: &Button) -> Result<(), AllocError> {
    push_quoted(told, button.text.text.as_slice())?;
    let mark = match button.text.mark {
        Some(place) => format!(in alloc; " marked at {place}\n")?,
        None => String::from_str(alloc, " not marked\n")?,
    };
    told.push_str(&mark)
}
