//! Lines that declare windows, dialogs and views.

ghost use Rattle.std.specs.Prelude.{◌≡◌, IfOk};
ghost use Rattle.tv_words.specs.Fields.{name_in, text_in};
ghost use Rattle.tv_words.specs.Reading.Numbers.{number_in};
ghost use Rattle.tv_declarations.specs.Reading.Places.{mark_in};
ghost use Rattle.tv_declarations.specs.Reading.Nodes.{text_in_fields, label_from, label_in, button_in, pane_in, window_from, window_in, opened_in, commands_in, dialog_in, control_in, node_in};

use crate::cluster::{checks, list, radios};
use crate::commands::{button_options, command, ends};
use crate::input::input;
use crate::keywords;
use crate::marked::marked;
use crate::place::{Place, Position};
use std::alloc::{AllocError, Global};
use tv_model::{
    Button, DialogHead, Ends, Kind, Label, MarkedText, Node, Pane, StaticText, WindowHead,
};
use tv_words::Word;

/// Reads a quoted word as a text that may have a mark; `None` for other words.
pub fn mark(alloc: Global, word: &Word) -> Result<Option<MarkedText>, AllocError>
    ensures { IfOk result (λ found. found ≡ mark_in word.now) }
{
    match word.text() {
        Some(text) => marked(alloc, text.as_slice()),
        None => Ok(None),
    }
}

/// Reads the window, dialog or view that the line of this keyword declares; `None` where it declares none.
pub fn node(
    alloc: Global,
    at: Position,
    keyword: &Word,
    fields: &[Word],
) -> Result<Option<Node>, AllocError>
    ensures { IfOk result (λ found. found ≡ node_in at keyword.now fields.now) }
{
    if keyword.is(keywords::TEXT) {
        text(alloc, at, fields)
    } else if keyword.is(keywords::LABEL) {
        label(alloc, at, fields)
    } else if keyword.is(keywords::BUTTON) {
        button(alloc, at, fields)
    } else if keyword.is(keywords::PANE) {
        pane(alloc, at, fields)
    } else if keyword.is(keywords::WINDOW) {
        window(alloc, at, fields)
    } else if keyword.is(keywords::DIALOG) {
        dialog(alloc, at, fields)
    } else {
        control(alloc, at, keyword, fields)
    }
}

fn control(
    alloc: Global,
    at: Position,
    keyword: &Word,
    fields: &[Word],
) -> Result<Option<Node>, AllocError>
    ensures { IfOk result (λ found. found ≡ control_in at keyword.now fields.now) }
{
    if keyword.is(keywords::INPUT) {
        input(alloc, at, fields)
    } else if keyword.is(keywords::CHECKS) {
        checks(alloc, at, fields)
    } else if keyword.is(keywords::RADIOS) {
        radios(alloc, at, fields)
    } else if keyword.is(keywords::LIST) {
        list(alloc, at, fields)
    } else {
        Ok(None)
    }
}

fn text(alloc: Global, at: Position, fields: &[Word]) -> Result<Option<Node>, AllocError>
    ensures { IfOk result (λ found. found ≡ text_in_fields at fields.now) }
{
    let [x, y, w, h, text] = fields else {
        return Ok(None);
    };
    let (Some(place), Some(h), Some(text)) = (Place::read(x, y, w), h.number(), text.text()) else {
        return Ok(None);
    };
    let text = text.copy(alloc)?;
    Ok(Some(place.node(at, Kind::Text(StaticText { h, text }))))
}

fn label(alloc: Global, at: Position, fields: &[Word]) -> Result<Option<Node>, AllocError>
    ensures { IfOk result (λ found. found ≡ label_in at fields.now) }
{
    match fields {
        [x, y, w, text, link] => label_at(alloc, at, Place::read(x, y, w), text, link),
        _ => Ok(None),
    }
}

fn label_at(
    alloc: Global,
    at: Position,
    place: Option<Place>,
    text: &Word,
    link: &Word,
) -> Result<Option<Node>, AllocError>
    ensures { IfOk result (λ found. found ≡ label_from at (mark_in text.now) place (name_in link.now)) }
{
    let Some(text) = mark(alloc, text)? else {
        return Ok(None);
    };
    let (Some(place), Some(link)) = (place, link.name()) else {
        return Ok(None);
    };
    let link = link.copy(alloc)?;
    Ok(Some(place.node(at, Kind::Label(Label { text, link }))))
}

fn button(alloc: Global, at: Position, fields: &[Word]) -> Result<Option<Node>, AllocError>
    ensures { IfOk result (λ found. found ≡ button_in at fields.now) }
{
    let [name, x, y, w, text, does, options @ ..] = fields else {
        return Ok(None);
    };
    let Some(text) = mark(alloc, text)? else {
        return Ok(None);
    };
    let (Some(name), Some(place)) = (name.name(), Place::read(x, y, w)) else {
        return Ok(None);
    };
    let (Some(command), Some((is_default, grabs))) = (command(does), button_options(options)) else {
        return Ok(None);
    };
    let kind = Kind::Button(Button {
        name: name.copy(alloc)?,
        text,
        command,
        is_default,
        grabs,
    });
    Ok(Some(place.node(at, kind)))
}

fn pane(alloc: Global, at: Position, fields: &[Word]) -> Result<Option<Node>, AllocError>
    ensures { IfOk result (λ found. found ≡ pane_in at fields.now) }
{
    let [name, x, y, w, h] = fields else {
        return Ok(None);
    };
    let (Some(name), Some(place), Some(h)) = (name.name(), Place::read(x, y, w), h.number()) else {
        return Ok(None);
    };
    let name = name.copy(alloc)?;
    Ok(Some(place.node(at, Kind::Pane(Pane { name, h }))))
}

fn window(alloc: Global, at: Position, fields: &[Word]) -> Result<Option<Node>, AllocError>
    ensures { IfOk result (λ found. found ≡ window_in at fields.now) }
{
    let [name, x, y, w, h, number, title] = fields else {
        return Ok(None);
    };
    let (Some(name), Some(place), Some(h)) = (name.name(), Place::read(x, y, w), h.number()) else {
        return Ok(None);
    };
    let (Some(number), Some(title)) = (number.number(), title.text()) else {
        return Ok(None);
    };
    let kind = Kind::Window(WindowHead {
        name: name.copy(alloc)?,
        h,
        number,
        title: title.copy(alloc)?,
    });
    Ok(Some(place.node(at, kind)))
}

fn dialog(alloc: Global, at: Position, fields: &[Word]) -> Result<Option<Node>, AllocError>
    ensures { IfOk result (λ found. found ≡ dialog_in at fields.now) }
{
    let [name, x, y, w, h, title, commands_words @ ..] = fields else {
        return Ok(None);
    };
    let (Some(name), Some(place), Some(h)) = (name.name(), Place::read(x, y, w), h.number()) else {
        return Ok(None);
    };
    let (Some(title), Some((opens, ends))) = (title.text(), commands(commands_words)) else {
        return Ok(None);
    };
    let kind = Kind::Dialog(DialogHead {
        name: name.copy(alloc)?,
        h,
        title: title.copy(alloc)?,
        opens,
        ends,
    });
    Ok(Some(place.node(at, kind)))
}

// The command that opens a dialog, and those that end it.
fn commands(words: &[Word]) -> Option<(Option<i32>, Ends)>
    ensures { result ≡ commands_in words.now }
{
    let [keyword, fields @ ..] = words else {
        return None;
    };
    if keyword.is(keywords::ENDS) {
        Some((None, ends(fields)?))
    } else if keyword.is(keywords::OPENS) {
        opened(fields)
    } else {
        None
    }
}

fn opened(fields: &[Word]) -> Option<(Option<i32>, Ends)>
    ensures { result ≡ opened_in fields.now }
{
    match fields {
        [number, keyword, end_words @ ..] if keyword.is(keywords::ENDS) => Some((
            Some(number.number()?),
            ends(end_words)?,
        )),
        _ => None,
    }
}
