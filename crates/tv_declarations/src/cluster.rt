//! Lines that declare check boxes, radio buttons and lists.

ghost use Rattle.std.specs.Prelude.{◌≡◌, IfOk, option_and_then};
ghost use Rattle.tv_declarations.specs.Reading.Clusters.{items_in, marked_first, only_number, texts_in, boxes_of, radios_of, rows_of, checks_in, radios_in, list_in};

use crate::items::{Items, is_rising, marks};
use crate::place::{Place, Position};
use std::alloc::{AllocError, Global};
use tv_model::{CheckBoxes, Kind, ListBox, MarkedText, Node, RadioButtons, Sequence};
use tv_valid::Chars;
use tv_words::Word;

/// Reads the check boxes that these fields declare; `None` where they declare none.
pub fn checks(alloc: Global, at: Position, fields: &[Word]) -> Result<Option<Node>, AllocError>
    ensures { IfOk result (λ found. found ≡ checks_in at fields.now) }
{
    let [name, x, y, w, item_words @ ..] = fields else {
        return Ok(None);
    };
    let Some((items, start)) = boxes(alloc, item_words)? else {
        return Ok(None);
    };
    let (Some(name), Some(place)) = (name.name(), Place::read(x, y, w)) else {
        return Ok(None);
    };
    let name = name.copy(alloc)?;
    let kind = Kind::CheckBoxes(CheckBoxes { name, items, start });
    Ok(Some(place.node(at, kind)))
}

/// Reads the radio buttons that these fields declare; `None` where they declare none.
pub fn radios(alloc: Global, at: Position, fields: &[Word]) -> Result<Option<Node>, AllocError>
    ensures { IfOk result (λ found. found ≡ radios_in at fields.now) }
{
    let [name, x, y, w, item_words @ ..] = fields else {
        return Ok(None);
    };
    let Some((items, start)) = choices(alloc, item_words)? else {
        return Ok(None);
    };
    let (Some(name), Some(place)) = (name.name(), Place::read(x, y, w)) else {
        return Ok(None);
    };
    let name = name.copy(alloc)?;
    let kind = Kind::RadioButtons(RadioButtons { name, items, start });
    Ok(Some(place.node(at, kind)))
}

/// Reads the list that these fields declare; `None` where they declare none.
pub fn list(alloc: Global, at: Position, fields: &[Word]) -> Result<Option<Node>, AllocError>
    ensures { IfOk result (λ found. found ≡ list_in at fields.now) }
{
    let [name, x, y, w, h, item_words @ ..] = fields else {
        return Ok(None);
    };
    let Some((items, start)) = rows(alloc, item_words)? else {
        return Ok(None);
    };
    let (Some(name), Some(place), Some(h)) = (name.name(), Place::read(x, y, w), h.number()) else {
        return Ok(None);
    };
    let kind = Kind::List(ListBox {
        name: name.copy(alloc)?,
        h,
        items,
        start,
    });
    Ok(Some(place.node(at, kind)))
}

type Boxes = (Sequence<MarkedText>, Sequence<i32>);

fn boxes(alloc: Global, words: &[Word]) -> Result<Option<Boxes>, AllocError>
    ensures { IfOk result (λ found. found ≡ option_and_then boxes_of (items_in words.now)) }
{
    let Some(Items { texts, start }) = Items::read(alloc, words)? else {
        return Ok(None);
    };
    let Some(items) = marks(alloc, texts.as_slice())? else {
        return Ok(None);
    };
    Ok(marked_first(alloc, start).map(|start| (items, start)))
}

// The items that are marked at first.
fn marked_first(alloc: Global, start: Option<Sequence<i32>>) -> Option<Sequence<i32>>
    ensures { result ≡ marked_first start }
{
    let Some(numbers) = start else {
        return Some(Sequence::new(alloc));
    };
    if numbers.as_slice().is_empty() || !is_rising(numbers.as_slice()) {
        None
    } else {
        Some(numbers)
    }
}

type Choices = (Sequence<MarkedText>, i32);

fn choices(alloc: Global, words: &[Word]) -> Result<Option<Choices>, AllocError>
    ensures { IfOk result (λ found. found ≡ option_and_then radios_of (items_in words.now)) }
{
    let Some(Items { texts, start }) = Items::read(alloc, words)? else {
        return Ok(None);
    };
    let (Some(items), Some(start)) = (marks(alloc, texts.as_slice())?, only_number(&start)) else {
        return Ok(None);
    };
    Ok(Some((items, start)))
}

type Rows = (Sequence<Chars>, i32);

fn rows(alloc: Global, words: &[Word]) -> Result<Option<Rows>, AllocError>
    ensures { IfOk result (λ found. found ≡ option_and_then rows_of (items_in words.now)) }
{
    let Some(Items { texts, start }) = Items::read(alloc, words)? else {
        return Ok(None);
    };
    let (Some(texts), Some(start)) = (some_texts(texts), only_number(&start)) else {
        return Ok(None);
    };
    Ok(Some((texts, start)))
}

// The texts, of which there must be one at least.
fn some_texts(texts: Sequence<Chars>) -> Option<Sequence<Chars>>
    ensures { result ≡ texts_in texts }
{
    if texts.as_slice().is_empty() {
        None
    } else {
        Some(texts)
    }
}

fn only_number(start: &Option<Sequence<i32>>) -> Option<i32>
    ensures { result ≡ only_number start.now }
{
    match start {
        Some(numbers) => match numbers.as_slice() {
            [number] => Some(*number),
            _ => None,
        },
        None => None,
    }
}
