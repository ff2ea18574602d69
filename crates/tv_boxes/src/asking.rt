//! What a box asks, by its option and the arguments behind its width.

ghost use Rattle.std.specs.Prelude.{◌≡◌, [], MatchResult, length, ok_or};
ghost use Rattle.tv_boxes.specs.declared.misuse.Misuse.TheVariants.{Missing};
ghost use Rattle.tv_boxes.specs.Arguments.{Reads, box_named, choices_in, field_in, fields_in, is_on, kind_in, marked_items, menu_items, number_at};

use crate::misuse::Misuse;
use crate::request::{BoxKind, Choices, FormField, Item};
use crate::settings::is_chosen;
use std::alloc::Global;
use tv_valid::{Chars, Sequence};
use tv_words::is_same;

/// The option of a box.
#[derive(Clone, Copy)]
pub(crate) enum BoxName {
    YesNo,
    Message,
    Input,
    Menu,
    CheckList,
    RadioList,
    Form,
}

impl BoxName {
    /// Returns the box that an option asks for.
    pub(crate) fn named(option: &[char]) -> Option<BoxName>
        ensures { result ≡ box_named option.now }
    {
        if is_same(option, b"--yesno") {
            Some(BoxName::YesNo)
        } else if is_same(option, b"--msgbox") {
            Some(BoxName::Message)
        } else if is_same(option, b"--inputbox") {
            Some(BoxName::Input)
        } else if is_same(option, b"--menu") {
            Some(BoxName::Menu)
        } else if is_same(option, b"--checklist") {
            Some(BoxName::CheckList)
        } else if is_same(option, b"--radiolist") {
            Some(BoxName::RadioList)
        } else if is_same(option, b"--form") {
            Some(BoxName::Form)
        } else {
            None
        }
    }
}

/// Reads a number of rows or columns. So many arguments are behind it.
pub(crate) fn number(word: &Chars, behind: usize) -> Result<u8, Misuse>
    ensures { Reads (number_at word.now behind) result }
{
    match tv_words::number(word.as_slice()) {
        Some(number) if 0 <= number && number <= 255 => Ok(number as u8),
        _ => Err(Misuse::NoNumber(behind)),
    }
}

/// Reads what a box of this name asks, where a menu begins with the item of the tag that is chosen.
pub(crate) fn kind_of(
    alloc: Global,
    name: BoxName,
    chosen: &Option<Chars>,
    words: &[Chars],
) -> Result<BoxKind, Misuse>
    ensures { Reads (kind_in name chosen.now words.now) result }
{
    match (name, words) {
        (BoxName::YesNo, []) => Ok(BoxKind::YesNo),
        (BoxName::Message, []) => Ok(BoxKind::Message),
        (BoxName::Input, []) => Ok(BoxKind::Input(Chars::new(alloc))),
        (BoxName::Input, [start]) => Ok(BoxKind::Input(start.copy(alloc)?)),
        (BoxName::Menu, [rows, items @ ..]) => {
            Ok(BoxKind::Menu(menu(alloc, chosen, rows, items)?))
        }
        (BoxName::CheckList, [rows, items @ ..]) => {
            Ok(BoxKind::CheckList(marked(alloc, rows, items)?))
        }
        (BoxName::RadioList, [rows, items @ ..]) => {
            Ok(BoxKind::RadioList(marked(alloc, rows, items)?))
        }
        (BoxName::Form, [rows, fields @ ..]) => {
            number(rows, fields.len())?;
            Ok(BoxKind::Form(form_fields(alloc, fields)?))
        }
        (BoxName::Input, [_, _, more @ ..]) | (_, [_, more @ ..]) => {
            Err(Misuse::Extra(more.len()))
        }
        (_, []) => Err(Misuse::Missing),
    }
}

fn menu(
    alloc: Global,
    chosen: &Option<Chars>,
    rows: &Chars,
    words: &[Chars],
) -> Result<Choices, Misuse>
    ensures { Reads (choices_in (number_at rows.now (length words.now)) (menu_items chosen.now words.now)) result }
{
    let rows = number(rows, words.len())?;
    let items = menu_items(alloc, chosen, words)?;
    Ok(Choices { rows, items })
}

fn marked(alloc: Global, rows: &Chars, words: &[Chars]) -> Result<Choices, Misuse>
    ensures { Reads (choices_in (number_at rows.now (length words.now)) (marked_items words.now)) result }
{
    let rows = number(rows, words.len())?;
    let items = marked_items(alloc, words)?;
    Ok(Choices { rows, items })
}

// The items of tags and texts.
fn menu_items(
    alloc: Global,
    chosen: &Option<Chars>,
    words: &[Chars],
) -> Result<Sequence<Item>, Misuse>
    ensures { Reads (ok_or (menu_items chosen.now words.now) Missing) result }
{
    let mut items = Sequence::new(alloc);
    let mut left = words;
    while let [tag, text, rest @ ..] = left {
        items.push(Item {
            is_on: is_chosen(chosen, tag),
            tag: tag.copy(alloc)?,
            text: text.copy(alloc)?,
        })?;
        left = rest;
    }
    whole(items, left)
}

// The items of tags, texts and statuses.
fn marked_items(alloc: Global, words: &[Chars]) -> Result<Sequence<Item>, Misuse>
    ensures { Reads (ok_or (marked_items words.now) Missing) result }
{
    let mut items = Sequence::new(alloc);
    let mut left = words;
    while let [tag, text, status, rest @ ..] = left {
        items.push(Item {
            tag: tag.copy(alloc)?,
            text: text.copy(alloc)?,
            is_on: is_on(status.as_slice()),
        })?;
        left = rest;
    }
    whole(items, left)
}

// Whether a status says that an item is on, in capitals too. Any other word says that it is off.
fn is_on(status: &[char]) -> bool
    ensures { result ≡ is_on status.now }
{
    is_same(status, b"on") || is_same(status, b"ON")
}

// What was read, where no word is left.
fn whole<T: Drop>(items: Sequence<T>, left: &[Chars]) -> Result<Sequence<T>, Misuse>
    ensures { MatchResult result (λ all. (all ≡ items) × (left.now ≡ [])) (λ misuse. (misuse ≡ Missing) × ¬ (left.now ≡ [])) }
{
    if left.is_empty() {
        Ok(items)
    } else {
        Err(Misuse::Missing)
    }
}

fn form_fields(alloc: Global, words: &[Chars]) -> Result<Sequence<FormField>, Misuse>
    ensures { Reads (fields_in words.now) result }
{
    let mut fields = Sequence::new(alloc);
    let mut left = words;
    while let [_, _, _, _, _, _, _, _, rest @ ..] = left {
        fields.push(form_field(alloc, left)?)?;
        left = rest;
    }
    whole(fields, left)
}

// The field of the first eight words.
fn form_field(alloc: Global, words: &[Chars]) -> Result<FormField, Misuse>
    ensures { Reads (field_in words.now) result }
{
    let [
        label,
        label_row,
        label_column,
        start,
        row,
        column,
        width,
        longest,
        rest @ ..,
    ] = words
    else {
        return Err(Misuse::Missing);
    };
    let behind = rest.len();
    Ok(FormField {
        label_row: number(label_row, behind + 6)?,
        label_column: number(label_column, behind + 5)?,
        row: number(row, behind + 3)?,
        column: number(column, behind + 2)?,
        width: number(width, behind + 1)?,
        longest: number(longest, behind)?,
        label: label.copy(alloc)?,
        start: start.copy(alloc)?,
    })
}
