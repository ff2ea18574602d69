//! The rows of items, and which of them are marked or chosen at first.

ghost use Rattle.std.specs.Prelude.{◌≡◌, ◌++◌, ◌∷◌, ◌+◌, ◌-◌, [], IfOk, OnOk, fold, length, map, max, pos, position, replicate};
ghost use Rattle.tv_boxes.specs.Items.{first_on, item_number, item_row, item_rows, items_on, none_marked, number_found, tag_columns, unmarked, with_mark_of};
ghost use Rattle.tv_boxes.specs.Sizes.{size};

use crate::request::Item;
use crate::size::size;
use std::alloc::{AllocError, Global};
use tv_model::MarkedText;
use tv_valid::{Chars, Sequence};

/// Returns the columns of the longest tag.
pub(crate) fn tag_columns(items: &[Item]) -> u8
    ensures { result ≡ tag_columns items.now }
{
    items.iter().fold(0, |columns, item| {
        columns.max(size(item.tag.as_slice().len()))
    })
}

fn push_spaces(row: &mut Vec<char>, count: u8) -> Result<(), AllocError>
    ensures { OnOk result (row.new.items ≡ row.old.items ++ replicate count 32) }
{
    for _ in 0..count {
        row.push(' ')?;
    }
    Ok(())
}

// The tag, and the text behind the columns of tags.
fn item_row(alloc: Global, columns: u8, item: &Item) -> Result<Chars, AllocError>
    ensures { IfOk result (λ row. row ≡ item_row columns item.now) }
{
    let tag = item.tag.as_slice();
    let mut row = Vec::from_slice(alloc, tag)?;
    push_spaces(&mut row, columns.saturating_sub(size(tag.len())))?;
    row.push(' ')?;
    row.push(' ')?;
    row.extend_from_slice(item.text.as_slice())?;
    Ok(Chars::from_vec(row))
}

/// Returns the rows of these items, the texts one below another.
pub(crate) fn item_rows(alloc: Global, items: &[Item]) -> Result<Sequence<Chars>, AllocError>
    ensures { IfOk result (λ rows. rows ≡ item_rows items.now) }
{
    let columns = tag_columns(items);
    let mut rows = Sequence::new(alloc);
    for item in items {
        rows.push(item_row(alloc, columns, item)?)?;
    }
    Ok(rows)
}

/// Returns the texts without a marked letter.
pub(crate) fn unmarked(
    alloc: Global,
    texts: Sequence<Chars>,
) -> Result<Sequence<MarkedText>, AllocError>
    ensures { IfOk result (λ marked. marked ≡ map unmarked texts) }
{
    let mut marked = Sequence::new(alloc);
    for text in texts.into_vec() {
        marked.push(MarkedText { text, mark: None })?;
    }
    Ok(marked)
}

// A number of an item, counted from 1, by its place.
fn item_number(place: usize) -> i32
    ensures { result ≡ item_number place }
{
    i32::from(u16::from(size(place)) + 1)
}

// The place of the first item that is on.
fn place_on(items: &[Item]) -> Option<usize>
    ensures { result ≡ position (λ item. item.is_on) items.now }
{
    items.iter().position(|item| item.is_on)
}

// The number of the item found, or else of the first.
fn number_found(place: Option<usize>) -> i32
    ensures { result ≡ number_found place }
{
    match place {
        Some(place) => item_number(place),
        None => 1,
    }
}

/// Returns the first item that is on, or else the first of all.
pub(crate) fn first_on(items: &[Item]) -> i32
    ensures { result ≡ first_on items.now }
{
    number_found(place_on(items))
}

/// How many items were looked at, and which of them are on.
#[derive(Drop)]
pub(crate) struct Marks {
    count: u8,
    items: Sequence<i32>,
}

impl Marks {
    fn with(self, item: &Item) -> Result<Marks, AllocError>
        ensures { IfOk result (λ marks. marks ≡ with_mark_of self item.now) }
    {
        let Marks { count, mut items } = self;
        if item.is_on {
            items.push(item_number(usize::from(count)))?;
        }
        Ok(Marks {
            count: size(usize::from(count) + 1),
            items,
        })
    }
}

/// Returns the items that are on, counted from 1.
pub(crate) fn items_on(alloc: Global, items: &[Item]) -> Result<Sequence<i32>, AllocError>
    ensures { IfOk result (λ numbers. numbers ≡ items_on items.now) }
{
    let mut marks = Marks {
        count: 0,
        items: Sequence::new(alloc),
    };
    for item in items {
        marks = marks.with(item)?;
    }
    Ok(marks.items)
}
