//! How large a box is.

ghost use Rattle.std.specs.Prelude.{◌≡◌, ◌+◌, ◌-◌, ◌≤◌, fold, length, max};
ghost use Rattle.tv_boxes.specs.Boxes.{behind_columns, body_rows, columns_of, field_columns, field_end, field_rows, form_columns, form_rows, inside, items_columns, rows_and_one, wrap_columns};
ghost use Rattle.tv_boxes.specs.Buttons.{buttons_of};
ghost use Rattle.tv_boxes.specs.Sizes.{size};

use crate::buttons::Buttons;
use crate::items::tag_columns;
use crate::request::{BoxKind, Choices, FormField, Item, Request};
use crate::size::{longest, size};
use crate::views::{are_few, list_rows};
use tv_valid::Chars;

/// How large a box is within.
#[derive(Clone, Copy)]
pub(crate) struct Extent {
    /// Columns between the free ones beside the frame.
    pub columns: u8,
    /// Rows above the buttons, the last of them free.
    pub body: u8,
}

// The columns inside the frame and the free columns beside it.
fn inside(width: u8) -> u8
    ensures { result ≡ inside width }
{
    width.saturating_sub(4)
}

/// Returns the columns at which a text is wrapped.
pub(crate) fn wrap_columns(request: &Request) -> u8
    ensures { result ≡ wrap_columns request.now }
{
    if request.width == 0 {
        76
    } else {
        16.max(inside(request.width))
    }
}

// The columns of the longest text behind a tag.
fn behind_columns(items: &[Item]) -> u8
    ensures { result ≡ behind_columns items.now }
{
    items.iter().fold(0, |columns, item| {
        columns.max(size(item.text.as_slice().len()))
    })
}

// The columns of items, one below another.
fn items_columns(choices: &Choices) -> u8
    ensures { result ≡ items_columns choices.now }
{
    let items = choices.items.as_slice();
    size(usize::from(tag_columns(items)) + 2 + usize::from(behind_columns(items)))
}

// The columns up to where a field of a form and its label end.
fn field_end(field: &FormField) -> u8
    ensures { result ≡ field_end field.now }
{
    let end = usize::from(field.column) + usize::from(field.width);
    let label = size(field.label.as_slice().len());
    size(end.max(usize::from(field.label_column) + usize::from(label)))
}

fn form_columns(fields: &[FormField]) -> u8
    ensures { result ≡ form_columns fields.now }
{
    fields
        .iter()
        .fold(0, |columns, field| columns.max(field_end(field)))
}

fn form_rows(fields: &[FormField]) -> u8
    ensures { result ≡ form_rows fields.now }
{
    fields
        .iter()
        .fold(0, |rows, field| rows.max(field.row.max(field.label_row)))
}

// The columns of items behind their marks.
fn marked_columns(choices: &Choices) -> u8
    ensures { result ≡ size (items_columns choices.now + 4) }
{
    size(usize::from(items_columns(choices)) + 4)
}

// The columns that the fields of a box need.
fn field_columns(kind: &BoxKind) -> u8
    ensures { result ≡ field_columns kind.now }
{
    match kind {
        BoxKind::YesNo | BoxKind::Message => 0,
        BoxKind::Input(_) => 40,
        BoxKind::Menu(choices) => items_columns(choices),
        BoxKind::CheckList(choices) => marked_columns(choices),
        BoxKind::RadioList(choices) => marked_columns(choices),
        BoxKind::Form(fields) => form_columns(fields.as_slice()),
    }
}

// The rows that the fields of a box need.
fn field_rows(kind: &BoxKind) -> u8
    ensures { result ≡ field_rows kind.now }
{
    match kind {
        BoxKind::YesNo | BoxKind::Message => 0,
        BoxKind::Input(_) => 1,
        BoxKind::Menu(choices) => list_rows(choices),
        BoxKind::CheckList(choices) => size(choices.items.as_slice().len()),
        BoxKind::RadioList(choices) if are_few(choices) => size(choices.items.as_slice().len()),
        BoxKind::RadioList(choices) => list_rows(choices),
        BoxKind::Form(fields) => form_rows(fields.as_slice()),
    }
}

// And a free row above, where there are any.
fn rows_and_one(rows: u8) -> u16
    ensures is { result ≡ rows_and_one rows }
    ensures few { result ≤ 256 }
{
    if rows == 0 { 0 } else { u16::from(rows) + 1 }
}

/// Returns the columns between the free ones beside the frame: those that are wanted, or more where they don't suffice.
pub(crate) fn columns_of(request: &Request, rows: &[Chars], buttons: &Buttons) -> u8
    requires { buttons.now ≡ buttons_of request.now.kind request.now.labels }
    ensures { result ≡ columns_of request.now rows.now }
{
    16.max(inside(request.width))
        .max(size(request.title.as_slice().len() + 8))
        .max(longest(rows))
        .max(field_columns(&request.kind))
        .max(buttons.columns())
}

/// Returns the rows above the buttons, the last of them free: those that are wanted, or more where they don't suffice.
pub(crate) fn body_rows(request: &Request, rows: &[Chars]) -> u8
    ensures { result ≡ body_rows request.now rows.now }
{
    let fields = rows_and_one(field_rows(&request.kind));
    let needed = u16::from(size(rows.len())) + fields + 1;
    5.max(request.height.saturating_sub(3))
        .max(size(usize::from(needed)))
}
