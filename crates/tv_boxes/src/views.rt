//! The views of a box: its text and its fields.

ghost use Rattle.std.specs.Prelude.{◌≡◌, ◌++◌, ◌∷◌, ◌+◌, ◌≤◌, [], if◌then◌else◌, IfOk, codes, fold, map, max, option_map};
ghost use Rattle.std.specs.Fmt.{decimal};
ghost use Rattle.tv_boxes.specs.Sizes.{size};
ghost use Rattle.tv_boxes.specs.Views.{are_few, checks_kind, control, control_views, field_views, form_views, input_kind, label_row, list_kind, list_rows, most_of, radios_kind, text_row, text_rows, view, with_input, with_row};

use crate::items::{first_on, item_rows, items_on, unmarked};
use crate::request::{BoxKind, Choices, FormField};
use crate::size::size;
use std::alloc::{AllocError, Global};
use tv_lang::ascii;
use tv_model::{CheckBoxes, Id, Input, Kind, ListBox, Node, RadioButtons, StaticText};
use tv_valid::{Chars, DomainSpec, InputSpec, Sequence};

/// Makes a view at a place, on no line yet.
pub(crate) fn view(x: u16, y: u16, w: u16, kind: Kind) -> Node
    ensures { result ≡ view x y w kind }
{
    Node {
        id: Id(0),
        depth: 0,
        x: i32::from(x),
        y: i32::from(y),
        w: i32::from(w),
        kind,
    }
}

// A row of text.
fn text_row(alloc: Global, x: u16, y: u16, w: u16, text: &Chars) -> Result<Node, AllocError>
    ensures { IfOk result (λ node. node ≡ text_row x y w text.now) }
{
    let text = text.copy(alloc)?;
    Ok(view(x, y, w, Kind::Text(StaticText { h: 1, text })))
}

/// Makes rows of text from the top of a box with so many columns.
pub(crate) fn text_rows(alloc: Global, columns: u8, rows: &[Chars]) -> Result<Vec<Node>, AllocError>
    ensures { IfOk result (λ views. views.items ≡ text_rows columns rows.now) }
{
    let mut views = Vec::new(alloc);
    for text in rows {
        let row = u16::from(size(views.len())) + 1;
        views.push(text_row(alloc, 2, row, u16::from(columns), text)?)?;
    }
    Ok(views)
}

// An input that takes any text.
fn input_kind(alloc: Global, name: Chars, most: u8, start: &Chars) -> Result<Kind, AllocError>
    ensures { IfOk result (λ kind. kind ≡ input_kind name most start.now) }
{
    let spec = InputSpec {
        max: i32::from(most),
        domain: DomainSpec::Any,
        optional: false,
        fill: false,
    };
    let start = start.copy(alloc)?;
    Ok(Kind::Input(Input {
        name,
        spec,
        start,
        validates: false,
    }))
}

/// Returns the rows of a list: as many as are wanted; if that is 0, as there are items, but no more than 12.
pub(crate) fn list_rows(choices: &Choices) -> u8
    ensures { result ≡ list_rows choices.now }
{
    if choices.rows == 0 {
        choices.items.as_slice().len().min(12) as u8
    } else {
        choices.rows
    }
}

fn list_kind(alloc: Global, choices: &Choices) -> Result<Kind, AllocError>
    ensures { IfOk result (λ kind. kind ≡ list_kind choices.now) }
{
    let items = choices.items.as_slice();
    Ok(Kind::List(ListBox {
        name: ascii(alloc, b"choice")?,
        h: i32::from(list_rows(choices)),
        items: item_rows(alloc, items)?,
        start: first_on(items),
    }))
}

fn checks_kind(alloc: Global, choices: &Choices) -> Result<Kind, AllocError>
    ensures { IfOk result (λ kind. kind ≡ checks_kind choices.now) }
{
    let items = choices.items.as_slice();
    Ok(Kind::CheckBoxes(CheckBoxes {
        name: ascii(alloc, b"choice")?,
        items: unmarked(alloc, item_rows(alloc, items)?)?,
        start: items_on(alloc, items)?,
    }))
}

fn radios_kind(alloc: Global, choices: &Choices) -> Result<Kind, AllocError>
    ensures { IfOk result (λ kind. kind ≡ radios_kind choices.now) }
{
    let items = choices.items.as_slice();
    Ok(Kind::RadioButtons(RadioButtons {
        name: ascii(alloc, b"choice")?,
        items: unmarked(alloc, item_rows(alloc, items)?)?,
        start: first_on(items),
    }))
}

/// Whether the items are no more than radio buttons may be.
pub(crate) fn are_few(choices: &Choices) -> bool
    ensures { result ≡ are_few choices.now }
{
    choices.items.as_slice().len() <= 16
}

// One of the items, by radio buttons where those may be so many.
fn one_kind(alloc: Global, choices: &Choices) -> Result<Kind, AllocError>
    ensures { IfOk result (λ kind. kind
        ≡ (if are_few choices.now then radios_kind choices.now else list_kind choices.now)) }
{
    if are_few(choices) {
        radios_kind(alloc, choices)
    } else {
        list_kind(alloc, choices)
    }
}

// The control of a box other than a form, where it has one.
fn control(alloc: Global, kind: &BoxKind) -> Result<Option<Kind>, AllocError>
    ensures { IfOk result (λ found. found ≡ control kind.now) }
{
    Ok(match kind {
        BoxKind::YesNo | BoxKind::Message | BoxKind::Form(_) => None,
        BoxKind::Input(start) => Some(input_kind(alloc, ascii(alloc, b"text")?, 120, start)?),
        BoxKind::Menu(choices) => Some(list_kind(alloc, choices)?),
        BoxKind::CheckList(choices) => Some(checks_kind(alloc, choices)?),
        BoxKind::RadioList(choices) => Some(one_kind(alloc, choices)?),
    })
}

// The control below a free row, where there is one.
fn control_views(
    alloc: Global,
    above: u16,
    columns: u8,
    kind: &BoxKind,
) -> Result<Vec<Node>, AllocError>
    requires { above ≤ 256 }
    ensures { IfOk result (λ views. views.items ≡ control_views above columns (control kind.now)) }
{
    let mut views = Vec::new(alloc);
    if let Some(found) = control(alloc, kind)? {
        views.push(view(2, above + 1, u16::from(columns), found))?;
    }
    Ok(views)
}

// So many columns or rows, and more.
fn and_more(count: u8, more: u16) -> u16
    requires { more ≤ 256 }
    ensures { result ≡ count + more }
{
    u16::from(count) + more
}

// The label of a form's field.
fn label_row(alloc: Global, above: u16, field: &FormField) -> Result<Node, AllocError>
    requires { above ≤ 256 }
    ensures { IfOk result (λ node. node ≡ label_row above field.now) }
{
    let columns = u16::from(size(field.label.as_slice().len()));
    text_row(
        alloc,
        and_more(field.label_column, 1),
        and_more(field.label_row, above),
        1.max(columns),
        &field.label,
    )
}

// The most characters of a form's field.
fn most_of(field: &FormField) -> u8
    ensures { result ≡ most_of field.now }
{
    if field.longest == 0 {
        field.width
    } else {
        field.longest
    }
}

// The name of the input with a number.
fn item_name(alloc: Global, number: u16) -> Result<Chars, AllocError>
    ensures { IfOk result (λ name. name ≡ codes "item" ++ decimal number) }
{
    let name = format!(in alloc; "item{number}")?;
    ascii(alloc, name.as_bytes())
}

// The input of a form's field, where it has a number.
fn input_of(alloc: Global, above: u16, number: u16, field: &FormField) -> Result<Node, AllocError>
    requires { above ≤ 256 }
    ensures { IfOk result (λ node. node ≡ view field.now.column (field.now.row + above) (field.now.width + 2)
        (input_kind (codes "item" ++ decimal number) (most_of field.now) field.now.start)) }
{
    let name = item_name(alloc, number)?;
    let kind = input_kind(alloc, name, most_of(field), &field.start)?;
    Ok(view(
        u16::from(field.column),
        and_more(field.row, above),
        and_more(field.width, 2),
        kind,
    ))
}

fn labels(alloc: Global, above: u16, fields: &[FormField]) -> Result<Vec<Node>, AllocError>
    requires { above ≤ 256 }
    ensures { IfOk result (λ views. views.items ≡ map (label_row above) fields.now) }
{
    let mut views = Vec::new(alloc);
    for field in fields {
        views.push(label_row(alloc, above, field)?)?;
    }
    Ok(views)
}

fn inputs(alloc: Global, above: u16, fields: &[FormField]) -> Result<Vec<Node>, AllocError>
    requires { above ≤ 256 }
    ensures { IfOk result (λ views. views.items ≡ fold (with_input above) [] fields.now) }
{
    let mut views = Vec::new(alloc);
    for field in fields {
        let number = u16::from(size(views.len())) + 1;
        views.push(input_of(alloc, above, number, field)?)?;
    }
    Ok(views)
}

// The labels of a form, and its inputs.
fn form_views(alloc: Global, above: u16, fields: &[FormField]) -> Result<Vec<Node>, AllocError>
    requires { above ≤ 256 }
    ensures { IfOk result (λ views. views.items ≡ form_views above fields.now) }
{
    let mut views = labels(alloc, above, fields)?;
    views.append(&mut inputs(alloc, above, fields)?)?;
    Ok(views)
}

/// Makes the fields of a box, where so many rows are above them, the last of them free.
pub(crate) fn field_views(
    alloc: Global,
    above: u16,
    columns: u8,
    kind: &BoxKind,
) -> Result<Vec<Node>, AllocError>
    requires { above ≤ 256 }
    ensures { IfOk result (λ views. views.items ≡ field_views above columns kind.now) }
{
    match kind {
        BoxKind::Form(fields) => form_views(alloc, above, fields.as_slice()),
        _ => control_views(alloc, above, columns, kind),
    }
}
