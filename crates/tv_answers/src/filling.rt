//! A description whose fields begin with answers.

ghost use Rattle.std.specs.Prelude.{◌≡◌, ◌≤◌, ◌++◌, ◌∷◌, [], map, filter, pos, IfOk, OnOk};
ghost use Rattle.std.specs.List.{range_with_len};
ghost use Rattle.tv_answers.specs.Filling.{HaveSpelledValues, filled, filled_dialogs, with_start, with_value_of, with_values_of};
ghost use Rattle.tv_lang.specs.CanonicalDescription.{CanBeSpelled};
ghost use Rattle.tv_model.specs.Log.LogText.{has_bit};

use crate::answers::{Answer, Answers};
use crate::entries::FieldEntries;
use std::alloc::{AllocError, Global};
use tv_model::{Desc, Dialog, Kind, Node, Sequence, Value};
use tv_valid::Chars;

fn is_marked(marks: u16, item: u16) -> bool
    requires { (1 ≤ item) × (item ≤ 16) }
    ensures { result ≡ has_bit marks item }
{
    (marks >> (item - 1)) % 2 == 1
}

fn push_item(items: &mut Sequence<i32>, item: u16) -> Result<(), AllocError>
    ensures { OnOk result (items.new ≡ items.old ++ pos item ∷ []) }
{
    items.push(i32::from(item))
}

// The marked items, rising.
fn items_marked(alloc: Global, marks: u16) -> Result<Sequence<i32>, AllocError>
    ensures { IfOk result (λ items. items ≡ map pos (filter (has_bit marks) (range_with_len 1 16))) }
{
    let mut items = Sequence::new(alloc);
    for item in 1..17 {
        if is_marked(marks, item) {
            push_item(&mut items, item)?;
        }
    }
    Ok(items)
}

// The kind, with a field that begins with the value. A kind that has none of this sort stays as it is.
fn with_start(alloc: Global, kind: Kind, value: &Value) -> Result<Kind, AllocError>
    ensures { IfOk result (λ begun. begun ≡ with_start kind value.now) }
{
    Ok(match (kind, value) {
        (Kind::Input(mut input), Value::Text(text)) => {
            input.start = Chars::from_slice(alloc, text.as_slice())?;
            Kind::Input(input)
        }
        (Kind::CheckBoxes(mut boxes), Value::Marks(marks)) => {
            boxes.start = items_marked(alloc, *marks)?;
            Kind::CheckBoxes(boxes)
        }
        (Kind::RadioButtons(mut radios), Value::Item(item)) => {
            radios.start = i32::from(*item);
            Kind::RadioButtons(radios)
        }
        (Kind::List(mut list), Value::Item(item)) => {
            list.start = i32::from(*item);
            Kind::List(list)
        }
        (kind, _) => kind,
    })
}

// The view, with the value that the entries have for it, if there is one.
fn with_value_of(alloc: Global, view: Node, entries: &FieldEntries) -> Result<Node, AllocError>
    ensures { IfOk result (λ begun. begun ≡ with_value_of entries.now view) }
{
    let Some(value) = entries.value(view.id) else {
        return Ok(view);
    };
    let Node {
        id,
        depth,
        x,
        y,
        w,
        kind,
    } = view;
    let kind = with_start(alloc, kind, value)?;
    Ok(Node {
        id,
        depth,
        x,
        y,
        w,
        kind,
    })
}

fn with_values(
    alloc: Global,
    views: Vec<Node>,
    entries: &FieldEntries,
) -> Result<Vec<Node>, AllocError>
    ensures { IfOk result (λ begun. begun.items ≡ map (with_value_of entries.now) views.items) }
{
    let mut begun = Vec::new(alloc);
    for view in views {
        begun.push(with_value_of(alloc, view, entries)?)?;
    }
    Ok(begun)
}

// The dialog, each view with its value.
fn with_values_of(
    alloc: Global,
    dialog: Dialog,
    entries: &FieldEntries,
) -> Result<Dialog, AllocError>
    ensures { IfOk result (λ begun. begun ≡ with_values_of entries.now dialog) }
{
    let Dialog { node, views, rules } = dialog;
    let begun = with_values(alloc, views.into_vec(), entries)?;
    let views = Sequence::from_vec(begun);
    Ok(Dialog { node, views, rules })
}

// Each dialog with the answer at its place, where there is one.
fn filled_dialogs(
    alloc: Global,
    dialogs: Vec<Dialog>,
    answers: &[Answer],
) -> Result<Vec<Dialog>, AllocError>
    ensures { IfOk result (λ begun. begun.items ≡ filled_dialogs dialogs.items answers.now) }
{
    let mut begun = Vec::new(alloc);
    let mut rest = answers;
    for dialog in dialogs {
        match rest.split_first() {
            Some((answer, others)) => {
                begun.push(with_values_of(alloc, dialog, &answer.entries)?)?;
                rest = others;
            }
            None => begun.push(dialog)?,
        }
    }
    Ok(begun)
}

// The description, with the dialogs filled.
fn begun(alloc: Global, desc: Desc, answers: &[Answer]) -> Result<Desc, AllocError>
    ensures { IfOk result (λ begun. begun ≡ record desc { dialogs = filled_dialogs desc.dialogs answers.now }) }
{
    let Desc {
        version,
        width,
        height,
        start,
        menus,
        status,
        windows,
        dialogs,
    } = desc;
    let begun = filled_dialogs(alloc, dialogs.into_vec(), answers)?;
    let dialogs = Sequence::from_vec(begun);
    Ok(Desc {
        version,
        width,
        height,
        start,
        menus,
        status,
        windows,
        dialogs,
    })
}

/// Returns the description with the answered fields beginning with their answers. The other fields begin as they are
/// declared. Where some text spells the description, one spells the filled one, with answers from `read_answers`.
pub fn filled(alloc: Global, desc: Desc, answers: &Answers) -> Result<Desc, AllocError>
    ensures filled { IfOk result (λ begun. begun ≡ filled desc answers.now) }
    ensures spelled { IfOk result (λ begun. HaveSpelledValues answers.now → CanBeSpelled desc → CanBeSpelled begun) }
{
    begun(alloc, desc, answers.dialogs.as_slice())
}
