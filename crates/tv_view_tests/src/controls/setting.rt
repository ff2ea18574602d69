//! Opening a control with a value.

ghost use Rattle.std.specs.Prelude.{◌≡◌, ◌<◌, ◌^◌, IfOk, IsTrue, Some};
ghost use Rattle.tv_model.specs.Controls.Contents.{is_item_place};
ghost use Rattle.tv_view.specs.Meaning.{fresh};
ghost use Rattle.tv_model.specs.Kinds.InputLine.{MayStand};
ghost use Rattle.tv_view.specs.Calls.{IsFieldValue};

use std::alloc::Global;
use std::test::Fail;
use tv_cells::Damage;
use tv_model::{Kind, Node, Record, Value};
use tv_valid::{Domain, DomainFault, InputSpec, Text};
use tv_view::View;

/// Opens a control that stands as the node declares it with a value, which is written as one is told.
///
/// # Errors
///
/// Where it stands otherwise, or is a field that may not have the value.
pub fn open<V: View>(
    alloc: Global,
    view: &mut V,
    node: &Node,
    text: &str,
    damage: &mut Damage,
) -> Result<(), Fail> {
    let value = value_read(alloc, &node.kind, text)?;
    if !may_have(alloc, &node.kind, &value)? {
        Err("it may not have this value")?;
    }
    if !view.is_fresh(node) {
        Err("it has changed")?;
    }
    set(view, node, value, damage);
    Ok(())
}

fn set<V: View>(view: &mut V, node: &Node, value: Value, damage: &mut Damage)
    requires fresh { V.meaning view.old ≡ fresh node.now }
    requires value { IsFieldValue node.now.kind (Some value) }
{
    let mut values = Record::new();
    values.put(node.id, value);
    view.set(&values, damage);
}

fn value_read(alloc: Global, kind: &Kind, text: &str) -> Result<Value, Fail> {
    if let Some(quoted) = text.strip_prefix('"') {
        let quoted: Vec<char> = quoted.trim_end_matches('"').chars().collect(alloc)?;
        return Ok(Value::Text(Text::from_chars(&quoted).ok_or("a long text")?));
    }
    match kind {
        Kind::CheckBoxes(_) => Ok(Value::Marks(u16::from_str_radix(text, 2)?)),
        _ => Ok(Value::Item(text.parse()?)),
    }
}

fn may_have(alloc: Global, kind: &Kind, value: &Value) -> Result<bool, Fail>
    ensures { IfOk result (λ may. IsTrue may → IsFieldValue kind.now (Some value.now)) }
{
    match (kind, value) {
        (Kind::Input(input), Value::Text(text)) => Ok(may_stand(alloc, &input.spec, text)?),
        (Kind::CheckBoxes(boxes), Value::Marks(marks)) => {
            Ok(are_marks(boxes.items.as_slice().len(), *marks))
        }
        (Kind::RadioButtons(radios), Value::Item(item)) => {
            Ok(is_item(radios.items.as_slice().len(), *item))
        }
        (Kind::List(list), Value::Item(item)) => Ok(is_item(list.items.as_slice().len(), *item)),
        (Kind::Input(_) | Kind::CheckBoxes(_) | Kind::RadioButtons(_) | Kind::List(_), _) => Ok(
            false,
        ),
        _ => Ok(true),
    }
}

fn may_stand(alloc: Global, spec: &InputSpec, text: &Text) -> Result<bool, DomainFault>
    ensures { IfOk result (λ may. IsTrue may → MayStand text.now spec.now) }
{
    let domain = Domain::new(alloc, spec)?;
    Ok(domain.viable(text))
}

fn are_marks(count: usize, marks: u16) -> bool
    ensures { IsTrue result → marks < 2 ^ count }
{
    count <= 16 && u32::from(marks) < 1u32 << count
}

fn is_item(count: usize, item: u8) -> bool
    ensures { IsTrue result → IsTrue (is_item_place count item) }
{
    1 <= item && usize::from(item) <= count
}
