//! Whether a record fits views.

ghost use Rattle.std.specs.Prelude.{◌≡◌, ◌<◌, ◌^◌, IfOk, IsTrue, Some, option_copied};
ghost use Rattle.tv_model.specs.declared.kind.Kind.TheVariants as kinds;
ghost use Rattle.tv_model.specs.declared.record.Value.TheVariants as values;
ghost use Rattle.tv_model.specs.Controls.Contents.{is_item_place};
ghost use Rattle.tv_view.specs.Calls.{IsFieldValue};
ghost use Rattle.tv_run_tests.specs.Fitting.{FitsViews};

use std::alloc::Global;
use std::test::Fail;
use tv_model::{CheckBoxes, Input, Kind, Node, Record, Value};
use tv_valid::{Domain, Text};

fn is_viable(alloc: Global, input: &Input, text: &Text) -> Result<bool, Fail>
    ensures { IfOk result (λ is. IsTrue is → IsFieldValue (kinds.Input input.now) (Some (values.Text text.now))) }
{
    Ok(Domain::new(alloc, &input.spec)?.viable(text))
}

// Whether check boxes of so many items may have the marks.
fn are_marks(count: usize, marks: u16) -> bool
    ensures { IsTrue result → marks < 2 ^ count }
{
    match u32::try_from(count)
        .ok()
        .and_then(|count| 2u64.checked_pow(count))
    {
        Some(most) => u64::from(marks) < most,
        None => false,
    }
}

// Whether there is the item among so many.
fn is_item(count: usize, item: u8) -> bool
    ensures { result ≡ is_item_place count item }
{
    1 <= item && usize::from(item) <= count
}

// Whether the view of a node may have the value.
fn is_value(alloc: Global, node: &Node, value: Option<&Value>) -> Result<bool, Fail>
    ensures { IfOk result (λ is. IsTrue is → IsFieldValue node.now.kind (option_copied value.entry)) }
{
    match (&node.kind, value) {
        (Kind::Input(input), Some(Value::Text(text))) => is_viable(alloc, input, text),
        (Kind::CheckBoxes(boxes), Some(Value::Marks(marks))) => {
            Ok(are_marks(boxes.items.as_slice().len(), *marks))
        }
        (Kind::RadioButtons(radios), Some(Value::Item(item))) => {
            Ok(is_item(radios.items.as_slice().len(), *item))
        }
        (Kind::List(list), Some(Value::Item(item))) => {
            Ok(is_item(list.items.as_slice().len(), *item))
        }
        (Kind::Window(_) | Kind::Dialog(_) | Kind::Text(_), _) => Ok(true),
        (Kind::Label(_) | Kind::Button(_) | Kind::Pane(_), _) => Ok(true),
        _ => Ok(false),
    }
}

/// Fails where some view may not have its value of the record.
pub fn expect_fit(alloc: Global, views: &[Node], values: &Record) -> Result<(), Fail>
    ensures { IfOk result (λ _. FitsViews values.now views.now) }
{
    for view in views {
        if !is_value(alloc, view, values.value(view.id))? {
            return Err("a value doesn't fit".into());
        }
    }
    Ok(())
}
