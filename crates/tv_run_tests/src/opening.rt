//! Dialogs that open over fresh bodies.

ghost use Rattle.tv_machine.specs.Dialog.Lawful.{IsLawfulDialog};

use crate::fitting::expect_fit;
use std::alloc::Global;
use std::test::Fail;
use tv_cells::Damage;
use tv_dialog::Dialog;
use tv_group::Group;
use tv_model::{Dialog as Declared, Record};

/// The dialog over a body of its views, opened with the values of a record, or with those that its views have.
pub fn open(
    alloc: Global,
    declared: &Declared,
    body: Group,
    values: Option<&Record>,
) -> Result<Dialog, Fail>
    requires { IsLawfulDialog declared.now }
{
    let views = declared.views.as_slice();
    if !body.is_fresh(&declared.node, views) {
        return Err("the body isn't fresh".into());
    }
    let rules = declared.rules.as_slice();
    let Ok(mut dialog) = Dialog::new(alloc, &declared.node, views, rules, body) else {
        return Err("no dialog".into());
    };
    let mut first = Record::new();
    dialog.record(&mut first);
    let values = values.unwrap_or(&first);
    expect_fit(alloc, views, values)?;
    dialog.reopen(values, &mut Damage::new());
    Ok(dialog)
}

/// A body of these views, after its values were set to those of a record.
pub fn with_values(
    alloc: Global,
    declared: &Declared,
    mut body: Group,
    values: &Record,
) -> Result<Group, Fail> {
    let views = declared.views.as_slice();
    if !body.is_fresh(&declared.node, views) {
        return Err("the body isn't fresh".into());
    }
    expect_fit(alloc, views, values)?;
    body.set(values, &mut Damage::new());
    Ok(body)
}
