//! The way of the focus through nested groups.

use crate::bodies::{checked, first_body, first_dialog};
use crate::naming::{id_of, put};
use crate::opening::open;
use std::alloc::Global;
use std::test::Fail;
use tv_cells::Damage;
use tv_check::Checked;
use tv_event::{Command, CommandSet};
use tv_group::{Advanced, Dir, Group};
use tv_model::{Dialog, Id, Record, Value};
use tv_test_support::descriptions::ORDER;
use tv_view::Rules;

// Walks through the body of an order form.
struct Walk {
    /// Whether the form opens with the first two of its items marked.
    is_marked: bool,
    /// The view that is hidden then.
    hidden: &'static str,
    /// The command that is disabled then.
    disabled: Option<Command>,
    /// What a walk from the first control passes.
    there: &'static [&'static str],
    /// What a walk from the last control passes.
    back: &'static [&'static str],
}

const WALKS: [Walk; 2] = [
    Walk {
        is_marked: true,
        hidden: "more",
        disabled: None,
        there: &["opts", "qty", "ok", "no", "log"],
        back: &["no", "ok", "qty", "opts", "amount"],
    },
    Walk {
        is_marked: false,
        hidden: "qty",
        disabled: Some(Command::OK),
        there: &["opts", "no", "log"],
        back: &["no", "opts", "amount"],
    },
];

// The ids of all views but that of a name.
fn all_but(alloc: Global, dialog: &Dialog, name: &str) -> Result<Vec<Id>, Fail> {
    let hidden = id_of(dialog, name)?;
    let mut shown = Vec::new(alloc);
    for view in dialog.views.as_slice() {
        if view.id != hidden {
            shown.push(view.id)?;
        }
    }
    Ok(shown)
}

// Hides a view, and disables a command.
fn rule(alloc: Global, body: &mut Group, dialog: &Dialog, walk: &Walk) -> Result<(), Fail> {
    let shown = all_but(alloc, dialog, walk.hidden)?;
    let mut commands = CommandSet::all();
    if let Some(command) = walk.disabled {
        commands.disable(command);
    }
    let rules = Rules {
        shown: &shown,
        commands: &commands,
    };
    body.apply(&rules, &mut Damage::new());
    Ok(())
}

// Fails unless a walk from a control passes these, and ends at the edge.
fn expect_walk(body: &mut Group, dialog: &Dialog, dir: Dir, names: &[&str]) -> Result<(), Fail> {
    for name in names {
        let found = body.advance(dir, &mut Damage::new());
        if found != Advanced::Moved(id_of(dialog, name)?) {
            return Err(Fail::new(format_args!("{found:?} for {name}")));
        }
    }
    if body.advance(dir, &mut Damage::new()) == Advanced::Edge {
        return Ok(());
    }
    Err("there is more than these".into())
}

// Fails unless walks both ways pass what they should, and end at the first and the last of it.
fn expect_walks(body: &mut Group, dialog: &Dialog, walk: &Walk) -> Result<(), Fail> {
    if !body.focus_to(id_of(dialog, "amount")?, &mut Damage::new()) {
        return Err("there is no amount".into());
    }
    expect_walk(body, dialog, Dir::Forward, walk.there)?;
    if body.enter(Dir::Backward, &mut Damage::new()) != Some(id_of(dialog, "log")?) {
        return Err("entered elsewhere".into());
    }
    expect_walk(body, dialog, Dir::Backward, walk.back)
}

// The values of a body with the first two of the items marked, or none where it is to keep its own.
fn values_for(body: &Group, dialog: &Dialog, is_marked: bool) -> Result<Option<Record>, Fail> {
    if !is_marked {
        return Ok(None);
    }
    let mut values = Record::new();
    body.gather(&mut values);
    let opts = id_of(dialog, "opts")?;
    put(&mut values, opts, Value::Marks(0b11))?;
    Ok(Some(values))
}

// The body of an order form that was opened, with both items marked or as it is declared.
fn opened(alloc: Global, checked: &Checked, is_marked: bool) -> Result<Group, Fail> {
    let dialog = first_dialog(checked)?;
    let body = first_body(alloc, checked)?;
    let values = values_for(&body, dialog, is_marked)?;
    let dialog = open(alloc, dialog, body, values.as_ref())?;
    Ok(dialog.into_body())
}

fn expect_way(alloc: Global, checked: &Checked, walk: &Walk) -> Result<(), Fail> {
    let dialog = first_dialog(checked)?;
    let mut body = opened(alloc, checked, walk.is_marked)?;
    rule(alloc, &mut body, dialog, walk)?;
    expect_walks(&mut body, dialog, walk)
}

#[test]
fn nested_groups(rt: HostRuntime) -> Result<(), Fail> {
    let checked = checked(rt.alloc(), ORDER)?;
    for walk in &WALKS {
        expect_way(rt.alloc(), &checked, walk)?;
    }
    Ok(())
}
