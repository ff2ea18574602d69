//! Dialogs, menu bars and status lines.

ghost use Rattle.std.specs.Prelude.{IfOk};
ghost use Rattle.tv_machine.specs.Dialog.Lawful.{IsLawfulDialog};

use super::ending::{Ending, expect, expect_whole, refused};
use super::fixtures::{checked_of, views_of};
use std::alloc::Global;
use std::test::Fail;
use tv_check::Checked;
use tv_controls::Button;
use tv_dialog::{DialogFault, DialogOf};
use tv_group::GroupOf;
use tv_menu::{MenuBar, StatusLine};
use tv_model::Dialog as Declared;
use tv_session::parts_are_lawful;
use tv_test_support::descriptions::{CANCEL, MENUS};

// The first dialog of a checked description.
fn first_dialog(checked: &Checked) -> Result<&Declared, Ending>
    ensures { IfOk result (λ dialog. IsLawfulDialog dialog.now) }
{
    let dialogs = checked.desc().dialogs.as_slice();
    if dialogs.is_empty() {
        return Err(Ending::Other("no dialog"));
    }
    Ok(&dialogs[0])
}

fn first_body(alloc: Global, checked: &Checked) -> Result<GroupOf<Button>, Ending> {
    let mut bodies = views_of(alloc, checked)?.bodies;
    if bodies.is_empty() {
        return Err(Ending::Other("no body"));
    }
    Ok(bodies.swap_remove(0))
}

// Why no dialog is made, with the body, if none is.
fn refusal(
    alloc: Global,
    declared: &Declared,
    body: GroupOf<Button>,
) -> Option<(DialogFault, GroupOf<Button>)>
    requires { IsLawfulDialog declared.now }
{
    let views = declared.views.as_slice();
    let rules = declared.rules.as_slice();
    DialogOf::new(alloc, &declared.node, views, rules, body).err()
}

// A body that came back is as it was, and serves.
fn is_made(alloc: Global, declared: &Declared, body: GroupOf<Button>) -> bool
    requires { IsLawfulDialog declared.now }
{
    let is_fresh = body.is_fresh(&declared.node, declared.views.as_slice());
    is_fresh && refusal(alloc, declared, body).is_none()
}

fn made_dialog(alloc: Global) -> Result<(), Ending> {
    let checked = checked_of(alloc, CANCEL)?;
    let declared = first_dialog(&checked)?;
    let body = first_body(alloc, &checked)?;
    match refusal(alloc, declared, body) {
        None => Ok(()),
        Some((DialogFault::NoMemory, body)) => refused(is_made(alloc, declared, body)),
        Some((DialogFault::WrongKind, _)) => Err(Ending::Other("its kind is refused")),
    }
}

#[test]
fn dialog(rt: HostRuntime) -> Result<(), Fail> {
    expect_whole(made_dialog(rt.alloc()))
}

fn made_bars(alloc: Global) -> Result<(), Ending> {
    let checked = checked_of(alloc, MENUS)?;
    let desc = checked.desc();
    parts_are_lawful(desc);
    let bar = MenuBar::new(alloc, desc)?;
    StatusLine::new(alloc, desc)?;
    expect(!bar.is_open(), "an open menu")
}

#[test]
fn bars(rt: HostRuntime) -> Result<(), Fail> {
    expect_whole(made_bars(rt.alloc()))
}
