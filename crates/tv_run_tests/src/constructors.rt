//! Dialogs that are made, or refused.

use crate::bodies::{checked, first_body, first_dialog};
use crate::opening::open;
use crate::stepping::is_corner;
use std::alloc::Global;
use std::test::Fail;
use tv_cells::{Point, Rect};
use tv_check::Checked;
use tv_dialog::{Dialog, DialogFault};
use tv_group::Group;
use tv_model::{Dialog as Declared, Id, Kind, Node};
use tv_test_support::descriptions::CANCEL;

// Where the dialog is declared.
const BOUNDS: Rect = Rect {
    a: Point { x: 2, y: 2 },
    b: Point { x: 16, y: 6 },
};

const BODY_BOUNDS: Rect = Rect {
    a: Point { x: 0, y: 0 },
    b: Point { x: 14, y: 4 },
};

// What is answered where a dialog is asked for of a button's node, with the views and rules of a dialog.
#[tactic(auto, using(crate::proofs::FreshLemmas::button_headless))]
fn refused(alloc: Global, node: &Node, declared: &Declared, body: Group) -> Result<Group, Fail> {
    let Kind::Button(_) = &node.kind else {
        return Err("no button".into());
    };
    if !is_corner(&Point {
        x: node.x,
        y: node.y,
    }) {
        return Err("a corner far away".into());
    }
    let views = declared.views.as_slice();
    match Dialog::new(alloc, node, views, declared.rules.as_slice(), body) {
        Err((DialogFault::WrongKind, body)) => Ok(body),
        _ => Err("the kind isn't refused".into()),
    }
}

// Fails unless a dialog over the body of its views stands where it is declared, and the body does in it.
fn expect_made(alloc: Global, checked: &Checked) -> Result<(), Fail> {
    let dialog = open(
        alloc,
        first_dialog(checked)?,
        first_body(alloc, checked)?,
        None,
    )?;
    let (is_open, is_held, focus) = (dialog.is_open(), dialog.held(), dialog.focus());
    let bounds = dialog.bounds();
    let body = dialog.into_body().bounds();
    if is_open && !is_held && focus == Id(5) && bounds == BOUNDS && body == BODY_BOUNDS {
        return Ok(());
    }
    Err(Fail::new(format_args!("{is_open} {is_held} {focus:?} {bounds:?} {body:?}")))
}

fn expect_refused(alloc: Global, checked: &Checked) -> Result<(), Fail> {
    let declared = first_dialog(checked)?;
    let views = declared.views.as_slice();
    if views.len() != 1 {
        return Err("there is more than a button".into());
    }
    let body = refused(alloc, &views[0], declared, first_body(alloc, checked)?)?;
    if body.is_fresh(&declared.node, views) {
        return Ok(());
    }
    Err("another body comes back".into())
}

#[test]
fn dialogs(rt: HostRuntime) -> Result<(), Fail> {
    let checked = checked(rt.alloc(), CANCEL)?;
    expect_made(rt.alloc(), &checked)?;
    expect_refused(rt.alloc(), &checked)
}
