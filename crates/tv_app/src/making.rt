//! The views of a checked description.

ghost use Rattle.std.specs.List.{AllZip};
ghost use Rattle.std.specs.Prelude.{◌≡◌, ◌≤◌, ◌+◌, ◌++◌, ℕ, length, map, All, IfOk, IsTrue, None, Ok, OnOk};
ghost use Rattle.tv_group.specs.Opened.{group_bounds, joined, level_of, members_level, opened, opened_member};
ghost use Rattle.tv_group.specs.Outline.{IsFreshBody, body_bounds, declared, has_body, joined_outline, members_outline};
ghost use Rattle.tv_model.specs.Description.LawfulNodes.{IsLawfulNode};
ghost use Rattle.tv_model.specs.Description.Rectangles.{IsSmallRect};
ghost use Rattle.tv_session.specs.Freshness.{IsFreshBodyFor, IsFreshFor};
ghost use Rattle.tv_app.specs.Buildable.{AreBuildable, AreLeft, IsBuildableDialog, IsBuildableWindow};
ghost use Rattle.tv_app.specs.Control.{control_leaf};
ghost use Rattle.tv_app.specs.Making.{KeepsLeaves};
ghost use Rattle.tv_app.specs.Views.{AreAsDeclared, NoneMismatches};
ghost use Rattle.tv_view.specs.Meaning.{inside};

use crate::control::Control;
use std::alloc::{AllocError, Global};
use tv_cells::Rect;
use tv_check::Checked;
use tv_faces::rect_at;
use tv_group::{GroupOf, MemberOf};
use tv_model::{Dialog, Kind, Node, Window};
use tv_session::Views;
use tv_view::View;
use tv_window::WindowOf;

/// Makes the windows of a checked description and the bodies of its dialogs, as they stand before any event, of the toolkit's
/// own controls.
///
/// They are the views that the description declares (`declared`). So `SessionOf::new` refuses them for want of memory alone
/// (`accepted`).
///
/// # Errors
///
/// `AllocError` where memory ran out.
pub fn views(alloc: Global, checked: &Checked) -> Result<Views<Control>, AllocError>
    ensures declared { IfOk result (λ views. AreAsDeclared control_leaf checked.now views.windows.items views.bodies.items) }
    ensures accepted { IfOk result (λ views. NoneMismatches control_leaf checked.now views.windows.items views.bodies.items) }
{
    let keep = |_: Global, control: Control| -> Result<Control, AllocError>
        ensures { result ≡ Ok control }
    { Ok(control) };
    views_by(alloc, checked, &keep)
}

/// Makes the windows of a checked description and the bodies of its dialogs, as they stand before any event, of the toolkit's
/// own controls in whatever form `keep` gives them: each is the leaf then that the control was, in a box perhaps.
///
/// They are the views that the description declares (`declared`). So `SessionOf::new` refuses them for want of memory alone
/// (`accepted`).
///
/// # Errors
///
/// `AllocError` where memory ran out.
pub fn views_by<V: View, F: Fn(Global, Control) -> Result<V, AllocError>>(
    alloc: Global,
    checked: &Checked,
    keep: &F,
) -> Result<Views<V>, AllocError>
    requires callable { F.IsAlwaysCallable keep.now }
    requires keep { KeepsLeaves (F.post keep.now alloc) V.meaning }
    ensures declared { IfOk result (λ views. AreAsDeclared V.meaning checked.now views.windows.items views.bodies.items) }
    ensures accepted { IfOk result (λ views. NoneMismatches V.meaning checked.now views.windows.items views.bodies.items) }
{
    let desc = checked.desc();
    let windows = windows_of(alloc, desc.windows.as_slice(), keep)?;
    let bodies = bodies_of(alloc, desc.dialogs.as_slice(), keep)?;
    Ok(Views { windows, bodies })
}

fn windows_of<V: View, F: Fn(Global, Control) -> Result<V, AllocError>>(
    alloc: Global,
    declared: &[Window],
    keep: &F,
) -> Result<Vec<WindowOf<V>>, AllocError>
    requires callable { F.IsAlwaysCallable keep.now }
    requires keep { KeepsLeaves (F.post keep.now alloc) V.meaning }
    requires windows { All IsBuildableWindow declared.now }
    ensures { IfOk result (λ windows. AllZip (IsFreshFor V.meaning) declared.now windows.items) }
{
    let mut windows = Vec::new(alloc);
    for window in declared {
        windows.push(window_of(alloc, window, keep)?)?;
    }
    Ok(windows)
}

fn bodies_of<V: View, F: Fn(Global, Control) -> Result<V, AllocError>>(
    alloc: Global,
    declared: &[Dialog],
    keep: &F,
) -> Result<Vec<GroupOf<V>>, AllocError>
    requires callable { F.IsAlwaysCallable keep.now }
    requires keep { KeepsLeaves (F.post keep.now alloc) V.meaning }
    requires dialogs { All IsBuildableDialog declared.now }
    ensures { IfOk result (λ bodies. AllZip (IsFreshBodyFor V.meaning) declared.now bodies.items) }
{
    let mut bodies = Vec::new(alloc);
    for dialog in declared {
        bodies.push(body_of(alloc, &dialog.node, dialog.views.as_slice(), keep)?)?;
    }
    Ok(bodies)
}

fn window_of<V: View, F: Fn(Global, Control) -> Result<V, AllocError>>(
    alloc: Global,
    window: &Window,
    keep: &F,
) -> Result<WindowOf<V>, AllocError>
    requires callable { F.IsAlwaysCallable keep.now }
    requires keep { KeepsLeaves (F.post keep.now alloc) V.meaning }
    requires window { IsBuildableWindow window.now }
    ensures { IfOk result (λ made. IsFreshFor V.meaning window.now made) }
{
    let body = body_of(alloc, &window.node, window.views.as_slice(), keep)?;
    match WindowOf::new(&window.node, body) {
        Ok(made) => Ok(made),
        Err(_) => unreachable!(),
    }
}

// The body of a window or dialog with these views.
fn body_of<V: View, F: Fn(Global, Control) -> Result<V, AllocError>>(
    alloc: Global,
    owner: &Node,
    views: &[Node],
    keep: &F,
) -> Result<GroupOf<V>, AllocError>
    requires callable { F.IsAlwaysCallable keep.now }
    requires keep { KeepsLeaves (F.post keep.now alloc) V.meaning }
    requires lawful { IsLawfulNode owner.now }
    requires owner { IsTrue (has_body owner.now.kind) }
    requires views { AreBuildable 0 views.now }
    ensures { IfOk result (λ body. IsFreshBody V.meaning owner.now views.now body) }
{
    let mut members = Vec::new(alloc);
    add_members(alloc, &mut members, views, 0, keep)?;
    Ok(group_of(body_rect(owner), members))
}

// Where the body of a window or dialog stands, seen from its corner.
#[tactic(auto, using(tv_session::proofs::OwnerLemmas::window_small, tv_session::proofs::OwnerLemmas::dialog_small))]
fn body_rect(owner: &Node) -> Rect
    requires lawful { IsLawfulNode owner.now }
    requires owner { IsTrue (has_body owner.now.kind) }
    ensures is { result ≡ body_bounds owner.now }
    ensures small { IsSmallRect result }
{
    match &owner.kind {
        Kind::Window(head) => rect_at(&0, &0, &owner.w, &head.h),
        Kind::Dialog(head) => rect_at(&0, &0, &owner.w, &head.h),
        _ => unreachable!(),
    }
}

// The group of these members.
fn group_of<V: View>(bounds: Rect, members: Vec<MemberOf<V>>) -> GroupOf<V>
    requires bounds { IsSmallRect bounds }
    requires level { members_level members.items ≤ 4 }
    ensures leaves { opened V.meaning result ≡ map (inside bounds) (joined None 0 (map (opened_member V.meaning) members.items)) }
    ensures outline { (depth : ℕ) → members_outline V.meaning result depth ≡ joined_outline V.meaning members.items depth }
    ensures level { level_of result ≡ members_level members.items + 1 }
    ensures bounds { group_bounds result ≡ bounds }
{
    match GroupOf::new(bounds, members) {
        Ok(group) => group,
        Err(_) => unreachable!(),
    }
}

// Adds the members that views in so many panes declare, up to the first in fewer. Returns the views that are left.
#[tactic(auto, using(tv_session::proofs::OwnerLemmas::pane_small))]
fn add_members<'a, V: View, F: Fn(Global, Control) -> Result<V, AllocError>>(
    alloc: Global,
    members: &mut Vec<MemberOf<V>>,
    views: &'a [Node],
    panes: u8,
    keep: &F,
) -> Result<&'a [Node], AllocError>
    requires callable { F.IsAlwaysCallable keep.now }
    requires keep { KeepsLeaves (F.post keep.now alloc) V.meaning }
    requires views { AreBuildable panes views.now }
    requires level { members_level members.old.items + panes ≤ 4 }
    ensures added { IfOk result (λ left. joined_outline V.meaning members.new.items (panes + 1)
        ++ map declared left.now ≡ joined_outline V.meaning members.old.items (panes + 1) ++ map declared views.now) }
    ensures level { OnOk result (members_level members.new.items + panes ≤ 4) }
    ensures left { IfOk result (λ left. AreLeft panes left.now) }
    ensures fewer { IfOk result (λ left. length left.now ≤ length views.now) }
{
    let Some((view, behind)) = views.split_first() else {
        return Ok(views);
    };
    if view.depth < panes {
        return Ok(views);
    }
    match &view.kind {
        Kind::Pane(pane) => {
            let mut inner = Vec::new(alloc);
            let after = add_members(alloc, &mut inner, behind, panes + 1, keep)?;
            let bounds = rect_at(&view.x, &view.y, &view.w, &pane.h);
            members.push(MemberOf::Pane(group_of(bounds, inner)))?;
            add_members(alloc, members, after, panes, keep)
        }
        _ => {
            let control = Control::of_leaf(alloc, view)?;
            members.push(MemberOf::Leaf(keep(alloc, control)?))?;
            add_members(alloc, members, behind, panes, keep)
        }
    }
}
