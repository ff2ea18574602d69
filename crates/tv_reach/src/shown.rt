//! Which rules show each leaf of a dialog.

ghost use Rattle.std.specs.Prelude.{◌≡◌, ◌≤◌, length, IfOk};
ghost use Rattle.std.specs.List.{list_any};
ghost use Rattle.tv_model.specs.Description.Nodes.{has_id};
ghost use Rattle.tv_machine.specs.Dialog.Rules.{shows};
ghost use Rattle.tv_reach.specs.Shown.{AreShownLeaves, IsMaskOf, is_around, placed_node};

use crate::mask::Mask;
use std::alloc::{AllocError, Global};
use tv_model::{Effect, Id, Node, Rule};
use tv_names::Names;

/// A leaf of a dialog, with the rules that show it or a pane around it.
#[derive(Clone, Copy)]
pub(crate) struct ShownLeaf<'a> {
    pub(crate) node: &'a Node,
    pub(crate) shown_by: Mask,
}

// A leaf, and the panes around it from the innermost out.
#[derive(Clone, Copy)]
struct Placed<'a> {
    node: &'a Node,
    panes: &'a [&'a Node],
}

fn any_has(panes: &[&Node], id: Id) -> bool
    ensures { result ≡ list_any (λ pane. has_id id pane.now) panes.now }
{
    panes.iter().any(|pane| pane.id == id)
}

// Whether the view of the id is the leaf or a pane around it.
fn is_around(leaf: Placed, target: Id) -> bool
    ensures { result ≡ is_around (placed_node leaf.entry) target }
{
    leaf.node.id == target || any_has(leaf.panes, target)
}

// Whether the rule shows the leaf or a pane around it.
fn shows(names: &Names, leaf: Placed, rule: &Rule) -> bool
    ensures { result ≡ shows names.now (placed_node leaf.entry) rule.now.effect }
{
    match &rule.effect {
        Effect::Show(name) => match names.meant(name) {
            Some(target) => is_around(leaf, target.id),
            None => false,
        },
        Effect::Enable(_) => false,
    }
}

// The rules that show the leaf or a pane around it.
fn shown_by(names: &Names, leaf: Placed, rules: &[Rule]) -> Mask
    requires { length rules.now ≤ 64 }
    ensures { IsMaskOf (λ rule. shows names.now (placed_node leaf.entry) rule.effect) rules.now result }
{
    let mut mask = Mask::NONE;
    for (place, rule) in rules.iter().enumerate() {
        if shows(names, leaf, rule) {
            mask = mask.union(Mask::only(place));
        }
    }
    mask
}

/// Returns the leaves among the views, in description order, with the rules that show them.
pub(crate) fn shown_leaves<'a>(
    alloc: Global,
    names: &Names,
    views: &'a [Node],
    rules: &[Rule],
) -> Result<Vec<ShownLeaf<'a>>, AllocError>
    requires few { length rules.now ≤ 64 }
    requires same { names.now ≡ views.now }
    ensures { IfOk result (λ leaves. AreShownLeaves views.now rules.now leaves.items) }
{
    let mut leaves = Vec::new(alloc);
    let mut panes: Vec<&Node> = Vec::new(alloc);
    for view in views {
        panes.retain(|pane| pane.depth < view.depth);
        if view.kind.is_pane() {
            panes.insert(0, view)?;
        } else {
            let leaf = Placed {
                node: view,
                panes: &panes,
            };
            leaves.push(ShownLeaf {
                node: view,
                shown_by: shown_by(names, leaf, rules),
            })?;
        }
    }
    Ok(leaves)
}
