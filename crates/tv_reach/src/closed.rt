//! Whether a list of masks is closed.

ghost use Rattle.std.specs.Prelude.{◌≡◌, ◌≤◌, ◌↔◌, ℕ, length, All, Any, IfOk, IsTrue};
ghost use Rattle.tv_machine.specs.Dialog.Lawful.{IsLawfulDialog};
ghost use Rattle.tv_reach.specs.Masks.{AreMasksOf, HasRule, IsClosed};
ghost use Rattle.tv_reach.specs.Shown.{AreClosed, HasStart, HasStarting, IsLeafFollowed, IsMoved, IsPart, IsRuleFollowed, Passes, starts_in};

use crate::choices::{chosen_rules, is_own, own_rules, starting_rules};
use crate::mask::Mask;
use crate::shown::{ShownLeaf, shown_leaves};
use std::alloc::{AllocError, Global};
use tv_model::{Dialog, Rule, natural};
use tv_names::Names;

// Whether one of the masks has all rules of this one.
fn any_contains(masks: &[Mask], wanted: Mask) -> bool
    ensures { IsTrue result ↔ Any (IsPart wanted) masks.now }
{
    for mask in masks {
        if mask.contains_all(wanted) {
            return true;
        }
    }
    false
}

// Whether the choice of a leaf leads from the mask to one of these, if it shows the leaf.
fn leads_on(masks: &[Mask], mask: Mask, leaf: &ShownLeaf, own: Mask, choice: Mask) -> bool
    ensures { IsTrue result ↔ (IsPart leaf.now.shown_by mask → Any (IsMoved own choice mask) masks.now) }
{
    if mask.contains_all(leaf.shown_by) {
        any_contains(masks, mask.without(own).union(choice))
    } else {
        true
    }
}

// Whether it does so from each of the masks.
fn leads(masks: &[Mask], leaf: &ShownLeaf, own: Mask, choice: Mask) -> bool
    ensures { IsTrue result ↔ All (λ mask. IsPart leaf.now.shown_by mask → Any (IsMoved own choice mask) masks.now) masks.now }
{
    for mask in masks {
        if !leads_on(masks, *mask, leaf, own, choice) {
            return false;
        }
    }
    true
}

// Whether the choice that the rule asks for leads to one of the masks, if it asks for one of the leaf's.
fn is_rule_followed(
    names: &Names,
    rules: &[Rule],
    masks: &[Mask],
    leaf: &ShownLeaf,
    rule: &Rule,
) -> bool
    requires { length rules.now ≤ 64 }
    ensures followed { IsTrue result → IsRuleFollowed names.now rules.now masks.now leaf.now rule.now }
    ensures exact { AreMasksOf rules.now masks.now → IsRuleFollowed names.now rules.now masks.now leaf.now rule.now → IsTrue result }
{
    if is_own(names, leaf.node, rule) {
        let own = own_rules(names, leaf.node, rules);
        let choice = chosen_rules(names, leaf.node, natural(&rule.item), rules);
        leads(masks, leaf, own, choice)
    } else {
        true
    }
}

// Whether each choice of the leaf leads to one of the masks.
fn is_leaf_followed(names: &Names, rules: &[Rule], masks: &[Mask], leaf: &ShownLeaf) -> bool
    requires { length rules.now ≤ 64 }
    ensures followed { IsTrue result → IsLeafFollowed names.now rules.now masks.now leaf.now }
    ensures exact { AreMasksOf rules.now masks.now → IsLeafFollowed names.now rules.now masks.now leaf.now → IsTrue result }
{
    for rule in rules {
        if !is_rule_followed(names, rules, masks, leaf, rule) {
            return false;
        }
    }
    true
}

fn are_leaves_followed(names: &Names, rules: &[Rule], masks: &[Mask], leaves: &[ShownLeaf]) -> bool
    requires { length rules.now ≤ 64 }
    ensures followed { IsTrue result → All (IsLeafFollowed names.now rules.now masks.now) leaves.now }
    ensures exact { AreMasksOf rules.now masks.now → All (IsLeafFollowed names.now rules.now masks.now) leaves.now → IsTrue result }
{
    for leaf in leaves {
        if !is_leaf_followed(names, rules, masks, leaf) {
            return false;
        }
    }
    true
}

// The rules that hold as the leaves are declared.
fn start_of(names: &Names, rules: &[Rule], leaves: &[ShownLeaf]) -> Mask
    requires { length rules.now ≤ 64 }
    ensures has { All (λ leaf. HasStarting names.now rules.now result leaf.node.now) leaves.now }
    ensures only { (place : ℕ) → HasRule result place → Any (λ leaf. Passes (starts_in names.now leaf.node.now) rules.now place) leaves.now }
{
    let mut start = Mask::NONE;
    for leaf in leaves {
        start = start.union(starting_rules(names, leaf.node, rules));
    }
    start
}

// Whether one of the masks has the rules that hold at the start, and each choice of a leaf leads to one.
fn are_closed(names: &Names, rules: &[Rule], masks: &[Mask], leaves: &[ShownLeaf]) -> bool
    requires { length rules.now ≤ 64 }
    ensures closed { IsTrue result → AreClosed names.now rules.now masks.now leaves.now }
    ensures exact { AreMasksOf rules.now masks.now → Any (HasStart names.now rules.now leaves.now) masks.now
        → All (IsLeafFollowed names.now rules.now masks.now) leaves.now → IsTrue result }
{
    let start = start_of(names, rules, leaves);
    if any_contains(masks, start) {
        are_leaves_followed(names, rules, masks, leaves)
    } else {
        false
    }
}

/// Whether the masks are closed: one has every rule that holds as the dialog is declared, and where one shows a cluster, each
/// choice of its items leads to one of them. It is never so with more than 64 rules, of which a mask can hold no more.
pub fn is_closed(alloc: Global, dialog: &Dialog, masks: &[Mask]) -> Result<bool, AllocError>
    ensures closed { IfOk result (λ closed. IsTrue closed → IsClosed dialog.now masks.now) }
    ensures exact { IfOk result (λ closed. IsLawfulDialog dialog.now → length dialog.now.rules ≤ 64
        → AreMasksOf dialog.now.rules masks.now → IsClosed dialog.now masks.now → IsTrue closed) }
{
    let rules = dialog.rules.as_slice();
    if rules.len() > 64 {
        return Ok(false);
    }
    let views = dialog.views.as_slice();
    let names = Names::new(alloc, views)?;
    let leaves = shown_leaves(alloc, &names, views, rules)?;
    Ok(are_closed(&names, rules, masks, &leaves))
}
