//! What no mask of a list shows or leaves free.

ghost use Rattle.std.specs.Prelude.{◌≡◌, ◌↔◌, ◌≤◌, ℕ, IfNone, IfOk, IfSome, IsTrue, not, length, All, Any};
ghost use Rattle.tv_model.specs.Description.Commands.{command_number, command_of};
ghost use Rattle.tv_valid.specs.Asking.{domain_of};
ghost use Rattle.tv_valid.specs.Deciding.{in_domain};
ghost use Rattle.tv_model.specs.Kinds.InputLine.{is_outside_domain};
ghost use Rattle.tv_machine.specs.Dialog.Rules.{enables};
ghost use Rattle.tv_machine.specs.Leaves.{PlacedNode, leaf_list};
ghost use Rattle.tv_reach.specs.Found.{HasRuleFor, IsCase, IsInNone, IsLeafOf};
ghost use Rattle.tv_reach.specs.Masks.{HasRule};
ghost use Rattle.tv_reach.specs.Never.{Blocks, IsNeverFree, starts_invalid};
ghost use Rattle.tv_reach.specs.Runs.{IsNeverShown};
ghost use Rattle.tv_reach.specs.Shown.{IsMaskOf};

use crate::mask::Mask;
use crate::shown::ShownLeaf;
use std::alloc::{AllocError, Global};
use tv_model::{Desc, Dialog, Effect, Id, Input, Kind, Node, Rule};
use tv_valid::{Domain, DomainFault, Text};

/// A dialog of a description, its leaves, and masks of its rules.
#[derive(Clone, Copy)]
pub(crate) struct Case<'a> {
    pub(crate) desc: &'a Desc,
    pub(crate) dialog: &'a Dialog,
    pub(crate) masks: &'a [Mask],
    pub(crate) leaves: &'a [ShownLeaf<'a>],
}

// Whether none of the masks has all of these rules.
fn is_in_none(masks: &[Mask], rules: Mask) -> bool
    ensures { IsTrue result ↔ IsInNone masks.now rules }
{
    for mask in masks {
        if mask.contains_all(rules) {
            return false;
        }
    }
    true
}

// Whether the rule enables the command of the number.
fn is_enabling(rule: &Rule, number: u32) -> bool
    ensures { result ≡ enables number rule.now.effect }
{
    match &rule.effect {
        Effect::Show(_) => false,
        Effect::Enable(command) => command.number() == number,
    }
}

/// Returns the rules that enable the command of the number.
pub(crate) fn enabling_rules(rules: &[Rule], number: u32) -> Mask
    requires { length rules.now ≤ 64 }
    ensures { IsMaskOf (λ rule. enables number rule.effect) rules.now result }
{
    let mut mask = Mask::NONE;
    for (place, rule) in rules.iter().enumerate() {
        if is_enabling(rule, number) {
            mask = mask.union(Mask::only(place));
        }
    }
    mask
}

// The rules that enable what the view gives, if it gives a command.
fn own_enabling_rules(rules: &[Rule], node: &Node) -> Mask
    requires { length rules.now ≤ 64 }
    ensures { (k : ℕ) → HasRule result k ↔ HasRuleFor rules.now (command_of node.now.kind) k }
{
    match &node.kind {
        Kind::Button(button) => enabling_rules(rules, button.command.number()),
        _ => Mask::NONE,
    }
}

// Whether the leaf is never shown and enabled, or no control.
fn is_never_free(case: &Case, leaf: &ShownLeaf) -> bool
    requires { IsCase case.now }
    ensures { (placed : PlacedNode) → IsLeafOf case.now placed leaf.now
        → IsTrue result ↔ IsNeverFree case.now.dialog.now case.now.masks.now placed }
{
    if leaf.node.kind.is_control() {
        let enabled_by = own_enabling_rules(case.dialog.rules.as_slice(), leaf.node);
        is_in_none(case.masks, leaf.shown_by.union(enabled_by))
    } else {
        true
    }
}

// Whether the leaf has another id, or is never free.
fn is_not_free(case: &Case, leaf: &ShownLeaf, id: Id) -> bool
    requires { IsCase case.now }
    ensures { (placed : PlacedNode) → IsLeafOf case.now placed leaf.now
        → IsTrue result ↔ (placed.node.id ≡ id → IsNeverFree case.now.dialog.now case.now.masks.now placed) }
{
    if leaf.node.id == id {
        is_never_free(case, leaf)
    } else {
        true
    }
}

/// Whether what has the id is never free.
pub(crate) fn are_never_free(case: &Case, id: Id) -> bool
    requires { IsCase case.now }
    ensures { IsTrue result ↔ All (λ leaf. leaf.node.id ≡ id
        → IsNeverFree case.now.dialog.now case.now.masks.now leaf) (leaf_list case.now.dialog.now.views) }
{
    for leaf in case.leaves {
        if !is_not_free(case, leaf, id) {
            return false;
        }
    }
    true
}

// Whether the leaf has another id, or is never shown.
fn is_not_shown(case: &Case, leaf: &ShownLeaf, id: Id) -> bool
    ensures { (placed : PlacedNode) → IsLeafOf case.now placed leaf.now
        → IsTrue result ↔ (placed.node.id ≡ id → IsNeverShown case.now.dialog.now case.now.masks.now placed) }
{
    if leaf.node.id == id {
        is_in_none(case.masks, leaf.shown_by)
    } else {
        true
    }
}

/// Whether what has the id is never shown.
pub(crate) fn are_never_shown(case: &Case, id: Id) -> bool
    requires { IsCase case.now }
    ensures { IsTrue result ↔ All (λ leaf. leaf.node.id ≡ id
        → IsNeverShown case.now.dialog.now case.now.masks.now leaf) (leaf_list case.now.dialog.now.views) }
{
    for leaf in case.leaves {
        if !is_not_shown(case, leaf, id) {
            return false;
        }
    }
    true
}

// Whether the text lies outside the domain.
fn lies_outside(domain: &Domain, chars: &[char]) -> bool
    ensures { result ≡ not (in_domain domain.now chars.now) }
{
    match Text::from_chars(chars) {
        Some(text) => !domain.accepts(&text),
        None => true,
    }
}

/// Whether the text that the input starts with lies outside its domain. An input with a wrong picture has none.
pub fn starts_outside(alloc: Global, input: &Input) -> Result<bool, AllocError>
    ensures { IfOk result (λ outside. outside ≡ is_outside_domain (domain_of input.now.spec) input.now.start) }
{
    match Domain::new(alloc, &input.spec) {
        Ok(domain) => Ok(lies_outside(&domain, input.start.as_slice())),
        Err(DomainFault::NoMemory) => Err(AllocError),
        Err(DomainFault::BadPicture(_)) => Ok(false),
        Err(DomainFault::Empty) => Ok(true),
    }
}

// Whether the view is an input that starts so.
fn starts_invalid(alloc: Global, node: &Node) -> Result<bool, AllocError>
    ensures { IfOk result (λ outside. outside ≡ starts_invalid node.now.kind) }
{
    match &node.kind {
        Kind::Input(input) => starts_outside(alloc, input),
        _ => Ok(false),
    }
}

// Whether the leaf is an input that starts so, and is never shown.
fn is_blocking(alloc: Global, case: &Case, leaf: &ShownLeaf) -> Result<bool, AllocError>
    ensures { IfOk result (λ is. (placed : PlacedNode) → IsLeafOf case.now placed leaf.now
        → IsTrue is ↔ Blocks case.now.dialog.now case.now.masks.now placed.node.id placed) }
{
    if is_in_none(case.masks, leaf.shown_by) {
        starts_invalid(alloc, leaf.node)
    } else {
        Ok(false)
    }
}

/// Returns the id of an input that starts with a text outside its domain, and is never shown.
pub(crate) fn blocking(alloc: Global, case: &Case) -> Result<Option<Id>, AllocError>
    requires { IsCase case.now }
    ensures found { IfOk result (λ found. IfSome found (λ i.
        Any (Blocks case.now.dialog.now case.now.masks.now i) (leaf_list case.now.dialog.now.views))) }
    ensures exact { IfOk result (λ found. IfNone found (All (λ leaf.
        Blocks case.now.dialog.now case.now.masks.now leaf.node.id leaf → ⊥) (leaf_list case.now.dialog.now.views))) }
{
    for leaf in case.leaves {
        let blocks = is_blocking(alloc, case, leaf)?;
        if blocks {
            return Ok(Some(leaf.node.id));
        }
    }
    Ok(None)
}
