//! Which rules of a cluster may hold: at the start, and with each choice of an item.

ghost use Rattle.std.specs.Prelude.{◌≡◌, ◌≤◌, ◌&&◌, length, Some};
ghost use Rattle.tv_model.specs.declared.record.Value.TheVariants as values;
ghost use Rattle.tv_model.specs.Description.Names.{meant};
ghost use Rattle.tv_model.specs.Kinds.Cluster.{is_marked, marks_of};
ghost use Rattle.tv_machine.specs.Controls.Declared.{declared_value};
ghost use Rattle.tv_reach.specs.Marks.{is_view};
ghost use Rattle.tv_reach.specs.Masks.{may_hold};
ghost use Rattle.tv_reach.specs.Shown.{IsMaskOf, is_own_in, starts_in};

use crate::mask::Mask;
use tv_model::{CheckBoxes, Kind, Node, Rule, natural};
use tv_names::Names;

/// Whether the rule asks for a mark of the view.
pub(crate) fn is_own(names: &Names, node: &Node, rule: &Rule) -> bool
    ensures { result ≡ is_own_in names.now node.now rule.now }
{
    match names.meant(&rule.cluster) {
        Some(cluster) => cluster.id == node.id,
        None => false,
    }
}

// Whether the rule may hold while the item is chosen: of radio buttons those that ask for it, of check boxes all.
fn may_hold(kind: &Kind, item: u32, rule: &Rule) -> bool
    ensures { result ≡ may_hold kind.now item rule.now }
{
    match kind {
        Kind::RadioButtons(_) => natural(&rule.item) == item,
        _ => true,
    }
}

/// Returns the rules that ask for a mark of the view.
pub(crate) fn own_rules(names: &Names, node: &Node, rules: &[Rule]) -> Mask
    requires { length rules.now ≤ 64 }
    ensures { IsMaskOf (is_own_in names.now node.now) rules.now result }
{
    let mut mask = Mask::NONE;
    for (place, rule) in rules.iter().enumerate() {
        if is_own(names, node, rule) {
            mask = mask.union(Mask::only(place));
        }
    }
    mask
}

fn is_chosen(names: &Names, node: &Node, item: u32, rule: &Rule) -> bool
    ensures { result ≡ (is_own_in names.now node.now rule.now && may_hold node.now.kind item rule.now) }
{
    is_own(names, node, rule) && may_hold(&node.kind, item, rule)
}

/// Returns those rules of the view that may hold while the item is chosen.
pub(crate) fn chosen_rules(names: &Names, node: &Node, item: u32, rules: &[Rule]) -> Mask
    requires { length rules.now ≤ 64 }
    ensures { IsMaskOf (λ rule. is_own_in names.now node.now rule && may_hold node.now.kind item rule) rules.now result }
{
    let mut mask = Mask::NONE;
    for (place, rule) in rules.iter().enumerate() {
        if is_chosen(names, node, item, rule) {
            mask = mask.union(Mask::only(place));
        }
    }
    mask
}

// Whether the check boxes are declared with the item marked.
fn is_box_marked(boxes: &CheckBoxes, item: u32) -> bool
    ensures { result ≡ is_marked (Some (values.Marks (marks_of boxes.now.start))) item }
{
    for start in boxes.start.as_slice() {
        if natural(start).saturating_sub(1) == item.saturating_sub(1) {
            return true;
        }
    }
    false
}

// Whether a view of the kind is declared with the item marked.
fn starts_marked(kind: &Kind, item: u32) -> bool
    ensures { result ≡ is_marked (declared_value kind.now) item }
{
    match kind {
        Kind::CheckBoxes(boxes) => is_box_marked(boxes, item),
        Kind::RadioButtons(radios) => natural(&radios.start) == item,
        Kind::List(list) => natural(&list.start) == item,
        _ => false,
    }
}

// Whether the rule asks for an item of the view that is declared to be marked.
fn starts(names: &Names, node: &Node, rule: &Rule) -> bool
    ensures { result ≡ starts_in names.now node.now rule.now }
{
    let item = natural(&rule.item);
    is_own(names, node, rule) && 0 < item && starts_marked(&node.kind, item)
}

/// Returns the rules that ask for items of the view that are declared to be marked.
pub(crate) fn starting_rules(names: &Names, node: &Node, rules: &[Rule]) -> Mask
    requires { length rules.now ≤ 64 }
    ensures { IsMaskOf (starts_in names.now node.now) rules.now result }
{
    let mut mask = Mask::NONE;
    for (place, rule) in rules.iter().enumerate() {
        if starts(names, node, rule) {
            mask = mask.union(Mask::only(place));
        }
    }
    mask
}
