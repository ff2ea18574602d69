//! F7: rules over something that isn't there.

ghost use Rattle.std.specs.Prelude.{◌≡◌, option_copied, IfOk};
ghost use Rattle.tv_model.specs.Description.Rules.{cluster_items, has_target};
ghost use Rattle.tv_model.specs.Faults.Rules.{names_unknown};
ghost use Rattle.tv_model.specs.Faults.Each.{each_after};

use crate::names::Names;
use std::alloc::{AllocError, Global};
use tv_model::{Dialog, Effect, Kind, Node, Rule, is_item};

// How many items the check boxes or radio buttons have; nothing else has any.
fn cluster_items(node: Option<&Node>) -> usize
    ensures { result ≡ cluster_items (option_copied node.entry) }
{
    match node.map(|node| &node.kind) {
        Some(Kind::CheckBoxes(boxes)) => boxes.items.as_slice().len(),
        Some(Kind::RadioButtons(radios)) => radios.items.as_slice().len(),
        _ => 0,
    }
}

/// Whether the rule shows a control or a pane, where it shows anything.
pub fn has_target(names: &Names, effect: &Effect) -> bool
    ensures { result ≡ has_target names.now effect.now }
{
    match effect {
        Effect::Show(name) => match names.meant(name) {
            Some(node) => node.kind.is_control() || node.kind.is_pane(),
            None => false,
        },
        Effect::Enable(_) => true,
    }
}

// Whether the rule names a view or an item that isn't there.
fn names_unknown(names: &Names, rule: &Rule) -> bool
    ensures { result ≡ names_unknown names.now rule.now }
{
    !has_target(names, &rule.effect)
        || !is_item(&rule.item, cluster_items(names.meant(&rule.cluster)))
}

/// Returns for each rule of the dialog whether it names a view or an item that isn't there.
pub fn unknown_names(alloc: Global, dialog: &Dialog) -> Result<Vec<bool>, AllocError>
    ensures { IfOk result (λ unknown. unknown.items ≡ each_after (λ _. names_unknown dialog.now.views) dialog.now.rules) }
{
    let names = Names::new(alloc, dialog.views.as_slice())?;
    let mut unknown = Vec::new(alloc);
    for rule in dialog.rules.as_slice() {
        unknown.push(names_unknown(&names, rule))?;
    }
    Ok(unknown)
}
