//! F8: rules that show their own cluster, or a pane around it.

ghost use Rattle.std.specs.Prelude.{◌≡◌, ◌<◌, length, take, slice_index_or, IfOk};
ghost use Rattle.tv_model.specs.declared.node.Node.{Node};
ghost use Rattle.tv_model.specs.Description.Nodes.{is_cluster};
ghost use Rattle.tv_model.specs.Faults.Rules.{shows_cluster, shows_itself};
ghost use Rattle.tv_model.specs.Faults.Each.{each_after};
ghost use Rattle.tv_overlaps.specs.Standing.{AreOwners};

use crate::names::Names;
use std::alloc::{AllocError, Global};
use tv_model::{Dialog, Effect, Kind, Rule};
use tv_overlaps::{owners, stands_over};

/// Whether rules may ask for the marks of a control of the kind.
pub fn is_cluster(kind: &Kind) -> bool
    ensures { result ≡ is_cluster kind.now }
{
    matches!(kind, Kind::CheckBoxes(_) | Kind::RadioButtons(_))
}

// Whether the rule shows the cluster at this place, or a pane around it.
fn shows_cluster(names: &Names, owners: &[Option<usize>], rule: &Rule, place: usize) -> bool
    requires owners { AreOwners owners.now names.now }
    requires within { place < length names.now }
    ensures { (cluster : Node) → result ≡ shows_cluster names.now rule.now (take place names.now) (slice_index_or names.now place cluster) }
{
    let views = names.views();
    match &rule.effect {
        Effect::Show(name) if is_cluster(&views[place].kind) => match names.meant(name) {
            Some(target) => stands_over(owners, views, target.id, place),
            None => false,
        },
        _ => false,
    }
}

// Whether the rule shows its own cluster or a pane around it.
fn shows_itself(names: &Names, owners: &[Option<usize>], rule: &Rule) -> bool
    requires { AreOwners owners.now names.now }
    ensures { result ≡ shows_itself names.now rule.now }
{
    match names.place(&rule.cluster) {
        Some(place) => shows_cluster(names, owners, rule, place),
        None => false,
    }
}

/// Returns for each rule of the dialog whether it shows its own cluster or a pane around it.
pub fn show_themselves(alloc: Global, dialog: &Dialog) -> Result<Vec<bool>, AllocError>
    ensures { IfOk result (λ showing. showing.items ≡ each_after (λ _. shows_itself dialog.now.views) dialog.now.rules) }
{
    let names = Names::new(alloc, dialog.views.as_slice())?;
    let owners = owners(alloc, dialog.views.as_slice())?;
    let mut showing = Vec::new(alloc);
    for rule in dialog.rules.as_slice() {
        showing.push(shows_itself(&names, &owners, rule))?;
    }
    Ok(showing)
}
