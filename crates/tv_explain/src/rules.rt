//! Rules over something that isn't there, over their own clusters, and over every control: F7 to F9.

ghost use Rattle.std.specs.Prelude.{◌≡◌, ◌<◌, ℕ, length, position, slice_index_or, take, IfOk, option_copied};
ghost use Rattle.tv_model.specs.declared.node.Node.{Node as SeenNode};
ghost use Rattle.tv_model.specs.Description.Commands.{is_button_of};
ghost use Rattle.tv_model.specs.Description.Nodes.{is_control};
ghost use Rattle.tv_model.specs.Description.Rules.{reaches};
ghost use Rattle.tv_overlaps.specs.Standing.{AreOwners};
ghost use Rattle.tv_explain.specs.Rules.{cluster_why, focus_of, focus_why, reaching_line, shown_why, unknown_why};

use crate::lines::line_of;
use crate::why::{Reason, Why};
use std::alloc::{AllocError, Global};
use tv_model::{CommandSpec, Dialog, Effect, Kind, Node, Rule};
use tv_names::{Names, has_target, is_cluster};
use tv_overlaps::{owners, stands_over};

fn cluster_why(found: Option<&Node>) -> Why
    ensures { result ≡ cluster_why (option_copied found.entry) }
{
    match found {
        Some(node) if is_cluster(&node.kind) => {
            Why::because(Reason::UnknownItem, Some(node.id.0))
        }
        Some(node) => Why::because(Reason::NoCluster, Some(node.id.0)),
        None => Why::because(Reason::UnknownCluster, None),
    }
}

/// Tells what a rule names that isn't there.
pub fn unknown_why(views: &Names, rule: &Rule) -> Why
    ensures { result ≡ unknown_why views.now rule.now }
{
    if has_target(views, &rule.effect) {
        cluster_why(views.meant(&rule.cluster))
    } else {
        Why::because(Reason::UnknownTarget, None)
    }
}

/// Tells by which cluster a rule goes that shows this cluster.
pub fn shown_why(views: &Names, rule: &Rule) -> Why
    ensures { result ≡ shown_why views.now rule.now }
{
    Why::because(Reason::Itself, line_of(views.meant(&rule.cluster)))
}

// Whether it is a button of the command.
fn is_button_of(command: CommandSpec, kind: &Kind) -> bool
    ensures { result ≡ is_button_of command kind.now }
{
    match kind {
        Kind::Button(button) => button.command == command,
        _ => false,
    }
}

// Whether the rule's effect reaches the view at this place.
fn reaches(owners: &[Option<usize>], views: &Names, place: usize, effect: &Effect) -> bool
    requires owners { AreOwners owners.now views.now }
    requires within { place < length views.now }
    ensures { (view : SeenNode) → result ≡ reaches views.now (take place views.now) (slice_index_or views.now place view) effect.now }
{
    match effect {
        Effect::Show(name) => match views.meant(name) {
            Some(target) => stands_over(owners, views.views(), target.id, place),
            None => false,
        },
        Effect::Enable(command) => is_button_of(*command, &views.views()[place].kind),
    }
}

// The first of the rules that reaches the view at this place.
fn reaching_line(
    owners: &[Option<usize>],
    rules: &[Rule],
    views: &Names,
    place: usize,
) -> Option<u32>
    requires owners { AreOwners owners.now views.now }
    requires within { place < length views.now }
    ensures { (view : SeenNode) → result ≡ reaching_line rules.now views.now (take place views.now) (slice_index_or views.now place view) }
{
    for rule in rules {
        if reaches(owners, views, place, &rule.effect) {
            return Some(rule.id.0);
        }
    }
    None
}

// The place of the first control.
fn first_control(views: &[Node]) -> Option<usize>
    ensures { result ≡ position (λ node. is_control node.kind) views.now }
{
    views.iter().position(|node| node.kind.is_control())
}

// Why these rules may leave these views without a control to focus.
fn focus_of(alloc: Global, rules: &[Rule], views: &[Node]) -> Result<Why, AllocError>
    ensures { IfOk result (λ why. why ≡ focus_of rules.now views.now) }
{
    match first_control(views) {
        None => {
            let none = Why::because(Reason::NoControl, None);
            Ok(none)
        }
        Some(place) => {
            let owners = owners(alloc, views)?;
            let names = Names::new(alloc, views)?;
            let line = reaching_line(&owners, rules, &names, place);
            let reached = Why::because(Reason::AllReached, line);
            Ok(reached)
        }
    }
}

/// Tells why rules may leave the dialog without a control to focus.
pub fn focus_why(alloc: Global, dialog: &Dialog) -> Result<Why, AllocError>
    ensures { IfOk result (λ why. why ≡ focus_why dialog.now) }
{
    focus_of(alloc, dialog.rules.as_slice(), dialog.views.as_slice())
}
