//! F9: dialogs that rules may leave without a control to focus.

ghost use Rattle.std.specs.Prelude.{◌≡◌, ◌<◌, ◌&&◌, ◌||◌, length, map, not, IfOk, IfSome};
ghost use Rattle.std.specs.HashSet.{contains};
ghost use Rattle.std.specs.List.{list_any};
ghost use Rattle.tv_model.specs.declared.command.CommandSpec.{CommandSpec};
ghost use Rattle.tv_model.specs.declared.node.Id.{Id};
ghost use Rattle.tv_model.specs.Description.Nodes.{is_control};
ghost use Rattle.tv_model.specs.Faults.Rules.{has_nothing_to_focus};
ghost use Rattle.tv_names.specs.Focus.{AreFirstShown, is_of_command, equals_command, has_nothing_free, is_button_where, is_owner_shown, is_same_id, reach_shows};
ghost use Rattle.tv_names.specs.Reach.{reach_of};

use crate::names::Names;
use std::alloc::{AllocError, Global};
use std::collections::HashSet;
use tv_model::{CommandSpec, Dialog, Effect, Id, Kind, Node, Rule};
use tv_overlaps::owners;

/// What a rule reaches.
#[derive(Clone, Copy, Debug, PartialEq, Eq)]
enum Reach {
    Nothing,
    /// The view of this id and what stands in it.
    View(Id),
    /// The buttons of this command.
    Buttons(CommandSpec),
}

impl Reach {
    // What the rule reaches among the views that give the names.
    fn of(names: &Names, rule: &Rule) -> Reach
        ensures { result ≡ reach_of names.now rule.now }
    {
        match &rule.effect {
            Effect::Show(name) => match names.meant(name) {
                Some(target) => Reach::View(target.id),
                None => Reach::Nothing,
            },
            Effect::Enable(command) => Reach::Buttons(*command),
        }
    }
}

// What the rules reach, one after the other.
fn reaches(alloc: Global, dialog: &Dialog) -> Result<Vec<Reach>, AllocError>
    ensures { IfOk result (λ list. list.items ≡ map (reach_of dialog.now.views) dialog.now.rules) }
{
    let names = Names::new(alloc, dialog.views.as_slice())?;
    dialog
        .rules
        .as_slice()
        .iter()
        .map(|rule| Reach::of(&names, rule))
        .collect(alloc)
}

// The views that rules show, without those that stand in them.
fn shown_views(alloc: Global, reaches: &[Reach]) -> Result<HashSet<Id>, AllocError>
    ensures { IfOk result (λ shown. (i : Id) → contains is_same_id shown i ≡ list_any (reach_shows i) reaches.now) }
{
    let mut shown = HashSet::new(alloc);
    for reach in reaches {
        if let Reach::View(target) = reach {
            shown.insert(*target)?;
        }
    }
    Ok(shown)
}

// The commands that rules enable.
fn enabled_commands(alloc: Global, reaches: &[Reach]) -> Result<HashSet<CommandSpec>, AllocError>
    ensures { IfOk result (λ enabled. (command : CommandSpec)
        → contains equals_command enabled command ≡ list_any (is_of_command command) reaches.now) }
{
    let mut enabled = HashSet::new(alloc);
    for reach in reaches {
        if let Reach::Buttons(command) = reach {
            enabled.insert(*command)?;
        }
    }
    Ok(enabled)
}

// Whether a rule shows the view or a pane around it: the view is a target, or that is known of its owner.
fn is_shown(targets: &HashSet<Id>, shown: &[bool], owner: Option<usize>, view: &Node) -> bool
    requires { IfSome owner (λ pane. pane < length shown.now) }
    ensures { result ≡ (contains is_same_id targets.now view.now.id || is_owner_shown shown.now owner) }
{
    if targets.contains(&view.id) {
        return true;
    }
    match owner {
        Some(pane) => shown[pane],
        None => false,
    }
}

// For each view whether a rule shows it or a pane around it.
fn are_shown(alloc: Global, reaches: &[Reach], views: &[Node]) -> Result<Vec<bool>, AllocError>
    ensures len { IfOk result (λ shown. length shown.items ≡ length views.now) }
    ensures each { IfOk result (λ shown. AreFirstShown reaches.now views.now shown.items) }
{
    let owners = owners(alloc, views)?;
    let targets = shown_views(alloc, reaches)?;
    let mut shown = Vec::new(alloc);
    for (place, owner) in owners.iter().enumerate() {
        shown.push(is_shown(&targets, &shown, *owner, &views[place]))?;
    }
    Ok(shown)
}

// Whether it is a button whose command a rule enables.
fn is_enabled(enabled: &HashSet<CommandSpec>, kind: &Kind) -> bool
    ensures { result ≡ is_button_where (contains equals_command enabled.now) kind.now }
{
    match kind {
        Kind::Button(button) => enabled.contains(&button.command),
        _ => false,
    }
}

// Whether it is a control that no rule shows or enables.
fn is_free(enabled: &HashSet<CommandSpec>, is_shown: bool, view: &Node) -> bool
    ensures { result ≡ (is_control view.now.kind && (not is_shown
        && not (is_button_where (contains equals_command enabled.now) view.now.kind))) }
{
    view.kind.is_control() && !is_shown && !is_enabled(enabled, &view.kind)
}

// Whether rules reach every control.
fn has_nothing_free(alloc: Global, reaches: &[Reach], views: &[Node]) -> Result<bool, AllocError>
    ensures { IfOk result (λ lacking. lacking ≡ has_nothing_free reaches.now views.now) }
{
    let shown = are_shown(alloc, reaches, views)?;
    let enabled = enabled_commands(alloc, reaches)?;
    for (place, view) in views.iter().enumerate() {
        if is_free(&enabled, shown[place], view) {
            return Ok(false);
        }
    }
    Ok(true)
}

/// Whether rules may leave the dialog without a control to focus.
pub fn has_nothing_to_focus(alloc: Global, dialog: &Dialog) -> Result<bool, AllocError>
    ensures { IfOk result (λ lacking. lacking ≡ has_nothing_to_focus dialog.now) }
{
    let reaches = reaches(alloc, dialog)?;
    has_nothing_free(alloc, &reaches, dialog.views.as_slice())
}
