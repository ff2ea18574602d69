//! What may give a command in a dialog, by the rules that a mask has.

ghost use Rattle.std.specs.Prelude.{◌≡◌, ◌↔◌, Some, IsTrue, option_map, Any};
ghost use Rattle.tv_model.specs.Description.Commands.{command_number, command_of};
ghost use Rattle.tv_machine.specs.Leaves.{PlacedNode, leaf_list};
ghost use Rattle.tv_reach.specs.Found.{AreGivers, IsCase, IsLeafOf};
ghost use Rattle.tv_reach.specs.Never.{HasNoGiver, IsFieldIn, IsNeverGiven, MayGive, MayPress, MayShowField};
ghost use Rattle.tv_reach.specs.Masks.{MayEnable};

use crate::case::{Case, enabling_rules};
use crate::mask::Mask;
use crate::shown::ShownLeaf;
use tv_event::Command;
use tv_model::{Kind, Node, StatusItem};

/// What may give a command in a dialog.
#[derive(Clone, Copy)]
pub(crate) struct Givers<'a> {
    case: &'a Case<'a>,
    /// The command.
    number: u32,
    /// The rules that enable it.
    enabled_by: Mask,
    /// Whether a status item gives it.
    has_status: bool,
}

// Whether the view is a button of the command.
fn gives(node: &Node, number: u32) -> bool
    ensures { IsTrue result ↔ (option_map command_number (command_of node.now.kind) ≡ Some number) }
{
    match &node.kind {
        Kind::Button(button) => button.command.number() == number,
        _ => false,
    }
}

// Whether a status item gives the command.
fn has_status(items: &[StatusItem], number: u32) -> bool
    ensures { IsTrue result ↔ Any (λ item. command_number item.command ≡ number) items.now }
{
    items.iter().any(|item| item.command.number() == number)
}

// Whether by the mask the leaf may be shown, and is a control but no button.
fn is_field_shown(leaf: &ShownLeaf, mask: Mask) -> bool
    ensures { (case : Case) (placed : PlacedNode) → IsLeafOf case placed leaf.now
        → IsTrue result ↔ IsFieldIn case.dialog.now mask placed }
{
    leaf.node.kind.is_control() && !leaf.node.kind.is_button() && mask.contains_all(leaf.shown_by)
}

// Whether by the mask a control may be shown that is no button.
fn shows_field(case: &Case, mask: Mask) -> bool
    requires { IsCase case.now }
    ensures { IsTrue result ↔ MayShowField case.now.dialog.now mask }
{
    for leaf in case.leaves {
        if is_field_shown(leaf, mask) {
            return true;
        }
    }
    false
}

// Whether by the mask the leaf may be pressed for the command, where that is enabled: by itself, or as the default.
fn is_pressed(leaf: &ShownLeaf, number: u32, mask: Mask, shows_field: bool) -> bool
    ensures { (case : Case) (placed : PlacedNode) → IsLeafOf case placed leaf.now
        → IsTrue shows_field ↔ MayShowField case.dialog.now mask → MayEnable case.dialog.now number mask
        → IsTrue result ↔ MayPress case.dialog.now number mask placed }
{
    gives(leaf.node, number)
        && (mask.contains_all(leaf.shown_by) || (leaf.node.is_default() && shows_field))
}

// Whether by the mask one of the leaves may be pressed for the command, where that is enabled.
fn any_pressed(case: &Case, number: u32, mask: Mask) -> bool
    requires { IsCase case.now }
    ensures { MayEnable case.now.dialog.now number mask
        → IsTrue result ↔ Any (MayPress case.now.dialog.now number mask) (leaf_list case.now.dialog.now.views) }
{
    let shows_field = shows_field(case, mask);
    for leaf in case.leaves {
        if is_pressed(leaf, number, mask, shows_field) {
            return true;
        }
    }
    false
}

/// Returns what may give the command.
pub(crate) fn givers_of<'a>(case: &'a Case<'a>, command: Command) -> Givers<'a>
    requires { IsCase case.now }
    ensures givers { AreGivers result }
    ensures case { result.case.now ≡ case.now }
    ensures number { result.number ≡ command.0 }
{
    let number = u32::from(command.0);
    Givers {
        case,
        number,
        enabled_by: enabling_rules(case.dialog.rules.as_slice(), number),
        has_status: has_status(case.desc.status.as_slice(), number),
    }
}

// Whether by the mask the command may be given.
fn may_give(givers: &Givers, mask: Mask) -> bool
    requires { AreGivers givers.now }
    ensures { IsTrue result ↔ MayGive givers.now.case.now.desc.now givers.now.case.now.dialog.now givers.now.number mask }
{
    mask.contains_all(givers.enabled_by)
        && (givers.has_status || any_pressed(givers.case, givers.number, mask))
}

/// Whether by none of the masks the command may be given.
pub(crate) fn is_never_given(givers: &Givers) -> bool
    requires { AreGivers givers.now }
    ensures { IsTrue result ↔ IsNeverGiven givers.now.case.now.desc.now givers.now.case.now.dialog.now
        givers.now.case.now.masks.now givers.now.number }
{
    for mask in givers.case.masks {
        if may_give(givers, *mask) {
            return false;
        }
    }
    true
}

/// Whether there is neither a button of the command nor a status item.
pub(crate) fn is_without_giver(givers: &Givers) -> bool
    requires { AreGivers givers.now }
    ensures { IsTrue result ↔ HasNoGiver givers.now.case.now.desc.now givers.now.case.now.dialog.now givers.now.number }
{
    if givers.has_status {
        return false;
    }
    for leaf in givers.case.leaves {
        if gives(leaf.node, givers.number) {
            return false;
        }
    }
    true
}
