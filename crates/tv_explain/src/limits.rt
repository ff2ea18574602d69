//! What is outside the limits: F15.

ghost use Rattle.std.specs.Prelude.{◌≡◌};
ghost use Rattle.tv_explain.specs.Limits.{dialog_limit, item_limit, menu_limit, node_reason, number_or, rule_limit, status_limit, too_many_or, view_limit, window_limit};

use crate::why::Reason;
use tv_faults::{
    is_lawful_amount, is_lawful_button, is_lawful_command, is_lawful_corner, is_lawful_count,
    is_lawful_height, is_lawful_width,
};
use tv_model::{CommandSpec, Dialog, Menu, MenuItem, Node, Rule, StatusItem, Window};

// What is outside in the line of a window, a dialog or a view.
fn node_reason(node: &Node) -> Reason
    ensures { result ≡ node_reason node.now }
{
    if !is_lawful_count(&node.kind) {
        Reason::Items
    } else if !is_lawful_corner(node) {
        Reason::Corner
    } else if !is_lawful_width(node) {
        Reason::Width
    } else if !is_lawful_height(&node.kind) {
        Reason::Height
    } else if !is_lawful_amount(&node.kind) {
        Reason::Amount
    } else if !is_lawful_button(&node.kind) {
        Reason::CommandNumber
    } else {
        Reason::TextLength
    }
}

// The first one too many, or what remains.
fn too_many_or(most: usize, count: usize, reason: Reason) -> Reason
    ensures { result ≡ too_many_or most count reason }
{
    if count == most {
        Reason::TooMany
    } else {
        reason
    }
}

// The number of a command, or what remains.
fn number_or(command: CommandSpec, reason: Reason) -> Reason
    ensures { result ≡ number_or command reason }
{
    if is_lawful_command(command) {
        reason
    } else {
        Reason::CommandNumber
    }
}

/// Tells what of a menu is outside.
pub fn menu_limit(before: &[Menu]) -> Reason
    ensures { result ≡ menu_limit before.now }
{
    too_many_or(8, before.len(), Reason::TextLength)
}

/// Tells what of an item of a menu is outside.
pub fn item_limit(before: &[MenuItem], item: &MenuItem) -> Reason
    ensures { result ≡ item_limit before.now item.now }
{
    too_many_or(
        16,
        before.len(),
        number_or(item.command, Reason::TextLength),
    )
}

/// Tells what of a status item is outside.
pub fn status_limit(before: &[StatusItem], item: &StatusItem) -> Reason
    ensures { result ≡ status_limit before.now item.now }
{
    too_many_or(8, before.len(), number_or(item.command, Reason::TextLength))
}

/// Tells what of a window is outside.
pub fn window_limit(before: &[Window], window: &Window) -> Reason
    ensures { result ≡ window_limit before.now window.now }
{
    too_many_or(9, before.len(), node_reason(&window.node))
}

/// Tells what of a dialog is outside.
pub fn dialog_limit(before: &[Dialog], dialog: &Dialog) -> Reason
    ensures { result ≡ dialog_limit before.now dialog.now }
{
    too_many_or(16, before.len(), node_reason(&dialog.node))
}

/// Tells what of a view is outside.
pub fn view_limit(before: &[Node], node: &Node) -> Reason
    ensures { result ≡ view_limit before.now node.now }
{
    let reason = if node.kind.is_pane() && node.depth == 4 {
        Reason::Nested
    } else {
        node_reason(node)
    };
    too_many_or(64, before.len(), reason)
}

/// Tells what of a rule is outside.
pub fn rule_limit(before: &[Rule]) -> Reason
    ensures { result ≡ rule_limit before.now }
{
    too_many_or(64, before.len(), Reason::CommandNumber)
}
