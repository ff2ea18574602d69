//! F15: numbers, sizes, counts and lengths outside their limits.

ghost use Rattle.std.specs.Prelude.{◌≡◌};
ghost use Rattle.tv_model.specs.Faults.Limits.{dialog_outside_limits, is_lawful, is_lawful_screen, is_lawful_size, item_outside_limits, menu_outside_limits, rule_outside_limits, status_outside_limits, view_outside_limits, window_outside_limits};

use crate::lengths::{has_long_text, is_too_long};
use crate::numbers::{
    is_lawful_amount, is_lawful_button, is_lawful_command, is_lawful_corner, is_lawful_count,
    is_lawful_height, is_lawful_width,
};
use tv_model::{Desc, Dialog, Effect, Menu, MenuItem, Node, Rule, StatusItem, Window};

fn is_lawful_size(node: &Node) -> bool
    ensures { result ≡ is_lawful_size node.now }
{
    is_lawful_width(node) && is_lawful_height(&node.kind)
}

/// Whether the numbers, the items and the texts of the declaration are within the limits.
pub fn is_lawful(node: &Node) -> bool
    ensures { result ≡ is_lawful node.now }
{
    is_lawful_corner(node)
        && is_lawful_size(node)
        && is_lawful_count(&node.kind)
        && is_lawful_amount(&node.kind)
        && is_lawful_button(&node.kind)
        && !has_long_text(&node.kind)
}

/// Whether the screen has 20 to 132 columns and 10 to 60 rows.
pub fn is_lawful_screen(desc: &Desc) -> bool
    ensures { result ≡ is_lawful_screen desc.now }
{
    (20..=132).contains(&desc.width) && (10..=60).contains(&desc.height)
}

/// Whether the menu's title is too long, or the menu is the first one too many.
pub fn menu_outside_limits(before: &[Menu], menu: &Menu) -> bool
    ensures { result ≡ menu_outside_limits before.now menu.now }
{
    is_too_long(menu.title.text.as_slice()) || before.len() == 8
}

/// Whether the item's command or text is outside the limits, or the item is the first one too many.
pub fn item_outside_limits(before: &[MenuItem], item: &MenuItem) -> bool
    ensures { result ≡ item_outside_limits before.now item.now }
{
    !is_lawful_command(item.command) || is_too_long(item.text.text.as_slice()) || before.len() == 16
}

/// Whether the item's command or text is outside the limits, or the item is the first one too many.
pub fn status_outside_limits(before: &[StatusItem], item: &StatusItem) -> bool
    ensures { result ≡ status_outside_limits before.now item.now }
{
    !is_lawful_command(item.command) || is_too_long(item.text.as_slice()) || before.len() == 8
}

/// Whether the window's own line is outside the limits, or the window is the first one too many.
pub fn window_outside_limits(before: &[Window], window: &Window) -> bool
    ensures { result ≡ window_outside_limits before.now window.now }
{
    !is_lawful(&window.node) || before.len() == 9
}

/// Whether the dialog's own line is outside the limits, or the dialog is the first one too many.
pub fn dialog_outside_limits(before: &[Dialog], dialog: &Dialog) -> bool
    ensures { result ≡ dialog_outside_limits before.now dialog.now }
{
    !is_lawful(&dialog.node) || before.len() == 16
}

/// Whether the view is outside the limits, is the first one too many, or is a pane in too many others.
pub fn view_outside_limits(before: &[Node], node: &Node) -> bool
    ensures { result ≡ view_outside_limits before.now node.now }
{
    !is_lawful(node) || before.len() == 64 || (node.kind.is_pane() && node.depth == 4)
}

/// Whether the rule's command is outside the limits, or the rule is the first one too many.
pub fn rule_outside_limits(before: &[Rule], rule: &Rule) -> bool
    ensures { result ≡ rule_outside_limits before.now rule.now }
{
    let is_lawful = match &rule.effect {
        Effect::Enable(command) => is_lawful_command(*command),
        Effect::Show(_) => true,
    };
    !is_lawful || before.len() == 64
}
