//! Whether two descriptions of dialogs are the same: by each field, names and texts too.

ghost use Rattle.std.specs.Prelude.{◌≡◌, ◌↔◌, IsTrue};
ghost use Rattle.tv_boxes.specs.Boxes.{HasDialogsAlone};

use tv_model::{Desc, Dialog, Effect, Node, Rule};
use tv_valid::Chars;

/// Whether both are the same description, where the second has dialogs alone.
pub(crate) fn is_same(desc: &Desc, other: &Desc) -> bool
    requires { HasDialogsAlone other.now }
    ensures { IsTrue result ↔ (desc.now ≡ other.now) }
{
    desc.version == other.version
        && desc.width == other.width
        && desc.height == other.height
        && is_same_name(&desc.start, &other.start)
        && desc.menus.as_slice().is_empty()
        && desc.status.as_slice().is_empty()
        && desc.windows.as_slice().is_empty()
        && desc.dialogs.is_by(&other.dialogs, is_same_dialog)
}

fn is_same_name(name: &Option<Chars>, other: &Option<Chars>) -> bool
    ensures { IsTrue result ↔ (name.now ≡ other.now) }
{
    match (name, other) {
        (Some(name), Some(other)) => name.is(other),
        (None, None) => true,
        _ => false,
    }
}

fn is_same_dialog(dialog: &Dialog, other: &Dialog) -> bool
    ensures { IsTrue result ↔ (dialog.now ≡ other.now) }
{
    dialog.node.is(&other.node)
        && dialog.views.is_by(&other.views, Node::is)
        && dialog.rules.is_by(&other.rules, is_same_rule)
}

fn is_same_rule(rule: &Rule, other: &Rule) -> bool
    ensures { IsTrue result ↔ (rule.now ≡ other.now) }
{
    rule.id == other.id
        && is_same_effect(&rule.effect, &other.effect)
        && rule.cluster.is(&other.cluster)
        && rule.item == other.item
}

fn is_same_effect(effect: &Effect, other: &Effect) -> bool
    ensures { IsTrue result ↔ (effect.now ≡ other.now) }
{
    match (effect, other) {
        (Effect::Show(name), Effect::Show(other)) => name.is(other),
        (Effect::Enable(command), Effect::Enable(other)) => command == other,
        _ => false,
    }
}
