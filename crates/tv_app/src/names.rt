//! Dialogs and fields, by the names that the description gives them.

ghost use Rattle.std.specs.Prelude.{◌≡◌, ◌<◌, IfSome, find, length, option_copied, option_map, position};
ghost use Rattle.tv_app.specs.Names.{field_id, is_called};
ghost use Rattle.tv_app.specs.Sheets.{named_id};
ghost use Rattle.tv_model.specs.Description.Heads.{is_named};

use tv_model::{Desc, Dialog, Id, Node, Window};
use tv_words::is_same;

fn is_named(dialog: &Dialog, name: &str) -> bool
    ensures { result ≡ is_named name.now dialog.now }
{
    is_same(dialog.head().name.as_slice(), name.as_bytes())
}

pub(crate) fn is_called(view: &Node, name: &str) -> bool
    ensures { result ≡ is_called name.now view.now }
{
    match view.kind.name() {
        Some(own) => is_same(own.as_slice(), name.as_bytes()),
        None => false,
    }
}

/// Finds the place of the first dialog of the name, counted from 0.
pub fn dialog_place(desc: &Desc, name: &str) -> Option<usize>
    ensures { result ≡ position (is_named name.now) desc.now.dialogs }
{
    desc.dialogs
        .as_slice()
        .iter()
        .position(|dialog| is_named(dialog, name))
}

/// Finds the first dialog of the name.
pub(crate) fn dialog_named<'a>(desc: &'a Desc, name: &str) -> Option<&'a Dialog>
    ensures { option_copied result ≡ find (is_named name.now) desc.now.dialogs }
{
    desc.dialogs
        .as_slice()
        .iter()
        .find(|dialog| is_named(dialog, name))
}

fn window_named<'a>(desc: &'a Desc, name: &str) -> Option<&'a Window>
    ensures { option_copied result ≡ find (λ window. is_called name.now window.node) desc.now.windows }
{
    desc.windows
        .as_slice()
        .iter()
        .find(|window| is_called(&window.node, name))
}

/// Finds the id of the first window of the name, or else of the first dialog.
pub(crate) fn named_id(desc: &Desc, name: &str) -> Option<Id>
    ensures { result ≡ named_id desc.now name.now }
{
    if let Some(window) = window_named(desc, name) {
        return Some(window.node.id);
    }
    match dialog_named(desc, name) {
        Some(dialog) => Some(dialog.node.id),
        None => None,
    }
}

fn view_named<'a>(views: &'a [Node], name: &str) -> Option<&'a Node>
    ensures { option_copied result ≡ find (is_called name.now) views.now }
{
    views.iter().find(|view| is_called(view, name))
}

/// Finds the id of the first view of the name in the first dialog of the other.
pub(crate) fn field_id(desc: &Desc, dialog: &str, field: &str) -> Option<Id>
    ensures { result ≡ field_id desc.now dialog.now field.now }
{
    match dialog_named(desc, dialog) {
        Some(dialog) => match view_named(dialog.views.as_slice(), field) {
            Some(view) => Some(view.id),
            None => None,
        },
        None => None,
    }
}
