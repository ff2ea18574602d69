//! Names and openings of windows and dialogs: F1 and F16.

ghost use Rattle.std.specs.Prelude.{◌≡◌};
ghost use Rattle.tv_model.specs.Description.Names.{shares_name};
ghost use Rattle.tv_model.specs.Faults.Starts.{is_option_number};
ghost use Rattle.tv_model.specs.Description.Heads.{dialog_head};
ghost use Rattle.tv_explain.specs.Heads.{window_called, dialog_before, dialog_named, opened_by, opening_why, start_why, window_named};

use crate::why::{Reason, Why};
use tv_model::{Desc, Dialog, Node, Window};
use tv_valid::Chars;

/// Whether the first declaration gives a name, and the second one gives it too.
pub fn shares_name(node: &Node, other: &Node) -> bool
    ensures { result ≡ shares_name node.now other.now }
{
    match node.kind.name() {
        Some(name) => other.gives_name(name),
        None => false,
    }
}

/// Finds the first of the windows that has the node's name.
pub fn window_named(windows: &[Window], node: &Node) -> Option<u32>
    ensures { result ≡ window_named windows.now node.now }
{
    let other = windows.iter().find(|other| shares_name(node, &other.node));
    other.map(|other| other.node.id.0)
}

// The first of the dialogs that has the node's name.
fn dialog_before(dialogs: &[Dialog], node: &Node) -> Option<u32>
    ensures { result ≡ dialog_before dialogs.now node.now }
{
    let other = dialogs.iter().find(|other| shares_name(node, &other.node));
    other.map(|other| other.node.id.0)
}

/// Finds the window or the dialog before that has the dialog's name.
pub fn dialog_named(desc: &Desc, before: &[Dialog], dialog: &Dialog) -> Option<u32>
    ensures { result ≡ dialog_named desc.now before.now dialog.now }
{
    let window = window_named(desc.windows.as_slice(), &dialog.node);
    if window.is_some() {
        return window;
    }
    dialog_before(before, &dialog.node)
}

// Whether this command opens the dialog.
fn opens_by(number: i32, dialog: &Dialog) -> bool
    ensures { result ≡ is_option_number number (dialog_head dialog.now).opens }
{
    match dialog.head().opens {
        Some(other) => other == number,
        None => false,
    }
}

// The first dialog before that this command opens.
fn opened_by(number: i32, before: &[Dialog]) -> Option<u32>
    ensures { result ≡ opened_by number before.now }
{
    let other = before.iter().find(|other| opens_by(number, other));
    other.map(|other| other.node.id.0)
}

/// Tells why the dialog's command can't open it.
pub fn opening_why(before: &[Dialog], dialog: &Dialog) -> Why
    ensures { result ≡ opening_why before.now dialog.now }
{
    match dialog.head().opens {
        Some(number) if (100..=255).contains(&number) => {
            Why::because(Reason::OpeningTwice, opened_by(number, before))
        }
        Some(_) => Why::because(Reason::OpeningOutside, None),
        None => Why::ITSELF,
    }
}

// The first window of this name.
fn called(name: &Chars, windows: &[Window]) -> Option<u32>
    ensures { result ≡ window_called name.now windows.now }
{
    let window = windows.iter().find(|window| window.node.gives_name(name));
    window.map(|window| window.node.id.0)
}

/// Tells why no dialog of this name is open at the start.
pub fn start_why(name: &Chars, windows: &[Window]) -> Why
    ensures { result ≡ start_why name.now windows.now }
{
    match called(name, windows) {
        Some(line) => Why::because(Reason::StartWindow, Some(line)),
        None => Why::because(Reason::StartUnknown, None),
    }
}
