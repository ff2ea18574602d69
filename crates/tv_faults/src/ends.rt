//! F10: missing ends.

ghost use Rattle.std.specs.Prelude.{◌≡◌};
ghost use Rattle.tv_model.specs.Faults.Starts.{lacks_cancel, lacks_end};

use tv_model::{CommandSpec, Dialog, Ends, Kind, Node};

/// Whether the dialog doesn't declare `cancel`.
pub fn lacks_cancel(dialog: &Dialog) -> bool
    ensures { result ≡ lacks_cancel dialog.now }
{
    !dialog.head().ends.cancel
}

/// Whether the node is a button of an end that isn't among these.
pub fn lacks_end(ends: Ends, node: &Node) -> bool
    ensures { result ≡ lacks_end ends node.now }
{
    match &node.kind {
        Kind::Button(button) => match button.command {
            CommandSpec::Ok => !ends.ok,
            CommandSpec::Yes => !ends.yes,
            CommandSpec::No => !ends.no,
            _ => false,
        },
        _ => false,
    }
}
