//! Windows, dialogs and what stands in them.

ghost use Rattle.std.specs.Prelude.{◌≡◌};
ghost use Rattle.tv_model.specs.Description.Names.{gives_name};
ghost use Rattle.tv_model.specs.Description.Nodes.{is_default};

use crate::kind::Kind;
use tv_valid::Chars;

/// A node of a description, by the line of its declaration in the canonical text, counted from 1.
#[derive(Clone, Copy, Debug, Default, PartialEq, Eq, Hash)]
pub struct Id(pub u32);

/// A window, a dialog, or a view of one, as a description declares it.
///
/// `x`, `y` and `w` are columns and rows. The corner of a window or dialog is a place on the screen; that of a view is
/// seen from the corner of its pane, or of its window or dialog. A node that is one row high, or as many rows as it has
/// items, declares no height.
#[derive(Debug, Drop)]
pub struct Node {
    pub id: Id,
    /// How many panes of its dialog are around it.
    pub depth: u8,
    pub x: i32,
    pub y: i32,
    pub w: i32,
    pub kind: Kind,
}

impl Node {
    /// Whether its declaration gives the name.
    pub fn gives_name(&self, name: &Chars) -> bool
        ensures { result ≡ gives_name name.now self.now }
    {
        match self.kind.name() {
            Some(other) => other.is(name),
            None => false,
        }
    }

    /// Whether it is a button that is declared to be the default.
    pub fn is_default(&self) -> bool
        ensures { result ≡ is_default self.now }
    {
        match &self.kind {
            Kind::Button(button) => button.is_default,
            _ => false,
        }
    }
}
