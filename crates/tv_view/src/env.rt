//! What owners lend to their views.

ghost use Rattle.std.specs.Prelude.{◌≡◌};
ghost use Rattle.tv_machine.specs.Dialog.Rules.{is_among};

use tv_event::CommandSet;
use tv_model::{Id, Node};
use tv_palette::{Chain, Owner};

/// What a view knows of its owners during one call.
#[derive(Clone, Copy, Debug)]
pub struct Env<'a> {
    /// Whether it stands in a window or in a dialog.
    pub owner: Owner,
    /// The palettes of its owners.
    pub chain: &'a Chain,
    /// The views of its window or dialog as the description declares them, panes opened out. A label finds its link there.
    pub views: &'a [Node],
    /// The enabled commands.
    pub commands: &'a CommandSet,
    /// The control that has the focus. While an event is handled, the one that had it when the event came.
    pub focus: Option<Id>,
    /// The button that Enter presses, if it is enabled.
    pub default_now: Option<Id>,
    /// Whether its window or dialog is the active one.
    pub is_active: bool,
}

/// What the rules of a dialog show and enable.
#[derive(Clone, Copy, Debug)]
pub struct Rules<'a> {
    /// The views that are shown: every rule over them and over the panes around them holds.
    pub shown: &'a [Id],
    /// The enabled commands.
    pub commands: &'a CommandSet,
}

impl Rules<'_> {
    /// Whether the view of the id is shown.
    pub fn shows(&self, id: Id) -> bool
        ensures { result ≡ is_among self.now.shown.now id }
    {
        self.shown.iter().any(|other| *other == id)
    }
}
