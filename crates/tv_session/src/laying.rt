//! Sheets that the program lays in windows and in the open dialog, and where these stand.

ghost use Rattle.std.specs.Prelude.{◌≡◌, IfSome, Option};
ghost use Rattle.tv_cells.specs.Rectangle.{IsRectNear};
ghost use Rattle.tv_laws.specs.Runs.{HasSoundDialogs, IsFitState};
ghost use Rattle.tv_machine.specs.Session.Laid.{has_open, laid};
ghost use Rattle.tv_machine.specs.State.{State};
ghost use Rattle.tv_menu.specs.Line.{IsStatusLineOf};
ghost use Rattle.tv_session.specs.Running.{IsRun, IsRunSince};
ghost use Rattle.tv_session.specs.Session.{bounds_of, front_of};
ghost use Rattle.tv_session.specs.Showing.{AreShownAlike};

use crate::run::RunOf;
use tv_cells::{Rect, Screen};
use tv_menu::StatusLine;
use tv_model::{Desc, Id};
use tv_view::View;

impl<V: View> RunOf<V> {
    // Whether the dialog that is open has the id.
    fn has_open(&self, desc: &Desc, id: Id) -> bool
        ensures { (s : State) → IsRun V.meaning desc.now s self.now → result ≡ has_open desc.now id s.dialog }
    {
        match self.dialogs.open_id(desc) {
            Some(open) => open == id,
            None => false,
        }
    }

    /// Returns the rectangle on the screen of the open window or dialog of an id.
    pub(crate) fn bounds(&self, desc: &Desc, id: Id) -> Option<Rect>
        ensures is { (s : State) → IsRun V.meaning desc.now s self.now → result ≡ bounds_of (record { desc = desc.now; state = s }) id }
        ensures near { IfSome result IsRectNear }
    {
        if self.has_open(desc, id) {
            self.dialogs.bounds()
        } else {
            self.desk.bounds_of(id)
        }
    }

    /// Returns the id of what is in front: of the open dialog, or without one of the front window.
    pub(crate) fn front(&self, desc: &Desc) -> Option<Id>
        ensures { (s : State) → IsRun V.meaning desc.now s self.now → result ≡ front_of (record { desc = desc.now; state = s }) }
    {
        if self.dialogs.is_open() {
            self.dialogs.open_id(desc)
        } else {
            self.desk.front()
        }
    }

    // Lays a sheet, but for what bars show.
    fn lay_below(&mut self, desc: &Desc, id: Id, sheet: Option<Screen>)
        requires { HasSoundDialogs desc.now }
        ensures { (s : State) → IsRun V.meaning desc.now s self.old → IsFitState desc.now s
            → IsRunSince V.meaning desc.now s (laid desc.now id sheet s) self.new }
    {
        self.damage.clear();
        if self.has_open(desc, id) {
            self.dialogs.lay(sheet, &mut self.damage);
        } else {
            self.desk.lay(id, sheet, &mut self.damage);
        }
    }

    /// Lays a sheet in the open window or dialog of an id, or takes it away. Afterwards the damage has what the screen shows
    /// otherwise.
    pub(crate) fn lay(&mut self, desc: &Desc, line: &StatusLine, id: Id, sheet: Option<Screen>)
        requires { HasSoundDialogs desc.now }
        ensures { (s : State) → IsRun V.meaning desc.now s self.old → IsFitState desc.now s → IsStatusLineOf desc.now line.now
            → IsRun V.meaning desc.now (laid desc.now id sheet s) self.new
            × AreShownAlike desc.now s (laid desc.now id sheet s) self.new.damage }
    {
        let before = self.before();
        self.lay_below(desc, id, sheet);
        self.mark_changes(line, &before);
    }
}
