//! Where the open dialog stands, and how it is dragged by its top row.

ghost use Rattle.std.specs.Prelude.{◌≡◌, IfSome, None, Some, if◌then◌else◌, option_map, slice_get, vec_capacity};
ghost use Rattle.tv_cells.specs.Rectangle.{IsRectNear};
ghost use Rattle.tv_faces.specs.Corners.{IsCorner};
ghost use Rattle.tv_machine.specs.Session.Desktop.{seen_from};
ghost use Rattle.tv_machine.specs.Session.Dragging.{is_grip, is_grip_of, placed};
ghost use Rattle.tv_machine.specs.State.{OpenDialog, State};
ghost use Rattle.tv_model.specs.declared.desc.Desc.{Desc as Declared};
ghost use Rattle.tv_dialogs.specs.Damage.{Keeps, OpenAlike};
ghost use Rattle.tv_dialogs.specs.Dialogs.{AreDialogs, AreOfRun, log_of_last};
ghost use Rattle.tv_dialogs.specs.Handed.{IsPointGiven};
ghost use Rattle.tv_dialogs.specs.Placing.{bounds_of_open};

use crate::dialogs::DialogsOf;
use crate::handed::seen_from;
use tv_cells::{Damage, Point, Rect};
use tv_dialog::is_close_mark;
use tv_model::{Desc, Id};
use tv_view::View;

// Whether a point, seen from the corner of a frame of this width, is on its top row beside the close mark.
fn is_grip(width: i32, point: Point) -> bool
    ensures { result ≡ is_grip width point }
{
    0 <= point.x && point.x < width && point.y == 0 && !is_close_mark(point)
}

impl<V: View> DialogsOf<V> {
    /// Returns the corner of the open dialog where the point, in screen coordinates, is on its top row beside the close
    /// mark: there the mouse takes hold of it.
    pub fn grip(&self, point: Point) -> Option<Point>
        requires given { IsPointGiven point }
        ensures held { (d : Declared) (s : State) (o : OpenDialog) → AreDialogs V.meaning d s self.now → s.dialog ≡ Some o
            → result ≡ (if is_grip_of (slice_get d.dialogs o.place) (seen_from o.origin point) then Some o.origin else None) }
        ensures none { (d : Declared) (s : State) → AreDialogs V.meaning d s self.now → s.dialog ≡ None → result ≡ None }
        ensures corner { IfSome result IsCorner }
    {
        let dialog = &self.at(self.open)?.dialog;
        let corner = dialog.corner();
        let width = dialog.bounds().b.x - corner.x;
        is_grip(width, seen_from(corner, point)).then_some(corner)
    }

    /// Returns the rectangle of the open dialog on the screen.
    pub fn bounds(&self) -> Option<Rect>
        ensures is { (d : Declared) (s : State) → AreDialogs V.meaning d s self.now → result ≡ bounds_of_open d s.dialog }
        ensures near { IfSome result IsRectNear }
    {
        match self.at(self.open) {
            Some(kept) => Some(kept.dialog.bounds()),
            None => None,
        }
    }

    /// Returns the id of the open dialog.
    pub fn open_id(&self, desc: &Desc) -> Option<Id>
        ensures of_open { (s : State) (o : OpenDialog) → AreDialogs V.meaning desc.now s self.now → s.dialog ≡ Some o
            → result ≡ option_map (λ dialog. dialog.node.id) (slice_get desc.now.dialogs o.place) }
        ensures none { (s : State) → AreDialogs V.meaning desc.now s self.now → s.dialog ≡ None → result ≡ None }
    {
        let dialog = desc.dialogs.as_slice().get(self.open?)?;
        Some(dialog.node.id)
    }

    /// Moves the open dialog, so that its corner stands there. Adds to the damage all of it and its shadow, where it
    /// stood and where it stands, or nothing where it stood there already. Does nothing where no dialog is open.
    pub fn move_to(&mut self, corner: Point, damage: &mut Damage)
        requires corner { IsCorner corner }
        ensures dialogs { (d : Declared) (s : State) (o : OpenDialog) → AreDialogs V.meaning d s self.old → s.dialog ≡ Some o
            → AreDialogs V.meaning d (placed (Some o) corner s) self.new }
        ensures damage { (d : Declared) (s : State) (o : OpenDialog) → AreOfRun V.meaning d s self.old → s.dialog ≡ Some o
            → OpenAlike d damage.new s (placed (Some o) corner s) }
        ensures unmoved { (d : Declared) (s : State) (o : OpenDialog) → AreDialogs V.meaning d s self.old
            → s.dialog ≡ Some o → o.origin ≡ corner
            → damage.new ≡ damage.old }
        ensures unopened { (d : Declared) (s : State) → AreDialogs V.meaning d s self.old → s.dialog ≡ None
            → AreDialogs V.meaning d s self.new × (damage.new ≡ damage.old) }
        ensures log { log_of_last self.new ≡ log_of_last self.old }
        ensures kept { Keeps damage.old damage.new }
        ensures room { vec_capacity self.new.kept ≡ vec_capacity self.old.kept }
    {
        let Some(place) = self.open else {
            return;
        };
        if let Some(kept) = self.kept.get_mut(place) {
            kept.dialog.move_to(corner, damage);
        }
    }
}
