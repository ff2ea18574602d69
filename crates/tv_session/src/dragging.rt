//! Windows and dialogs, dragged by their top rows.

ghost use Rattle.std.specs.Prelude.{◌≡◌, [], Option, pos, ◌-ℤ◌};
ghost use Rattle.tv_cells.specs.declared.rect.Point.{Point as Corner};
ghost use Rattle.tv_dialogs.specs.Handed.{IsPointGiven};
ghost use Rattle.tv_faces.specs.Corners.{IsCorner};
ghost use Rattle.tv_machine.specs.Session.Dragging.{corner_at, dropped, grabbed, let_go, moved_frame, placed, step_dragged};
ghost use Rattle.tv_machine.specs.State.{HeldFrame as Held, State};
ghost use Rattle.tv_menu.specs.Lawful.{IsLawfulScreen};
ghost use Rattle.tv_model.specs.Description.Numbers.{IsBetween};
ghost use Rattle.tv_model.specs.declared.desc.Desc.{Desc as Declared};
ghost use Rattle.tv_session.specs.Running.{IsAwakeWith, IsDragged, ShowAlikeOff, IsRun, IsRunSince, seen_frame, with_moved_line};

use crate::log::note;
use crate::run::RunOf;
use tv_cells::Point;
use tv_event::Event;
use tv_model::{Desc, Id, LogLine};
use tv_view::View;

/// A frame that the mouse holds: the open dialog's or, where none is open, the front window's.
#[derive(Clone, Copy)]
pub(crate) struct HeldFrame {
    /// The column of it that the mouse holds.
    off: i32,
    /// Where its corner stood at the mouse down.
    from: Point,
}

impl HeldFrame {
    // The frame with this corner, held at a point.
    fn new(corner: Point, point: Point) -> HeldFrame
        requires corner { IsCorner corner }
        requires near { IsPointGiven point }
        ensures { seen_frame result ≡ record { off = point.x -ℤ corner.x; from = corner } }
    {
        HeldFrame {
            off: point.x - corner.x,
            from: corner,
        }
    }

    // Where the corner comes to: the column that is held is the mouse's, or the nearest one of the screen; the row is the
    // mouse's, or the nearest one of the desktop.
    fn corner(&self, desc: &Desc, mouse: Point) -> Point
        requires column { IsBetween (pos 0) (pos 131) self.now.off }
        requires screen { IsLawfulScreen desc.now.width desc.now.height }
        ensures is { result ≡ corner_at desc.now (seen_frame self.now) mouse }
        ensures near { IsCorner result }
    {
        Point {
            x: mouse.x.clamp(0, desc.width - 1) - self.off,
            y: mouse.y.clamp(1, desc.height - 2),
        }
    }
}

impl<V: View> RunOf<V> {
    /// Lets the mouse hold the frame with this corner at a point.
    pub(crate) fn grab(&mut self, corner: Point, point: Point)
        requires corner { IsCorner corner }
        requires near { IsPointGiven point }
        ensures { (d : Declared) (since s : State) → IsRunSince V.meaning d since s self.old
            → IsRunSince V.meaning d since (grabbed corner point s) self.new }
    {
        self.frame = Some(HeldFrame::new(corner, point));
    }

    // Puts the frame there that is dragged.
    fn place(&mut self, corner: Point)
        requires { IsCorner corner }
        ensures { (d : Declared) (held : Option Held) (since s : State) → IsAwakeWith V.meaning d held s self.old
            → ShowAlikeOff d since s self.old.damage
            → IsRunSince V.meaning d since (placed s.dialog corner s) self.new }
    {
        if self.dialogs.is_open() {
            self.dialogs.move_to(corner, &mut self.damage);
        } else {
            self.desk.move_front(corner, &mut self.damage);
        }
    }

    // The id of the dialog or the window that is dragged.
    fn dragged_id(&self, desc: &Desc) -> Option<Id>
        ensures { (s : State) (corner : Corner) → IsRun V.meaning desc.now s self.now
            → moved_frame desc.now s.dialog corner s ≡ with_moved_line result corner s }
    {
        if self.dialogs.is_open() {
            self.dialogs.open_id(desc)
        } else {
            self.desk.front()
        }
    }

    // Logs that the frame that is dragged has come there.
    fn note_moved(&mut self, desc: &Desc, corner: Point)
        ensures { (since s : State) → IsRunSince V.meaning desc.now since s self.old → s.log ≡ []
            → IsRunSince V.meaning desc.now since (moved_frame desc.now s.dialog corner s) self.new }
    {
        if let Some(id) = self.dragged_id(desc) {
            note(&mut self.log, LogLine::Moved(id, corner));
        }
    }

    // Puts the frame there and lets it go. Logs that where it doesn't stand where it stood at the mouse down.
    fn release(&mut self, desc: &Desc, frame: HeldFrame, corner: Point)
        requires { IsCorner corner }
        ensures { (since s : State) → IsDragged V.meaning desc.now frame s self.old → ShowAlikeOff desc.now since s self.old.damage
            → IsRunSince V.meaning desc.now since
            (dropped desc.now (seen_frame frame) corner (placed s.dialog corner (let_go s))) self.new }
    {
        self.frame = None;
        self.place(corner);
        if frame.from != corner {
            self.note_moved(desc, corner);
        }
    }

    /// Handles an event while the mouse holds a frame: moves and ups drag it, an up lets it go, and nothing else does
    /// anything.
    pub(crate) fn drag(&mut self, desc: &Desc, frame: HeldFrame, event: &Event)
        requires { (s : State) × IsDragged V.meaning desc.now frame s self.old }
        ensures { (since s : State) → IsDragged V.meaning desc.now frame s self.old → ShowAlikeOff desc.now since s self.old.damage
            → IsRunSince V.meaning desc.now since (step_dragged desc.now (seen_frame frame) event.now s) self.new }
    {
        match event {
            Event::Move(point) => self.place(frame.corner(desc, *point)),
            Event::Up(point) => self.release(desc, frame, frame.corner(desc, *point)),
            Event::Key(_) | Event::Down(_) | Event::Command(_) | Event::Broadcast(_) => {}
        }
    }
}
