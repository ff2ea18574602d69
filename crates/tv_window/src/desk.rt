//! The open windows.

ghost use Rattle.std.specs.Prelude.{◌≡◌, ◌≢◌, ◌==◌, ◌-◌, IfSome, List, is_some, length, map, reverse, vec_capacity};
ghost use Rattle.tv_machine.specs.Screen.Layers.{stack_layers};
ghost use Rattle.tv_machine.specs.Session.Commands.{close_front, do_command, last_first};
ghost use Rattle.tv_machine.specs.Session.Desktop.{raise_found, window_of_digit, window_under};
ghost use Rattle.tv_machine.specs.Session.Dragging.{front_at, grabbed};
ghost use Rattle.tv_machine.specs.Session.Laid.{laid_in_window};
ghost use Rattle.tv_machine.specs.Session.Left.{is_window_down};
ghost use Rattle.tv_machine.specs.Session.Start.{closed};
ghost use Rattle.tv_machine.specs.State.{OpenWindow, State};
ghost use Rattle.tv_model.specs.Description.Rectangles.{IsSmall};
ghost use Rattle.tv_model.specs.declared.desc.Desc.{Desc};
ghost use Rattle.tv_cells.specs.Layers.{Lays};
ghost use Rattle.tv_cells.specs.Rectangle.{IsRectNear};
ghost use Rattle.tv_cells.specs.Repainting.{clipped, within};
ghost use Rattle.tv_cells.specs.declared.rect.Point.{Point as Declared};
ghost use Rattle.tv_cells.specs.declared.rect.Rect.{Rect as Region};
ghost use Rattle.tv_faces.specs.Corners.{IsCorner};
ghost use Rattle.tv_window.specs.DeclaredWindows.{IsOfWindow, window_canvas};
ghost use Rattle.tv_cells.specs.Damage.{GrowsIn};
ghost use Rattle.tv_window.specs.Damage.{AreStacksAlike, closed_rects, digit_place, dragged_front_rects, laid_rects, moved_rects, point_place, raised_rects, windows_of};
ghost use Rattle.tv_window.specs.Desk.{AreFreshWindows, AreLawfulWindows, FrontStandsAt, IsDesk, bounds_in, down_on_desk, front_id, with_close_line};

use crate::places::{hit_on, is_hit, place_of_digit, place_of_id, place_under};
use crate::{WindowOf, draw_stack};
use tv_cells::{Canvas, Damage, Point, Rect, Screen};
use tv_group::Stack;
use tv_model::Id;
use tv_view::{Env, View};

/// The open windows of a run, the front one first.
///
/// It is generic in their views, as a window is; the toolkit's own has boxed ones. Its calls keep the room that it was made
/// with.
#[derive(Drop)]
pub struct DeskOf<V> {
    pub(crate) windows: Stack<WindowOf<V>>,
}

/// The open windows of a run, whose views are boxed.
pub type Desk = DeskOf<Box<dyn View>>;

/// What is left to be done after a mouse down on the desktop.
#[derive(Clone, Copy, Debug, PartialEq, Eq)]
pub enum Hit {
    /// It was on the close mark of the front window, which is to be closed.
    CloseMark,
    /// It was on the top row of the front window, beside the close mark: the mouse now holds the window, whose corner
    /// this is.
    Grip(Point),
    /// Nothing more.
    Done,
}

impl<V: View> DeskOf<V> {
    /// Makes the desk of the windows as they stand before any event. They come in description order, and later ones
    /// stand in front.
    pub fn new(mut windows: Vec<WindowOf<V>>) -> DeskOf<V>
        ensures desk { (d : Desc) → AreLawfulWindows d.windows → AreFreshWindows V.meaning d.windows windows.items
            → IsDesk V.meaning d (closed d).windows result }
        ensures windows { windows_of result ≡ reverse windows.items }
        ensures room { vec_capacity result.windows.items ≡ vec_capacity windows }
    {
        windows.reverse();
        DeskOf {
            windows: Stack::new(windows),
        }
    }

    /// Whether no window is open.
    pub fn is_empty(&self) -> bool
        ensures { (d : Desc) (stack : List OpenWindow) → IsDesk V.meaning d stack self.now → result ≡ (length stack == 0) }
    {
        self.windows.items.is_empty()
    }

    /// Raises the window of a number to the front, as Alt with a digit from 1 to 9 asks, and adds what then shows
    /// otherwise to the damage. Does nothing for any other character.
    pub fn raise_number(&mut self, letter: char, damage: &mut Damage)
        ensures desk { (d : Desc) (s : State) → IsDesk V.meaning d s.windows self.old
            → IsDesk V.meaning d (raise_found (window_of_digit d s letter) s).windows self.new }
        ensures damage { (d : Desc) (s : State) → IsDesk V.meaning d s.windows self.old
            → AreStacksAlike d damage.new s.windows (raise_found (window_of_digit d s letter) s).windows }
        ensures grown { GrowsIn (moved_rects (windows_of self.old) (digit_place (windows_of self.old) letter)) damage.old damage.new }
        ensures room { vec_capacity self.new.windows.items ≡ vec_capacity self.old.windows.items }
    {
        if let Some(place) = place_of_digit(&self.windows.items, letter) {
            self.raise(place, damage);
        }
    }

    /// Whether `raise_number` finds a window for the character.
    pub fn takes_digit(&self, letter: char) -> bool
        ensures { (d : Desc) (s : State) → IsDesk V.meaning d s.windows self.now → result ≡ is_some (window_of_digit d s letter) }
    {
        place_of_digit(&self.windows.items, letter).is_some()
    }

    /// Whether a mouse down on the desktop brings a window to the front, closes the front one, or takes hold of it.
    pub fn takes_down(&self, point: Point) -> bool
        ensures { (d : Desc) (s : State) → IsDesk V.meaning d s.windows self.now
            → result ≡ is_window_down d s.windows (window_under d s point) point }
    {
        let Some(place) = place_under(&self.windows.items, point) else {
            return false;
        };
        place > 0 || is_hit(hit_on(&self.windows.items[place], point))
    }

    /// Handles a mouse down on the desktop while neither a menu nor a dialog is open: brings a window that isn't the
    /// front one to the front, and adds what then shows otherwise to the damage. Returns what is left to be done.
    pub fn down(&mut self, point: Point, damage: &mut Damage) -> Hit
        ensures kept { result ≢ Hit.Done → self.new ≡ self.old }
        ensures mark { (d : Desc) (s : State) → IsDesk V.meaning d s.windows self.old → result ≡ Hit.CloseMark
            → down_on_desk d point s ≡ do_command d 4 s }
        ensures grip { (corner : Declared) (d : Desc) (s : State) → IsDesk V.meaning d s.windows self.old → result ≡ Hit.Grip corner
            → down_on_desk d point s ≡ grabbed corner point s }
        ensures corner { (corner : Declared) → result ≡ Hit.Grip corner → IsCorner corner }
        ensures done { (d : Desc) (s : State) → IsDesk V.meaning d s.windows self.old → result ≡ Hit.Done
            → IsDesk V.meaning d (down_on_desk d point s).windows self.new
            × (down_on_desk d point s ≡ record s { windows = (down_on_desk d point s).windows }) }
        ensures damage { (d : Desc) (s : State) → IsDesk V.meaning d s.windows self.old → result ≡ Hit.Done
            → AreStacksAlike d damage.new s.windows (down_on_desk d point s).windows }
        ensures grown { GrowsIn (moved_rects (windows_of self.old) (point_place (windows_of self.old) point)) damage.old damage.new }
        ensures unmarked { result ≢ Hit.Done → damage.new ≡ damage.old }
        ensures room { vec_capacity self.new.windows.items ≡ vec_capacity self.old.windows.items }
    {
        let Some(place) = place_under(&self.windows.items, point) else {
            return Hit::Done;
        };
        if place > 0 {
            self.raise(place, damage);
            return Hit::Done;
        }
        hit_on(&self.windows.items[place], point)
    }

    /// Moves the corner of the front window to a point within -132 to 132, and adds what then shows otherwise to the
    /// damage. Does nothing where it stands there already, or where no window is open.
    pub fn move_front(&mut self, corner: Point, damage: &mut Damage)
        requires { IsCorner corner }
        ensures desk { (d : Desc) (stack : List OpenWindow) → IsDesk V.meaning d stack self.old
            → IsDesk V.meaning d (front_at corner stack) self.new }
        ensures damage { (d : Desc) (stack : List OpenWindow) → IsDesk V.meaning d stack self.old
            → AreStacksAlike d damage.new stack (front_at corner stack) }
        ensures grown { GrowsIn (dragged_front_rects (windows_of self.old) corner) damage.old damage.new }
        ensures unmoved { FrontStandsAt corner (windows_of self.old) → damage.new ≡ damage.old }
        ensures room { vec_capacity self.new.windows.items ≡ vec_capacity self.old.windows.items }
    {
        if let Some(front) = self.windows.items.first_mut() {
            front.move_to(corner, damage);
        }
    }

    /// Lays a sheet in the open window of an id, in the place of the one that lay there, or takes that away. Adds the
    /// window to the damage. Does nothing where none has the id.
    pub fn lay(&mut self, id: Id, sheet: Option<Screen>, damage: &mut Damage)
        ensures desk { (d : Desc) (stack : List OpenWindow) → IsDesk V.meaning d stack self.old
            → IsDesk V.meaning d (map (laid_in_window id sheet) stack) self.new }
        ensures damage { (d : Desc) (stack : List OpenWindow) → IsDesk V.meaning d stack self.old
            → AreStacksAlike d damage.new stack (map (laid_in_window id sheet) stack) }
        ensures grown { GrowsIn (laid_rects (windows_of self.old) id) damage.old damage.new }
        ensures room { vec_capacity self.new.windows.items ≡ vec_capacity self.old.windows.items }
    {
        if let Some(place) = place_of_id(&self.windows.items, id) {
            let window = &mut self.windows.items[place];
            window.lay_sheet(sheet, damage);
        }
    }

    /// Returns the rectangle on the screen of the open window of an id, or `None` where none has it.
    pub fn bounds_of(&self, id: Id) -> Option<Rect>
        ensures is { (d : Desc) (stack : List OpenWindow) → IsDesk V.meaning d stack self.now → result ≡ bounds_in d id stack }
        ensures near { IfSome result IsRectNear }
    {
        match place_of_id(&self.windows.items, id) {
            Some(place) => Some(self.windows.items[place].bounds()),
            None => None,
        }
    }

    /// Returns the id of the front window, or `None` where no window is open.
    pub fn front(&self) -> Option<Id>
        ensures { (d : Desc) (stack : List OpenWindow) → IsDesk V.meaning d stack self.now → result ≡ front_id stack }
    {
        let front = self.windows.items.first()?;
        Some(front.id())
    }

    /// Brings the rearmost window to the front, and adds what then shows otherwise to the damage.
    pub fn next(&mut self, damage: &mut Damage)
        ensures desk { (d : Desc) (stack : List OpenWindow) → IsDesk V.meaning d stack self.old
            → IsDesk V.meaning d (last_first (reverse stack)) self.new }
        ensures damage { (d : Desc) (stack : List OpenWindow) → IsDesk V.meaning d stack self.old
            → AreStacksAlike d damage.new stack (last_first (reverse stack)) }
        ensures grown { GrowsIn (raised_rects (windows_of self.old) (length (windows_of self.old) - 1)) damage.old damage.new }
        ensures room { vec_capacity self.new.windows.items ≡ vec_capacity self.old.windows.items }
    {
        if let Some(last) = self.windows.items.len().checked_sub(1) {
            self.raise(last, damage);
        }
    }

    /// Closes the front window, and adds what then shows otherwise to the damage. Returns the window's id, or `None`
    /// where no window is open.
    pub fn close_front(&mut self, damage: &mut Damage) -> Option<Id>
        ensures desk { (d : Desc) (s : State) → IsDesk V.meaning d s.windows self.old
            → IsDesk V.meaning d (close_front s.windows s).windows self.new }
        ensures line { (d : Desc) (s : State) → IsDesk V.meaning d s.windows self.old
            → close_front s.windows s ≡ with_close_line result (record s { windows = (close_front s.windows s).windows }) }
        ensures damage { (d : Desc) (s : State) → IsDesk V.meaning d s.windows self.old
            → AreStacksAlike d damage.new s.windows (close_front s.windows s).windows }
        ensures grown { GrowsIn (closed_rects (windows_of self.old)) damage.old damage.new }
        ensures room { vec_capacity self.new.windows.items ≡ vec_capacity self.old.windows.items }
    {
        let window = self.windows.remove(0)?;
        damage.add_with_shadow(window.bounds());
        self.front_damage(damage);
        Some(window.id())
    }

    /// Draws the windows with their shadows on the desktop, whose canvas is handed in; a rectangle may cut it. Only the
    /// front one is drawn as active, and only where the environment says so.
    pub fn draw(&self, screen: &mut Screen, canvas: Canvas, env: &Env)
        requires { IsSmall canvas.origin.x × IsSmall canvas.origin.y }
        ensures { (d : Desc) (r : Region) (stack : List OpenWindow) → IsDesk V.meaning d stack self.now
            → IsOfWindow env.now → canvas ≡ within r (window_canvas d)
            → Lays (map (clipped r) (stack_layers d env.now.is_active stack)) screen.old screen.new }
    {
        draw_stack(&self.windows.items, screen, canvas, env);
    }
}
