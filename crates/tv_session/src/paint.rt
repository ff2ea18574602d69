//! The screen, drawn from the back to the front, or painted again where it is damaged.

ghost use Rattle.std.specs.Prelude.{◌≡◌, ◌∷◌, [], ◌-ℤ◌, pos, is_none, IsTrue, List, map};
ghost use Rattle.tv_cells.specs.Layers.{Layer, Shows, Lays};
ghost use Rattle.tv_cells.specs.Picture.{IsAlike, Picture};
ghost use Rattle.tv_cells.specs.Damage.{HasWithin, Holds};
ghost use Rattle.tv_cells.specs.Repainting.{AreAlike, KeepsRest, clipped, within};
ghost use Rattle.tv_cells.specs.declared.rect.Rect.{Rect as Region};
ghost use Rattle.tv_machine.specs.Dialog.Sound.{HasSoundDialogs};
ghost use Rattle.tv_machine.specs.Screen.Layers.{layers_of, open_layers, stack_layers};
ghost use Rattle.tv_machine.specs.State.{State};
ghost use Rattle.tv_menu.specs.Lawful.{IsLawfulScreen};
ghost use Rattle.tv_menu.specs.Line.{IsStatusLineOf};
ghost use Rattle.tv_model.specs.Description.Rectangles.{desktop};
ghost use Rattle.tv_model.specs.declared.desc.Desc.{Desc as Declared};
ghost use Rattle.tv_machine.specs.Screen.Bodies.{background_layer, canvas_at, whole_screen};
ghost use Rattle.tv_dialogs.specs.Damage.{HidesWithin};
ghost use Rattle.tv_session.specs.Running.{CanPaint, IsRun};
ghost use Rattle.tv_session.specs.Showing.{standing_layers};

use crate::run::RunOf;
use tv_cells::{Canvas, Damage, Face, Point, Rect, Screen, lay};
use tv_event::CommandSet;
use tv_faces::Background;
use tv_menu::StatusLine;
use tv_model::{Desc, natural};
use tv_palette::Owner;
use tv_view::{Env, View};

/// Returns the rows between the menu bar and the status line.
pub(crate) fn desktop(desc: &Desc) -> Rect
    requires { IsLawfulScreen desc.now.width desc.now.height }
    ensures { result ≡ desktop desc.now }
{
    Rect {
        a: Point { x: 0, y: 1 },
        b: Point {
            x: desc.width,
            y: desc.height - 1,
        },
    }
}

fn desktop_canvas(desc: &Desc) -> Canvas
    requires { IsLawfulScreen desc.now.width desc.now.height }
    ensures { result ≡ canvas_at (desktop desc.now) (pos 0) (pos 0) }
{
    Canvas {
        clip: desktop(desc),
        origin: Point { x: 0, y: 0 },
    }
}

/// Returns all cells of the description's screen.
pub(crate) fn whole_screen(desc: &Desc) -> Rect
    ensures { result ≡ whole_screen desc.now }
{
    Rect {
        a: Point { x: 0, y: 0 },
        b: Point {
            x: desc.width,
            y: desc.height,
        },
    }
}

fn whole_canvas(desc: &Desc) -> Canvas
    ensures { result ≡ canvas_at (whole_screen desc.now) (pos 0) (pos 0) }
{
    Canvas {
        clip: whole_screen(desc),
        origin: Point { x: 0, y: 0 },
    }
}

// The canvas, cut by a rectangle of the screen.
fn within(rect: Rect, canvas: Canvas) -> Canvas
    ensures { result ≡ within rect canvas }
{
    Canvas {
        clip: rect.intersect(canvas.clip),
        origin: canvas.origin,
    }
}

// How many cells could be painted in the time of one more pass over the views, which each rectangle costs.
const PASS: u64 = 40;

// What it costs to paint a rectangle, counted in cells.
fn cost(rect: &Rect) -> u64 {
    u64::from(rect.width()) * u64::from(rect.height()) + PASS
}

/// Replaces what was painted again by what of a damage lies on the screen. It is the whole screen where one pass over that
/// costs less than a pass for each rectangle.
pub(crate) fn replace_damage(painted: &mut Damage, damage: &Damage, whole: Rect)
    ensures all { HasWithin whole damage.now painted.new }
    ensures within { Holds whole painted.new }
{
    painted.clear();
    painted.add_within(damage, whole);
    let costs = painted.rects().iter().map(cost);
    if costs.fold(0, u64::saturating_add) > cost(&whole) {
        painted.clear();
        painted.add(whole);
    }
}

fn draw_background(screen: &mut Screen, desc: &Desc, canvas: Canvas)
    ensures { (r : Region) → canvas ≡ within r (canvas_at (desktop desc.now) (pos 0) (pos 0))
        → Lays (clipped r (background_layer desc.now) ∷ []) screen.old screen.new }
{
    lay(
        screen,
        canvas,
        natural(&desc.width),
        natural(&desc.height),
        &Background,
    );
}

impl<V: View> RunOf<V> {
    // Draws the windows through the desktop's canvas, which a rectangle may cut. The front window is active where no
    // dialog is open.
    fn draw_windows(&self, screen: &mut Screen, canvas: Canvas)
        requires { (canvas.origin.x ≡ pos 0) × (canvas.origin.y ≡ pos 0) }
        ensures { (d : Declared) (s : State) (r : Region) → IsRun V.meaning d s self.now
            → canvas ≡ within r (canvas_at (desktop d) (pos 0) (pos 0))
            → Lays (map (clipped r) (stack_layers d (is_none s.dialog) s.windows)) screen.old screen.new }
    {
        let commands = CommandSet::all();
        let env = Env {
            owner: Owner::Window,
            chain: self.colours.chain(),
            views: &[],
            commands: &commands,
            focus: None,
            default_now: None,
            is_active: !self.dialogs.is_open(),
        };
        self.desk.draw(screen, canvas, &env);
    }

    // Whether the open dialog hides what is below it in a rectangle of the screen.
    fn hides_below(&self, desc: &Desc, rect: Rect) -> bool
        requires { IsLawfulScreen desc.now.width desc.now.height }
        ensures { (s : State) → IsRun V.meaning desc.now s self.now → IsTrue result
            → HidesWithin rect (open_layers desc.now s.overwriting s.dialog) }
    {
        if !desktop(desc).has_part(rect) {
            return false;
        }
        self.dialogs.hides(rect)
    }

    // Draws what is below the open dialog, unless that hides it. What the dialog is then drawn over shows with it what all
    // of them show.
    fn draw_below(&self, screen: &mut Screen, desc: &Desc, rect: Rect, canvas: Canvas)
        requires screen { IsLawfulScreen desc.now.width desc.now.height }
        requires canvas { canvas ≡ within rect (canvas_at (desktop desc.now) (pos 0) (pos 0)) }
        ensures { (s : State) (after : Picture) → IsRun V.meaning desc.now s self.now
            → Lays (map (clipped rect) (open_layers desc.now s.overwriting s.dialog)) screen.new after
            → Lays (map (clipped rect) (standing_layers desc.now s)) screen.old after }
    {
        if self.hides_below(desc, rect) {
            return;
        }
        draw_background(screen, desc, canvas);
        self.draw_windows(screen, canvas);
    }

    // Draws what lies in a rectangle of the screen, from the back to the front.
    fn draw_within(&self, screen: &mut Screen, desc: &Desc, line: &StatusLine, rect: Rect)
        requires screen { IsLawfulScreen desc.now.width desc.now.height }
        requires known { (s : State) × IsRun V.meaning desc.now s self.now }
        ensures { (s : State) → HasSoundDialogs desc.now → IsRun V.meaning desc.now s self.now → IsStatusLineOf desc.now line.now
            → Lays (map (clipped rect) (layers_of desc.now s)) screen.old screen.new }
    {
        let desktop = within(rect, desktop_canvas(desc));
        let whole = within(rect, whole_canvas(desc));
        self.draw_below(screen, desc, rect, desktop);
        self.dialogs.draw(screen, desc, desktop);
        self.bar.draw_box(screen, desktop);
        line.draw(screen, whole, self.dialogs.commands());
        self.bar.draw(screen, whole);
    }

    /// Paints the whole screen.
    pub(crate) fn paint(&self, screen: &mut Screen, desc: &Desc, line: &StatusLine)
        requires { (s : State) × CanPaint V.meaning desc.now s self.now line.now screen.old }
        ensures { (s : State) → CanPaint V.meaning desc.now s self.now line.now screen.old
            → IsAlike screen.old screen.new × Shows (layers_of desc.now s) screen.new }
    {
        self.draw_within(screen, desc, line, whole_screen(desc));
    }

    /// Paints again what was damaged. If the screen showed layers that differ from those of the run only in the damage,
    /// it then shows the run. No other cell changes.
    pub(crate) fn repaint(
        &self,
        screen: &mut Screen,
        desc: &Desc,
        line: &StatusLine,
        damage: &Damage,
    )
        requires { (s : State) × CanPaint V.meaning desc.now s self.now line.now screen.old }
        ensures size { IsAlike screen.old screen.new }
        ensures shows { (s : State) (before : List Layer) → CanPaint V.meaning desc.now s self.now line.now screen.old
            → Shows before screen.old
            → AreAlike screen.old damage.now before (layers_of desc.now s) → Shows (layers_of desc.now s) screen.new }
        ensures rest { KeepsRest damage.now screen.old screen.new }
    {
        for rect in damage.rects() {
            self.draw_within(screen, desc, line, *rect);
        }
    }
}
