//! The bar, the box of the open menu and the status line on the screen.

ghost use Rattle.std.specs.Prelude.{◌≡◌, ◌≤◌, ◌<◌, [], ◌∷◌, ◌-ℤ◌, pos, is_some, map};
ghost use Rattle.tv_cells.specs.Picture.{IsAlike};
ghost use Rattle.tv_cells.specs.Rectangle.{IsPointNear, IsRectNear, shifted_point, sized};
ghost use Rattle.tv_cells.specs.Layers.{Painted, Shadow, Lays};
ghost use Rattle.tv_cells.specs.Repainting.{clipped, within};
ghost use Rattle.tv_cells.specs.declared.rect.Rect.{Rect as Region};
ghost use Rattle.tv_machine.specs.State.{State};
ghost use Rattle.tv_machine.specs.Screen.Bars.{box_face, box_height, box_width};
ghost use Rattle.tv_machine.specs.Screen.Layers.{bar_layer, box_layers, open_place, status_layer};
ghost use Rattle.tv_model.specs.declared.desc.Desc.{Desc as Declared};
ghost use Rattle.tv_model.specs.Description.Rectangles.{desktop};
ghost use Rattle.tv_machine.specs.Screen.Bodies.{canvas_at, whole_screen};
ghost use Rattle.tv_menu.specs.Bar.{IsBarOf, open_of};
ghost use Rattle.tv_menu.specs.Lawful.{IsLawfulMenu};
ghost use Rattle.tv_menu.specs.Line.{AreEnabled, IsStatusLineOf};

use crate::bar_face::BarFace;
use crate::bars::{MenuBar, StatusLine};
use crate::box_face::BoxFace;
use crate::boxes::{box_height, box_width};
use crate::effect::menu_of;
use crate::menus::menu_at;
use crate::status_face::StatusFace;
use tv_cells::{Canvas, Point, Rect, Screen, lay, lay_shadow};
use tv_event::CommandSet;
use tv_model::{Menu, natural};

// The canvas, with its origin moved by the coordinates of a point.
fn moved(canvas: Canvas, by: Point) -> Canvas
    requires origin { IsPointNear canvas.origin }
    requires by { IsPointNear by }
    ensures { result ≡ record { clip = canvas.clip; origin = shifted_point canvas.origin by } }
{
    Canvas {
        clip: canvas.clip,
        origin: canvas.origin.shift(by),
    }
}

// A rectangle of a size, with its corner at the origin.
fn sized(width: u32, height: u32) -> Rect
    requires width { width ≤ 124 }
    requires height { height ≤ 18 }
    ensures is { result ≡ sized width height }
    ensures near { IsRectNear result }
{
    Rect {
        a: Point { x: 0, y: 0 },
        b: Point {
            x: width as i32,
            y: height as i32,
        },
    }
}

// Draws the box of a menu with its current item, over its shadow, with its corner at the canvas's origin.
fn lay_box(screen: &mut Screen, canvas: Canvas, menu: &Menu, current: usize)
    requires { IsLawfulMenu menu.now }
    ensures { Lays (Painted canvas (box_width menu.now) (box_height menu.now) (box_face menu.now current)
        ∷ Shadow canvas (sized (box_width menu.now) (box_height menu.now)) ∷ []) screen.old screen.new }
{
    let width = box_width(menu);
    let height = box_height(menu);
    let face = BoxFace {
        menu,
        current,
        width,
    };
    lay_shadow(screen, canvas, sized(width, height));
    lay(screen, canvas, width, height, &face);
}

impl MenuBar {
    /// Whether a menu is open.
    pub fn is_open(&self) -> bool
        ensures { result ≡ is_some (open_of self.now) }
    {
        self.open.is_some()
    }

    /// Draws the bar into the first row of the screen. The canvas must be that of the whole screen, which a rectangle
    /// may cut.
    pub fn draw(&self, screen: &mut Screen, canvas: Canvas)
        ensures size { IsAlike screen.old screen.new }
        ensures layers { (d : Declared) (r : Region) → IsBarOf d self.now → canvas ≡ within r (canvas_at (whole_screen d) (pos 0) (pos 0))
            → Lays (clipped r (bar_layer d (open_of self.now)) ∷ []) screen.old screen.new }
    {
        let face = BarFace {
            menus: self.menus.as_slice(),
            opened: self.open_place(),
        };
        lay(screen, canvas, natural(&self.width), 1, &face);
    }

    pub(crate) fn open_place(&self) -> Option<usize>
        ensures { result ≡ open_place (open_of self.now) }
    {
        menu_of(self.open)
    }

    /// Draws the box of the open menu over its shadow. The canvas must be the desktop's, with its origin in the
    /// screen's corner; a rectangle may cut it. Draws nothing while no menu is open.
    pub fn draw_box(&self, screen: &mut Screen, canvas: Canvas)
        requires { IsPointNear canvas.origin }
        ensures size { IsAlike screen.old screen.new }
        ensures layers { (d : Declared) (r : Region) → IsBarOf d self.now → canvas ≡ within r (canvas_at (desktop d) (pos 0) (pos 0))
            → Lays (map (clipped r) (box_layers d (open_of self.now))) screen.old screen.new }
    {
        let Some(current) = self.open else {
            return;
        };
        if let Some(menu) = menu_at(self.menus.as_slice(), current.menu) {
            let corner = self.box_of(current.menu).a;
            lay_box(screen, moved(canvas, corner), menu, current.item);
        }
    }
}

impl StatusLine {
    /// Draws the line into the last row of the screen. The canvas must be that of the whole screen, which a rectangle
    /// may cut. Items whose commands are not in the set are shown as disabled.
    pub fn draw(&self, screen: &mut Screen, canvas: Canvas, enabled: &CommandSet)
        requires { IsPointNear canvas.origin }
        ensures size { IsAlike screen.old screen.new }
        ensures layers { (d : Declared) (s : State) (r : Region) → IsStatusLineOf d self.now → AreEnabled d s enabled.now
            → canvas ≡ within r (canvas_at (whole_screen d) (pos 0) (pos 0))
            → Lays (clipped r (status_layer d s) ∷ []) screen.old screen.new }
    {
        let face = StatusFace {
            items: self.items.as_slice(),
            enabled,
        };
        lay(
            screen,
            moved(canvas, self.corner()),
            natural(&self.width),
            1,
            &face,
        );
    }

    // The first cell of the last row.
    fn corner(&self) -> Point
        ensures is { (d : Declared) → IsStatusLineOf d self.now → result ≡ record { x = pos 0; y = d.height -ℤ pos 1 } }
        ensures near { IsPointNear result }
    {
        Point {
            x: 0,
            y: self.last_row(),
        }
    }
}
