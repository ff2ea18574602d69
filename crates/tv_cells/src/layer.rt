//! Layers, which are drawn one over the other.

ghost use Rattle.std.specs.Prelude.{List, ◌∷◌};
ghost use Rattle.tv_cells.specs.Rectangle.{IsRectNear};
ghost use Rattle.tv_cells.specs.Picture.{IsAlike};
ghost use Rattle.tv_cells.specs.Layers.{Layer, Painted, Shadow, Shows};

use crate::canvas::Canvas;
use crate::face::{Face, paint};
use crate::rect::Rect;
use crate::screen::Screen;

/// Draws a face over what the screen shows, with its corner at the canvas's origin.
pub fn lay<F: Face>(screen: &mut Screen, canvas: Canvas, width: u32, height: u32, face: &F)
    ensures size { IsAlike screen.old screen.new }
    ensures shows { (layers : List Layer) → Shows layers screen.old
        → Shows (Painted canvas width height (F.face face.now) ∷ layers) screen.new }
{
    paint(screen, canvas, width, height, face);
}

/// Draws the shadow of a rectangle, which is seen from the canvas's origin, over what the screen shows.
pub fn lay_shadow(screen: &mut Screen, canvas: Canvas, rect: Rect)
    requires { IsRectNear rect }
    ensures size { IsAlike screen.old screen.new }
    ensures shows { (layers : List Layer) → Shows layers screen.old → Shows (Shadow canvas rect ∷ layers) screen.new }
{
    canvas.cast_shadow(screen, rect);
}
