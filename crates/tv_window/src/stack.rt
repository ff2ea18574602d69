//! Windows one over the other.

ghost use Rattle.std.specs.Prelude.{◌≡◌, List, map};
ghost use Rattle.tv_machine.specs.Screen.Layers.{stack_layers as declared_layers};
ghost use Rattle.tv_model.specs.Description.Rectangles.{IsSmall};
ghost use Rattle.tv_machine.specs.State.{OpenWindow};
ghost use Rattle.tv_model.specs.declared.desc.Desc.{Desc};
ghost use Rattle.tv_cells.specs.Layers.{Lays};
ghost use Rattle.tv_cells.specs.Repainting.{clipped, within};
ghost use Rattle.tv_cells.specs.declared.rect.Rect.{Rect};
ghost use Rattle.tv_window.specs.DeclaredWindows.{AreDeclared, IsOfWindow, window_canvas};
ghost use Rattle.tv_window.specs.Window.{drawn_stack};

use crate::window::WindowOf;
use tv_cells::{Canvas, Screen, lay_shadow};
use tv_view::{Env, View};

/// Draws windows, of which the list has the front one first. Each stands over its shadow, and that over all windows
/// behind it. Only the front one is drawn as active, and only where the environment says so.
///
/// Windows as a description declares them, drawn on its desktop, show what the flat machine's layers of the open windows
/// show. A rectangle may cut the desktop.
pub fn draw_stack<V: View>(windows: &[WindowOf<V>], screen: &mut Screen, canvas: Canvas, env: &Env)
    requires { IsSmall canvas.origin.x × IsSmall canvas.origin.y }
    ensures layers { Lays (drawn_stack V.meaning env.now canvas windows.now) screen.old screen.new }
    ensures declared { (d : Desc) (r : Rect) (stack : List OpenWindow) → AreDeclared V.meaning d stack windows.now
        → IsOfWindow env.now → canvas ≡ within r (window_canvas d)
        → Lays (map (clipped r) (declared_layers d env.now.is_active stack)) screen.old screen.new }
{
    if let Some((front, behind)) = windows.split_first() {
        let passive = Env {
            is_active: false,
            ..*env
        };
        draw_stack(behind, screen, canvas, &passive);
        lay_shadow(screen, canvas, front.bounds());
        front.draw(screen, canvas, env);
    }
}
