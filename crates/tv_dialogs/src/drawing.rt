//! The open dialog on the screen.

ghost use Rattle.std.specs.Prelude.{◌≡◌, IsTrue, map, true};
ghost use Rattle.tv_laws.specs.Runs.{HasSoundDialogs};
ghost use Rattle.tv_machine.specs.Screen.Layers.{open_layers};
ghost use Rattle.tv_machine.specs.State.{State};
ghost use Rattle.tv_model.specs.Description.Rectangles.{IsSmall, desktop};
ghost use Rattle.tv_model.specs.declared.desc.Desc.{Desc as Declared};
ghost use Rattle.tv_group.specs.Shown.{desktop_canvas};
ghost use Rattle.tv_cells.specs.Damage.{is_part};
ghost use Rattle.tv_cells.specs.Layers.{Lays};
ghost use Rattle.tv_cells.specs.Repainting.{clipped, within};
ghost use Rattle.tv_cells.specs.declared.rect.Rect.{Rect as Rectangle};
ghost use Rattle.tv_dialogs.specs.Damage.{HidesWithin, lies_in};
ghost use Rattle.tv_dialogs.specs.Dialogs.{AreDialogs, kept_at};

use crate::dialogs::DialogsOf;
use tv_cells::{Canvas, Rect, Screen};
use tv_model::Desc;
use tv_view::View;

impl<V: View> DialogsOf<V> {
    /// Draws the open dialog over its shadow, through the desktop's canvas, which a rectangle may cut. Draws nothing
    /// where none is open.
    pub fn draw(&self, screen: &mut Screen, desc: &Desc, canvas: Canvas)
        requires small { IsSmall canvas.origin.x × IsSmall canvas.origin.y }
        requires dialogs { (s : State) × AreDialogs V.meaning desc.now s self.now }
        ensures { (r : Rectangle) (s : State) → HasSoundDialogs desc.now → AreDialogs V.meaning desc.now s self.now
            → canvas ≡ within r (desktop_canvas desc.now)
            → Lays (map (clipped r) (open_layers desc.now s.overwriting s.dialog)) screen.old screen.new }
    {
        if let Some(place) = self.open {
            self.kept[place].draw(
                screen,
                &desc.dialogs.as_slice()[place],
                canvas,
                &self.colours,
            );
        }
    }

    /// Whether a rectangle of the screen lies whole in the open dialog. If it lies on the desktop too, the dialog hides what
    /// is below it there.
    pub fn hides(&self, rect: Rect) -> bool
        ensures within { result ≡ lies_in rect (kept_at self.now self.now.open) }
        ensures hidden { (d : Declared) (s : State) → AreDialogs V.meaning d s self.now → is_part rect (desktop d) ≡ true
            → IsTrue result → HidesWithin rect (open_layers d s.overwriting s.dialog) }
    {
        match self.at(self.open) {
            Some(kept) => kept.dialog.bounds().has_part(rect),
            None => false,
        }
    }
}
