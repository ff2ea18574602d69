//! What is run in a terminal.

ghost use Rattle.std.specs.Prelude.{◌≡◌, List, option_map};
ghost use Rattle.tv_cells.specs.declared.rect.Rect.{Rect as Declared};
ghost use Rattle.tv_machine.specs.Run.{Session, stepped};
ghost use Rattle.tv_play.specs.Shown.{KeepsScreen};
ghost use Rattle.tv_terminal.specs.Points.{IsPlaced};

use tv_cells::Rect;
use tv_event::Event;
use tv_model::Id;
use tv_script::Stage;

/// A run of a description that tells what of its screen an event had painted again.
pub trait Live: Stage {
    ghost repaints: { Self → List Declared };

    /// Handles one event. Its point may lie beside the screen.
    fn react(&mut self, event: &Event)
        requires near { IsPlaced event.now }
        requires there { (s : Session) × Self.stands self.old s }
        ensures stands { (s : Session) → Self.stands self.old s → Self.stands self.new (stepped s event.now) }
        ensures rest { (s : Session) → Self.stands self.old s → KeepsScreen (repaints self.new) s (stepped s event.now) };

    /// Returns the rectangles of the screen that the last event had painted again. No cell outside them has changed.
    fn repainted(&self) -> &[Rect]
        ensures { result.now ≡ repaints self.now };

    /// Returns the control that has the focus, while a dialog is open.
    fn focus(&self) -> Option<Id>
        ensures { (s : Session) → Self.stands self.now s → result ≡ option_map (λ o. o.focus) s.state.dialog };
}
