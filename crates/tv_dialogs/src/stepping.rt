//! What the open dialog makes of an event.

ghost use Rattle.std.specs.Prelude.{◌≡◌, ◌++◌, [], None, Some, vec_capacity};
ghost use Rattle.tv_laws.specs.Steps.{RespectsHold};
ghost use Rattle.tv_machine.specs.Session.Step.{to_dialog};
ghost use Rattle.tv_machine.specs.State.{OpenDialog, State};
ghost use Rattle.tv_dialogs.specs.Damage.{Keeps, OpenAlike};
ghost use Rattle.tv_dialogs.specs.Dialogs.{AreDialogs, AreOfRun, log_of_last};
ghost use Rattle.tv_dialogs.specs.Handed.{HasPointGiven};

use crate::dialogs::DialogsOf;
use crate::handed::is_dropped;
use tv_cells::Damage;
use tv_event::Event;
use tv_model::Desc;
use tv_view::View;

impl<V: View> DialogsOf<V> {
    /// Hands the open dialog an event, whose point is in screen coordinates. Does nothing where none is open. No
    /// command may come while a view holds the mouse. Adds to the damage what shows otherwise then.
    pub fn step(&mut self, desc: &Desc, event: &Event, damage: &mut Damage)
        requires run { (s : State) × AreOfRun V.meaning desc.now s self.old }
        requires given { HasPointGiven event.now }
        ensures dialogs { (s : State) (o : OpenDialog) → s.dialog ≡ Some o → RespectsHold o.held event.now
            → AreOfRun V.meaning desc.now s self.old
            → AreDialogs V.meaning desc.now (to_dialog desc.now o event.now s) self.new }
        ensures log { (s : State) (o : OpenDialog) → s.dialog ≡ Some o → AreOfRun V.meaning desc.now s self.old
            → (to_dialog desc.now o event.now s).log ≡ s.log ++ log_of_last self.new }
        ensures damage { (s : State) (o : OpenDialog) → s.dialog ≡ Some o → RespectsHold o.held event.now
            → AreOfRun V.meaning desc.now s self.old
            → OpenAlike desc.now damage.new s (to_dialog desc.now o event.now s) }
        ensures unopened { (s : State) → s.dialog ≡ None → AreOfRun V.meaning desc.now s self.old
            → AreDialogs V.meaning desc.now s self.new × (log_of_last self.new ≡ []) × (damage.new ≡ damage.old) }
        ensures kept { Keeps damage.old damage.new }
        ensures room { vec_capacity self.new.kept ≡ vec_capacity self.old.kept }
    {
        self.last = None;
        if is_dropped(event) {
            return;
        }
        if let Some(place) = self.open {
            let kept = &mut self.kept[place];
            kept.step(
                &desc.dialogs.as_slice()[place],
                self.is_held,
                event,
                &self.commands,
                &self.colours,
                damage,
            );
            self.open = kept.dialog.is_open().then_some(place);
            self.is_held = kept.held_after(self.is_held, event);
            self.last = Some(place);
        }
    }
}
