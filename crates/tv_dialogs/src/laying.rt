//! The sheet of the open dialog.

ghost use Rattle.std.specs.Prelude.{◌≡◌, None, Some, vec_capacity};
ghost use Rattle.tv_machine.specs.Session.Laid.{laid_in_dialog};
ghost use Rattle.tv_machine.specs.State.{OpenDialog, State};
ghost use Rattle.tv_model.specs.declared.desc.Desc.{Desc as Declared};
ghost use Rattle.tv_dialogs.specs.Damage.{Keeps, OpenAlike};
ghost use Rattle.tv_dialogs.specs.Dialogs.{AreDialogs, AreOfRun, log_of_last};

use crate::dialogs::DialogsOf;
use tv_cells::{Damage, Screen};
use tv_view::View;

impl<V: View> DialogsOf<V> {
    /// Lays a sheet in the open dialog, in the place of the one that lay there, or takes that away. Adds the dialog to the
    /// damage. Does nothing where none is open.
    pub fn lay(&mut self, sheet: Option<Screen>, damage: &mut Damage)
        ensures dialogs { (d : Declared) (s : State) (o : OpenDialog) → AreDialogs V.meaning d s self.old → s.dialog ≡ Some o
            → AreDialogs V.meaning d (laid_in_dialog o sheet s) self.new }
        ensures damage { (d : Declared) (s : State) (o : OpenDialog) → AreOfRun V.meaning d s self.old → s.dialog ≡ Some o
            → OpenAlike d damage.new s (laid_in_dialog o sheet s) }
        ensures unopened { (d : Declared) (s : State) → AreDialogs V.meaning d s self.old → s.dialog ≡ None
            → AreDialogs V.meaning d s self.new × (damage.new ≡ damage.old) }
        ensures log { log_of_last self.new ≡ log_of_last self.old }
        ensures kept { Keeps damage.old damage.new }
        ensures room { vec_capacity self.new.kept ≡ vec_capacity self.old.kept }
    {
        let Some(place) = self.open else {
            return;
        };
        if let Some(kept) = self.kept.get_mut(place) {
            kept.dialog.lay_sheet(sheet, damage);
        }
    }
}
