//! The record with which each dialog opens next.

ghost use Rattle.std.specs.Prelude.{◌≡◌, option_copied, vec_capacity, [], is_some};
ghost use Rattle.tv_machine.specs.State.{State};
ghost use Rattle.tv_model.specs.declared.desc.Desc.{Desc};
ghost use Rattle.tv_dialogs.specs.Dialogs.{AreOfRun, AreDialogs, log_of_last};
ghost use Rattle.tv_dialogs.specs.Records.{current_of, next_record};
ghost use Rattle.tv_laws.specs.Runs.{with_saved};

use crate::dialogs::DialogsOf;
use tv_model::Record;
use tv_view::View;

impl<V: View> DialogsOf<V> {
    /// Returns the record with which the dialog at a place, counted from 0 in description order, opens next: that of its
    /// last end other than `cancel`, and before any such end the declared values of its fields.
    pub fn record(&self, place: usize) -> Option<&Record>
        ensures { (d : Desc) (s : State) → AreDialogs V.meaning d s self.now → option_copied result ≡ next_record d s place }
    {
        match self.at(Some(place)) {
            Some(kept) => Some(kept.values.get()),
            None => None,
        }
    }

    /// Puts the values that the fields of the open dialog have now into an empty record, in description order, and returns
    /// whether one is open.
    pub fn current(&self, values: &mut Record) -> bool
        requires empty { values.old ≡ [] }
        requires run { (d : Desc) × (s : State) × AreOfRun V.meaning d s self.now }
        ensures { (d : Desc) (s : State) → AreOfRun V.meaning d s self.now → (result ≡ is_some s.dialog) × (values.new ≡ current_of s.dialog) }
    {
        match self.at(self.open) {
            Some(kept) => {
                kept.dialog.record(values);
                true
            }
            None => false,
        }
    }

    /// Gives the dialog at a place the record with which it opens next, as if its last end had saved that. Does nothing
    /// where no dialog is at the place. A dialog that is open keeps what it shows.
    pub fn keep_record(&mut self, place: usize, values: Record)
        ensures dialogs { (d : Desc) (s : State) → AreDialogs V.meaning d s self.old
            → AreDialogs V.meaning d (with_saved place values s) self.new }
        ensures log { log_of_last self.new ≡ log_of_last self.old }
        ensures room { vec_capacity self.new.kept ≡ vec_capacity self.old.kept }
    {
        if let Some(kept) = self.kept.get_mut(place) {
            kept.values.set(values);
        }
    }
}
