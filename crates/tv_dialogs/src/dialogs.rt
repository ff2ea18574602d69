//! The dialogs of a run.

ghost use Rattle.std.specs.Prelude.{◌≤◌, length, ◌≡◌, ◌<◌, ◌+◌, ◌++◌, [], ℕ, Some, false, is_some, option_copied, option_map, slice_index_or, vec_capacity};
ghost use Rattle.tv_machine.specs.Session.Enabled.{is_enabled_now};
ghost use Rattle.tv_machine.specs.Session.Step.{dialog_with_hold};
ghost use Rattle.tv_machine.specs.State.{State};
ghost use Rattle.tv_model.specs.declared.desc.Desc.{Desc};
ghost use Rattle.tv_dialogs.specs.Dialogs.{AreDialogs, AreOfRun, kept_at, lines_by, log_of_last};

use crate::colours::Colours;
use crate::kept::Kept;
use tv_dialog::LogLines;
use tv_event::CommandSet;
use tv_model::Id;
use tv_view::View;

/// The dialogs of a description, of which one may be open.
///
/// Each opens with the values of its last end other than `cancel`, and before any such end with those declared. It is
/// generic in its views, as a dialog is; the toolkit's own has boxed ones.
#[derive(Drop)]
pub struct DialogsOf<V> {
    /// In description order.
    pub(crate) kept: Vec<Kept<V>>,
    /// The place of the open one.
    pub(crate) open: Option<usize>,
    /// Whether a view of the open one holds the mouse. To ask them costs a call of each.
    pub(crate) is_held: bool,
    /// The place of the one that worked last.
    pub(crate) last: Option<usize>,
    /// All commands, which are lent while no dialog is open.
    pub(crate) commands: CommandSet,
    /// The palettes that the open one is lent.
    pub(crate) colours: Colours,
}

/// Dialogs whose views are boxed.
pub type Dialogs = DialogsOf<Box<dyn View>>;

impl<V> DialogsOf<V> {
    /// Returns the one at a place, if a place is given.
    pub(crate) fn at(&self, place: Option<usize>) -> Option<&Kept<V>>
        ensures { option_copied result ≡ kept_at self.now place }
    {
        match place {
            Some(place) => self.kept.get(place),
            None => None,
        }
    }
}

impl<V: View> DialogsOf<V> {
    /// Moves the lines of the dialog that worked last, those of its last event or of its opening, behind those of a log
    /// with room for as many as a dialog logs.
    pub fn move_log<const ROOM: usize>(&mut self, log: &mut LogLines<ROOM>)
        requires { length log.old.items + 66 ≤ ROOM }
        ensures lines { log.new.items ≡ log.old.items ++ log_of_last self.old }
        ensures taken { log_of_last self.new ≡ [] }
        ensures dialogs { (d : Desc) (s : State) → AreDialogs V.meaning d s self.old → AreDialogs V.meaning d s self.new }
        ensures room { vec_capacity self.new.kept ≡ vec_capacity self.old.kept }
    {
        if let Some(place) = self.last {
            self.move_log_at(place, log);
        }
    }

    // Moves the lines of the dialog at a place, if one is there.
    fn move_log_at<const ROOM: usize>(&mut self, place: usize, log: &mut LogLines<ROOM>)
        requires { length log.old.items + 66 ≤ ROOM }
        ensures lines { log.new.items ≡ log.old.items ++ lines_by (kept_at self.old (Some place)) }
        ensures taken { lines_by (kept_at self.new (Some place)) ≡ [] }
        ensures last { self.new.last ≡ self.old.last }
        ensures dialogs { (d : Desc) (s : State) → AreDialogs V.meaning d s self.old → AreDialogs V.meaning d s self.new }
        ensures room { vec_capacity self.new.kept ≡ vec_capacity self.old.kept }
    {
        if let Some(kept) = self.kept.get_mut(place) {
            kept.dialog.move_log(log);
        }
    }

    /// Whether a dialog is open.
    pub fn is_open(&self) -> bool
        ensures { (d : Desc) (s : State) → AreDialogs V.meaning d s self.now → result ≡ is_some s.dialog }
    {
        self.open.is_some()
    }

    /// Returns the control of the open dialog that has the focus.
    pub fn focus(&self) -> Option<Id>
        ensures { (d : Desc) (s : State) → AreDialogs V.meaning d s self.now → result ≡ option_map (λ o. o.focus) s.dialog }
    {
        match self.at(self.open) {
            Some(kept) => Some(kept.dialog.focus()),
            None => None,
        }
    }

    /// Whether a view of the open dialog holds the mouse.
    pub fn held(&self) -> bool
        ensures { (d : Desc) (s : State) → AreOfRun V.meaning d s self.now → result ≡ is_some (dialog_with_hold s.dialog) }
    {
        self.is_held
    }

    /// Returns the commands that the open dialog enables, which are all of them while none is open.
    pub fn commands(&self) -> &CommandSet
        ensures { (d : Desc) (s : State) → AreDialogs V.meaning d s self.now
            → (number : ℕ) → number < 256 → slice_index_or result.now number false ≡ is_enabled_now d s number }
    {
        match self.at(self.open) {
            Some(kept) => kept.dialog.commands(),
            None => &self.commands,
        }
    }
}
