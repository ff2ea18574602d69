//! The records of an application's dialogs, by name.

ghost use Rattle.std.specs.Prelude.{◌≡◌, IfErr, IfOk, option_copied};
ghost use Rattle.tv_app.specs.Names.{field_id, found_item, found_marks, found_text, record_named, value_named};
ghost use Rattle.tv_app.specs.Running.{Runs};
ghost use Rattle.tv_app.specs.Setting.{IsSetFrom, RefusesRecord};
ghost use Rattle.tv_machine.specs.Run.{Session};

use crate::app::App;
use crate::names::{dialog_place, field_id};
use crate::setting::{SetFault, take_named};
use std::alloc::Global;
use tv_model::{Id, Record, Value};
use tv_valid::Text;

impl App {
    /// Returns the record with which the first dialog of the name opens next: that of its last end other than `cancel`, and
    /// before any such end the declared values of its fields. There is none where no dialog has the name.
    pub fn record(&self, dialog: &str) -> Option<&Record>
        ensures { (s : Session) → Runs self.now s → option_copied result ≡ record_named s dialog.now }
    {
        match dialog_place(self.desc(), dialog) {
            Some(place) => self.session.record(place),
            None => None,
        }
    }

    /// Returns the id of the first view of the name in the first dialog of the other, under which a record has the value of
    /// that field. There is none where no dialog has the one name, or no view of it the other.
    pub fn field(&self, dialog: &str, field: &str) -> Option<Id>
        ensures { (s : Session) → Runs self.now s → result ≡ field_id s.desc dialog.now field.now }
    {
        field_id(self.desc(), dialog, field)
    }

    /// Returns the value that the field has in the record of the dialog, both by name. There is none where no dialog has
    /// the one name, no view of it the other, or the view is no field.
    pub fn value(&self, dialog: &str, field: &str) -> Option<&Value>
        ensures { (s : Session) → Runs self.now s → option_copied result ≡ value_named s dialog.now field.now }
    {
        match (self.record(dialog), self.field(dialog, field)) {
            (Some(record), Some(id)) => record.value(id),
            _ => None,
        }
    }

    /// Returns the text of an input in the record of its dialog. There is none where `value` has none, or no text.
    pub fn text(&self, dialog: &str, field: &str) -> Option<&Text>
        ensures { (s : Session) → Runs self.now s → option_copied result ≡ found_text (value_named s dialog.now field.now) }
    {
        match self.value(dialog, field) {
            Some(Value::Text(text)) => Some(text),
            _ => None,
        }
    }

    /// Returns the marked items of check boxes in the record of their dialog: bit 0 is the first. There are none where
    /// `value` has none, or no marks.
    pub fn marks(&self, dialog: &str, field: &str) -> Option<u16>
        ensures { (s : Session) → Runs self.now s → result ≡ found_marks (value_named s dialog.now field.now) }
    {
        match self.value(dialog, field) {
            Some(Value::Marks(marks)) => Some(*marks),
            _ => None,
        }
    }

    /// Returns the marked item of radio buttons, or the chosen one of a list, counted from 1, in the record of their dialog.
    /// There is none where `value` has none, or no item.
    pub fn item(&self, dialog: &str, field: &str) -> Option<u8>
        ensures { (s : Session) → Runs self.now s → result ≡ found_item (value_named s dialog.now field.now) }
    {
        match self.value(dialog, field) {
            Some(Value::Item(item)) => Some(*item),
            _ => None,
        }
    }

    /// Gives the first dialog of the name the record with which it opens next, as if its last end had saved that. Each
    /// field has a value, in whatever order: a text of its domain, or items that are there. A dialog that is open keeps
    /// what it shows.
    ///
    /// # Errors
    ///
    /// `NoDialog` where no dialog has the name, `Unfit` where the record doesn't fit it; `NoMemory`. Nothing has changed
    /// then, and the record is handed back.
    pub fn set(&mut self, alloc: Global, dialog: &str, values: Record) -> Result<(), SetFault>
        requires there { (s : Session) × Runs self.old s }
        ensures kept { IfOk result (λ _. (s : Session) → Runs self.old s → IsSetFrom s dialog.now values self.new) }
        ensures refused { IfErr result (λ fault. (s : Session) → Runs self.old s → RefusesRecord s.desc dialog.now values fault.reason) }
        ensures back { IfErr result (λ fault. fault.values ≡ values) }
        ensures stays { IfErr result (λ _. self.new ≡ self.old) }
        ensures repainted { self.new.session.repainted ≡ self.old.session.repainted }
    {
        match take_named(alloc, self.desc(), dialog, &values) {
            Ok(taken) => {
                self.session.keep_record(taken.place, taken.values);
                Ok(())
            }
            Err(reason) => Err(SetFault { reason, values }),
        }
    }
}
