//! Commands, and how a dialog ends.

ghost use Rattle.std.specs.Prelude.{◌≡◌, ◌≤◌, ◌+◌, ◌++◌, length};
ghost use Rattle.tv_model.specs.declared.desc.Dialog.{Dialog};
ghost use Rattle.tv_model.specs.declared.log.LogLine.TheVariants as lines;
ghost use Rattle.tv_machine.specs.Dialog.Ending.{command as commanded, end_by, ended, first_invalid, shown_invalid};
ghost use Rattle.tv_machine.specs.Dialog.Lawful.{IsLawfulDialog};
ghost use Rattle.tv_machine.specs.Dialog.Modal.{Modal, with_line};
ghost use Rattle.tv_dialog.specs.Fields.{field_lines};
ghost use Rattle.tv_dialog.specs.Damage.{BodyDrawn};
ghost use Rattle.tv_dialog.specs.Standing.{Stands};

use crate::dialog::DialogOf;
use crate::log::{Log, note};
use crate::plan::LeafPlan;
use tv_event::Command;
use tv_model::{Id, LogLine, Record};
use tv_view::View;

// Logs the leaves that the record has a value for.
fn note_fields(log: &mut Log, leaves: &[LeafPlan], fields: &Record)
    ensures { length log.old.items + length leaves.now ≤ 66 → log.new.items ≡ log.old.items ++ field_lines fields.now leaves.now }
{
    for leaf in leaves {
        if let Some(value) = fields.value(leaf.id) {
            note(log, LogLine::Field(leaf.id, value.copy()));
        }
    }
}

impl<V: View> DialogOf<V> {
    // Logs the end and the fields, in description order. It isn't inlined, so that the record's room on the stack isn't its
    // callers' too.
    #[inline(never)]
    fn end(&mut self, command: Command)
        ensures stands { (d : Dialog) (m : Modal) → IsLawfulDialog d → length m.log ≤ 1
            → Stands V.meaning d m.leaves m self.old → Stands V.meaning d m.leaves (ended d command.0 m) self.new }
        ensures pending { self.new.pending ≡ self.old.pending }
        ensures drawn { BodyDrawn V.meaning self.old self.new }
    {
        let mut fields = Record::new();
        self.body.gather(&mut fields);
        note(&mut self.log, LogLine::End(self.head.id(), command));
        note_fields(&mut self.log, self.plan.leaves.as_slice(), &fields);
        self.ruled.enable_all();
        self.is_open = false;
        self.ended = Some(command);
    }

    // Moves the focus to an input that refuses the end, without asking the control that has it.
    fn show_invalid(&mut self, id: Id)
        ensures stands { (d : Dialog) (m : Modal) → IsLawfulDialog d → length m.log ≤ 1 → Stands V.meaning d m.leaves m self.old
            → Stands V.meaning d (shown_invalid d id (with_line (lines.Invalid id) m)).leaves
            (shown_invalid d id (with_line (lines.Invalid id) m)) self.new }
        ensures pending { self.new.pending ≡ self.old.pending }
        ensures drawn { BodyDrawn V.meaning self.old self.new }
    {
        note(&mut self.log, LogLine::Invalid(id));
        if id != self.focus && self.body.is_free(id) {
            self.move_focus(id);
        }
    }

    // Ends by a command, unless an input refuses it.
    fn try_end(&mut self, command: Command)
        ensures stands { (d : Dialog) (m : Modal) → IsLawfulDialog d → length m.log ≤ 1 → Stands V.meaning d m.leaves m self.old
            → Stands V.meaning d (end_by d command.0 (first_invalid d m) m).leaves (end_by d command.0 (first_invalid d m) m) self.new }
        ensures pending { self.new.pending ≡ self.old.pending }
        ensures drawn { BodyDrawn V.meaning self.old self.new }
    {
        match self.body.first_invalid() {
            Some(id) => self.show_invalid(id),
            None => self.end(command),
        }
    }

    // Handles a command that the views passed on.
    pub(crate) fn command(&mut self, command: Command)
        ensures stands { (d : Dialog) (m : Modal) → IsLawfulDialog d → length m.log ≤ 1
            → Stands V.meaning d m.leaves m self.old
            → Stands V.meaning d (commanded d command.0 m).leaves (commanded d command.0 m) self.new }
        ensures pending { self.new.pending ≡ self.old.pending }
        ensures drawn { BodyDrawn V.meaning self.old self.new }
    {
        if command == Command::CLOSE || command == Command::CANCEL {
            self.end(Command::CANCEL);
        } else if self.head.declares(command) {
            self.try_end(command);
        } else if command.0 >= Command::FIRST_OWN.0 {
            note(&mut self.log, LogLine::Command(command.0));
        }
    }
}
