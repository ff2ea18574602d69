//! How a dialog opens.

ghost use Rattle.std.specs.Prelude.{◌≡◌, [], true, Some};
ghost use Rattle.tv_model.specs.declared.desc.Dialog.{Dialog};
ghost use Rattle.tv_machine.specs.Dialog.Lawful.{IsLawfulDialog};
ghost use Rattle.tv_machine.specs.Dialog.Modal.{Modal};
ghost use Rattle.tv_machine.specs.Dialog.Opening.{opened_dialog as opens};
ghost use Rattle.tv_group.specs.Calls.{FitsAll};
ghost use Rattle.tv_group.specs.Opened.{opened};
ghost use Rattle.tv_cells.specs.Damage.{Grows, HasAll};
ghost use Rattle.tv_dialog.specs.Fields.{in_field_order};
ghost use Rattle.tv_dialog.specs.Bounds.{dialog_bounds};
ghost use Rattle.tv_dialog.specs.Resting.{Rests};
ghost use Rattle.tv_dialog.specs.Standing.{Stands};

use crate::dialog::DialogOf;
use tv_cells::Damage;
use tv_group::Dir;
use tv_model::Record;
use tv_view::View;

impl<V: View> DialogOf<V> {
    /// Opens it where it stands, with the values that the record has for its fields, in whatever order, and the focus on
    /// the first free control. Inputs in which typing overwrites stay so. Adds the dialog's rectangle to the damage.
    pub fn reopen(&mut self, values: &Record, damage: &mut Damage)
        requires { FitsAll values.now (opened V.meaning self.old.body) }
        ensures stands { (d : Dialog) (m : Modal) → IsLawfulDialog d → Rests V.meaning d m self.old
            → Stands V.meaning d (opens d (Some (in_field_order d values.now)) m.overwriting).leaves
            (opens d (Some (in_field_order d values.now)) m.overwriting) self.new }
        ensures is_open { self.new.is_open ≡ true }
        ensures pending { self.new.pending ≡ [] }
        ensures corner { self.new.corner ≡ self.old.corner }
        ensures sheet { self.new.sheet ≡ self.old.sheet }
        ensures added { HasAll (dialog_bounds self.old) damage.new }
        ensures grown { Grows (dialog_bounds self.old) damage.old damage.new }
    {
        damage.add(self.bounds());
        self.log.clear();
        self.pending.clear();
        self.body.set(values, &mut self.damage);
        self.is_open = true;
        self.ended = None;
        self.focus = self.head.id();
        self.apply_rules();
        if let Some(id) = self.body.first(Dir::Forward) {
            self.move_focus(id);
        }
    }
}
