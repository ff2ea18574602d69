//! Where the focus goes.

ghost use Rattle.std.specs.Prelude.{◌≡◌, ◌<◌, ◌==◌, length, false, true};
ghost use Rattle.std.specs.Option.{option_or};
ghost use Rattle.tv_model.specs.declared.desc.Dialog.{Dialog};
ghost use Rattle.tv_machine.specs.Dialog.Focus.{focus_moved, is_free_at, is_granted, request as asked, requested};
ghost use Rattle.tv_machine.specs.Dialog.Lawful.{IsLawfulDialog};
ghost use Rattle.tv_machine.specs.Dialog.Modal.{Modal};
ghost use Rattle.tv_group.specs.Calls.{first_in, next_in};
ghost use Rattle.tv_group.specs.Opened.{opened};
ghost use Rattle.tv_dialog.specs.Damage.{BodyDrawn};
ghost use Rattle.tv_dialog.specs.Standing.{Stands, stop_in};

use crate::dialog::DialogOf;
use crate::log::note;
use tv_group::Dir;
use tv_model::{Id, LogLine};
use tv_view::View;

impl<V: View> DialogOf<V> {
    // Moves the focus to another control, without asking the one that has it.
    pub(crate) fn move_focus(&mut self, id: Id)
        ensures stands { (d : Dialog) (m : Modal) → IsLawfulDialog d → length m.log < 66 → (id.0 == m.focus.0) ≡ false
            → is_free_at d m.leaves id ≡ true
            → Stands V.meaning d m.leaves m self.old → Stands V.meaning d (focus_moved d id m).leaves (focus_moved d id m) self.new }
        ensures is_open { self.new.is_open ≡ self.old.is_open }
        ensures pending { self.new.pending ≡ self.old.pending }
        ensures drawn { BodyDrawn V.meaning self.old self.new }
    {
        self.body.focus_to(id, &mut self.damage);
        self.focus = id;
        note(&mut self.log, LogLine::Focus(id));
    }

    // Asks for the focus for the control of the id. Returns whether that control has it then.
    pub(crate) fn request(&mut self, id: Id) -> bool
        ensures stands { (d : Dialog) (m : Modal) → IsLawfulDialog d → length m.log < 66
            → Stands V.meaning d m.leaves m self.old → Stands V.meaning d (asked d id m).leaves (asked d id m) self.new }
        ensures granted { (d : Dialog) (m : Modal) → IsLawfulDialog d → Stands V.meaning d m.leaves m self.old
            → result ≡ is_granted (requested d m id) }
        ensures pending { self.new.pending ≡ self.old.pending }
        ensures drawn { BodyDrawn V.meaning self.old self.new }
    {
        if id == self.focus {
            return true;
        }
        if !self.body.is_free(id) {
            return false;
        }
        self.request_free(id)
    }

    // Asks for the focus for a free control, which doesn't have it. Returns whether that control has it then.
    fn request_free(&mut self, id: Id) -> bool
        ensures stands { (d : Dialog) (m : Modal) → IsLawfulDialog d → length m.log < 66 → (id.0 == m.focus.0) ≡ false
            → is_free_at d m.leaves id ≡ true
            → Stands V.meaning d m.leaves m self.old → Stands V.meaning d (asked d id m).leaves (asked d id m) self.new }
        ensures granted { (d : Dialog) (m : Modal) → IsLawfulDialog d → (id.0 == m.focus.0) ≡ false → is_free_at d m.leaves id ≡ true
            → Stands V.meaning d m.leaves m self.old → result ≡ is_granted (requested d m id) }
        ensures pending { self.new.pending ≡ self.old.pending }
        ensures drawn { BodyDrawn V.meaning self.old self.new }
    {
        if self.body.refuses().is_some() {
            note(&mut self.log, LogLine::Invalid(self.focus));
            return false;
        }
        self.move_focus(id);
        true
    }

    // The next free control in a direction, from the edge on the first one.
    fn next_stop(&self, dir: Dir) -> Option<Id>
        ensures { result ≡ option_or (next_in dir (opened V.meaning self.now.body)) (first_in dir (opened V.meaning self.now.body)) }
    {
        match self.body.next(dir) {
            Some(id) => Some(id),
            None => self.body.first(dir),
        }
    }

    // Asks for the focus for the next free control in a direction.
    pub(crate) fn advance(&mut self, dir: Dir)
        ensures stands { (d : Dialog) (m : Modal) → IsLawfulDialog d → length m.log < 66
            → Stands V.meaning d m.leaves m self.old
            → Stands V.meaning d (asked d (stop_in d m dir) m).leaves (asked d (stop_in d m dir) m) self.new }
        ensures pending { self.new.pending ≡ self.old.pending }
        ensures drawn { BodyDrawn V.meaning self.old self.new }
    {
        if let Some(id) = self.next_stop(dir) {
            if id != self.focus {
                self.request_free(id);
            }
        }
    }
}
