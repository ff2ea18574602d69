//! When rules are applied.

ghost use Rattle.std.specs.Prelude.{◌≡◌, List, None, true};
ghost use Rattle.tv_model.specs.declared.desc.Dialog.{Dialog};
ghost use Rattle.tv_machine.specs.State.{LeafState};
ghost use Rattle.tv_machine.specs.Dialog.Lawful.{IsLawfulDialog};
ghost use Rattle.tv_machine.specs.Dialog.Modal.{Modal};
ghost use Rattle.tv_group.specs.Calls.{gathered_within};
ghost use Rattle.tv_group.specs.Opened.{opened};
ghost use Rattle.tv_dialog.specs.Resting.{Rests};
ghost use Rattle.tv_dialog.specs.Damage.{BodyDrawn};
ghost use Rattle.tv_dialog.specs.Standing.{Stands};

use crate::dialog::DialogOf;
use tv_group::GroupOf;
use tv_model::{OnHeap, Record};
use tv_view::{Rules, View};

// Puts the values of the fields into the record.
fn gather<V: View>(body: &GroupOf<V>, values: &mut OnHeap<Record>)
    ensures { values.new ≡ gathered_within (opened V.meaning body.now) values.old }
{
    body.gather(&mut values.value);
}

impl<V: View> DialogOf<V> {
    // Applies the rules to the marks as they are now.
    pub(crate) fn apply_rules(&mut self)
        ensures stands { (d : Dialog) (ruled : List LeafState) (m : Modal) → IsLawfulDialog d → m.ended ≡ None
            → Stands V.meaning d ruled m self.old → Stands V.meaning d m.leaves m self.new }
        ensures anew { (d : Dialog) (m : Modal) → IsLawfulDialog d → m.ended ≡ None → Rests V.meaning d m self.old
            → self.old.focus ≡ m.focus → self.old.log.items ≡ m.log → self.old.is_open ≡ true → self.old.ended ≡ None
            → Stands V.meaning d m.leaves m self.new }
        ensures is_open { self.new.is_open ≡ self.old.is_open }
        ensures pending { self.new.pending ≡ self.old.pending }
        ensures drawn { BodyDrawn V.meaning self.old self.new }
    {
        gather(&self.body, &mut self.marks);
        self.ruled.update(&self.plan, self.marks.get());
        let rules = Rules {
            shown: self.ruled.shown.as_slice(),
            commands: &self.ruled.commands,
        };
        self.body.apply(&rules, &mut self.damage);
    }

    // Applies the rules to the marks as they are now, unless there are none: what holds without rules was applied as it
    // opened.
    pub(crate) fn reapply_rules(&mut self)
        ensures stands { (d : Dialog) (ruled : List LeafState) (m : Modal) → IsLawfulDialog d → m.ended ≡ None
            → Stands V.meaning d ruled m self.old → Stands V.meaning d m.leaves m self.new }
        ensures pending { self.new.pending ≡ self.old.pending }
        ensures drawn { BodyDrawn V.meaning self.old self.new }
    {
        if self.plan.has_rules {
            self.apply_rules();
        }
    }
}
