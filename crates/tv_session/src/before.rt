//! What bars showed, and whether a dialog was open, before an event.

ghost use Rattle.tv_menu.specs.Line.{IsStatusLineOf};
ghost use Rattle.tv_machine.specs.State.{State};
ghost use Rattle.tv_model.specs.declared.desc.Desc.{Desc};
ghost use Rattle.tv_session.specs.Running.{IsRun, IsRunSince};
ghost use Rattle.tv_session.specs.Showing.{AreShownAlike, IsNoteOf};

use crate::run::RunOf;
use tv_event::CommandSet;
use tv_menu::{Place, StatusLine};
use tv_view::View;

/// What of an event no call tells: which menu was open before it, whether a dialog was, and which commands were enabled.
#[derive(Drop)]
pub(crate) struct Before {
    menu: Option<Place>,
    is_open: bool,
    commands: CommandSet,
}

impl<V: View> RunOf<V> {
    /// Returns what is compared after an event.
    pub(crate) fn before(&self) -> Before
        ensures { (d : Desc) (s : State) → IsRun V.meaning d s self.now → IsNoteOf d s result }
    {
        Before {
            menu: self.bar.opened(),
            is_open: self.dialogs.is_open(),
            commands: self.dialogs.commands().copy(),
        }
    }

    /// Adds what bars show otherwise than before an event, and the front window if it has become active or passive.
    pub(crate) fn mark_changes(&mut self, line: &StatusLine, before: &Before)
        ensures { (d : Desc) (s t : State) → IsNoteOf d s before.now → IsStatusLineOf d line.now → IsRunSince V.meaning d s t self.old
            → IsRun V.meaning d t self.new × AreShownAlike d s t self.new.damage }
    {
        self.bar.damage_since(before.menu, &mut self.damage);
        line.damage_between(&before.commands, self.dialogs.commands(), &mut self.damage);
        if self.dialogs.is_open() != before.is_open {
            self.desk.front_damage(&mut self.damage);
        }
    }
}
