//! Commands that the program gives, as if a user had chosen them.

ghost use Rattle.std.specs.Prelude.{◌≡◌};
ghost use Rattle.tv_laws.specs.Runs.{HasSoundDialogs, IsFitState};
ghost use Rattle.tv_machine.specs.Session.Step.{give_command, takes_command};
ghost use Rattle.tv_machine.specs.State.{State};
ghost use Rattle.tv_menu.specs.Lawful.{IsLawfulScreen};
ghost use Rattle.tv_menu.specs.Line.{IsStatusLineOf};
ghost use Rattle.tv_model.specs.declared.desc.Desc.{Desc as Declared};
ghost use Rattle.tv_session.specs.Running.{IsRun, IsRunSince};
ghost use Rattle.tv_session.specs.Showing.{AreShownAlike};

use crate::run::RunOf;
use tv_event::Command;
use tv_menu::StatusLine;
use tv_model::Desc;
use tv_view::View;

impl<V: View> RunOf<V> {
    // Whether a command that the program gives is taken.
    fn takes(&self, command: Command) -> bool
        ensures { (d : Declared) (s : State) → HasSoundDialogs d → IsRun V.meaning d s self.now → IsFitState d s
            → result ≡ takes_command d s command.0 }
    {
        !self.is_over
            && self.frame.is_none()
            && !self.dialogs.held()
            && self.dialogs.commands().has(command)
    }

    // Takes a command that the program gives, but for what bars show. Returns whether it was taken.
    fn give(&mut self, desc: &Desc, command: Command) -> bool
        requires sound { HasSoundDialogs desc.now }
        requires size { IsLawfulScreen desc.now.width desc.now.height }
        requires fit { (s : State) × IsRun V.meaning desc.now s self.old × IsFitState desc.now s }
        ensures taken { (s : State) → IsRun V.meaning desc.now s self.old → IsFitState desc.now s
            → result ≡ takes_command desc.now s command.0 }
        ensures stands { (s : State) → IsRun V.meaning desc.now s self.old → IsFitState desc.now s
            → IsRunSince V.meaning desc.now s (give_command desc.now s command.0) self.new }
    {
        let takes = self.takes(command);
        self.log.clear();
        self.damage.clear();
        if takes {
            self.bar.close();
            self.command(desc, command);
        }
        takes
    }

    /// Takes a command that the program gives, and returns whether it was taken: not after `quit`, not while the mouse holds
    /// something, and not while the command is disabled. Afterwards the damage has what the screen shows otherwise.
    pub(crate) fn give_command(&mut self, desc: &Desc, line: &StatusLine, command: Command) -> bool
        requires sound { HasSoundDialogs desc.now }
        requires size { IsLawfulScreen desc.now.width desc.now.height }
        requires fit { (s : State) × IsRun V.meaning desc.now s self.old × IsFitState desc.now s }
        ensures taken { (s : State) → IsRun V.meaning desc.now s self.old → IsFitState desc.now s
            → result ≡ takes_command desc.now s command.0 }
        ensures stands { (s : State) → IsRun V.meaning desc.now s self.old → IsFitState desc.now s → IsStatusLineOf desc.now line.now
            → IsRun V.meaning desc.now (give_command desc.now s command.0) self.new
            × AreShownAlike desc.now s (give_command desc.now s command.0) self.new.damage }
    {
        let before = self.before();
        let taken = self.give(desc, command);
        self.mark_changes(line, &before);
        taken
    }
}
