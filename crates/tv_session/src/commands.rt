//! Commands, by whether a dialog is open.

ghost use Rattle.std.specs.Prelude.{◌≡◌, ◌<◌, None, Some, true, option_copied, pos, reverse, length, slice_get};
ghost use Rattle.tv_machine.specs.State.{State, OpenDialog};
ghost use Rattle.tv_machine.specs.Session.Commands.{close_front, do_command, idle_command, last_first, open_dialog, open_first, opener_of, own_command, with_line_logged};
ghost use Rattle.tv_machine.specs.Session.Step.{dialog_with_hold, to_dialog};
ghost use Rattle.tv_model.specs.declared.desc.Desc.{Desc as Declared};
ghost use Rattle.tv_model.specs.declared.log.LogLine.TheVariants.{Quit as QuitLine};
ghost use Rattle.tv_dialogs.specs.Handed.{HasPointGiven};
ghost use Rattle.tv_laws.specs.Steps.{RespectsHold};
ghost use Rattle.tv_model.specs.Description.Heads.{dialog_head};
ghost use Rattle.tv_model.specs.Faults.Starts.{is_option_number};
ghost use Rattle.tv_session.specs.Running.{IsAwake, IsAwakeSince, IsRunSince};

use crate::log::note;
use crate::run::RunOf;
use tv_event::{Command, Event};
use tv_model::{Desc, Dialog, LogLine};
use tv_view::View;

fn is_opened_by(dialog: &Dialog, number: u8) -> bool
    ensures { result ≡ is_option_number (pos number) (dialog_head dialog.now).opens }
{
    dialog.head().opens == Some(i32::from(number))
}

// The dialog that a command opens, by its place.
fn opener_of(desc: &Desc, number: u8) -> Option<usize>
    ensures { result ≡ opener_of desc.now number }
{
    desc.dialogs
        .as_slice()
        .iter()
        .position(|dialog| is_opened_by(dialog, number))
}

fn dialog_at(desc: &Desc, place: usize) -> Option<&Dialog>
    ensures { option_copied result ≡ slice_get desc.now.dialogs place }
{
    desc.dialogs.as_slice().get(place)
}

impl<V: View> RunOf<V> {
    fn quit(&mut self)
        ensures { (d : Declared) (since s : State) → IsAwakeSince V.meaning d since s self.old
            → IsRunSince V.meaning d since (with_line_logged QuitLine (record s { is_over = true })) self.new }
    {
        self.is_over = true;
        note(&mut self.log, LogLine::Quit);
    }

    // Opens the first menu, if there is one.
    fn open_menu(&mut self)
        ensures { (d : Declared) (since s : State) → IsAwakeSince V.meaning d since s self.old → s.menu ≡ None
            → IsRunSince V.meaning d since (open_first d.menus s) self.new }
    {
        self.bar.open_first();
    }

    // Closes the front window, if there is one.
    fn close_window(&mut self)
        ensures { (d : Declared) (since s : State) → IsAwakeSince V.meaning d since s self.old
            → IsRunSince V.meaning d since (close_front s.windows s) self.new }
    {
        if let Some(id) = self.desk.close_front(&mut self.damage) {
            note(&mut self.log, LogLine::Close(id));
        }
    }

    // Brings the rearmost window to the front.
    fn next_window(&mut self)
        ensures { (d : Declared) (since s : State) → IsAwakeSince V.meaning d since s self.old
            → IsRunSince V.meaning d since (record s { windows = last_first (reverse s.windows) }) self.new }
    {
        self.desk.next(&mut self.damage);
    }

    /// Opens the dialog at a place.
    pub(crate) fn open_dialog(&mut self, desc: &Desc, place: usize)
        requires there { place < length desc.now.dialogs }
        requires awake { (s : State) × IsAwake V.meaning desc.now s self.old × (s.dialog ≡ None) }
        ensures { (since s : State) → IsAwakeSince V.meaning desc.now since s self.old → s.dialog ≡ None
            → IsRunSince V.meaning desc.now since (open_dialog desc.now place s) self.new }
    {
        let Some(dialog) = dialog_at(desc, place) else {
            return;
        };
        note(&mut self.log, LogLine::Open(dialog.node.id));
        self.dialogs.open(desc, place, &mut self.damage);
        self.dialogs.move_log(&mut self.log);
    }

    // Handles a command of the description's own: opens its dialog, or logs the command.
    fn own_command(&mut self, desc: &Desc, number: u8)
        requires awake { (s : State) × IsAwake V.meaning desc.now s self.old × (s.dialog ≡ None) }
        ensures { (since s : State) → IsAwakeSince V.meaning desc.now since s self.old → s.dialog ≡ None
            → IsRunSince V.meaning desc.now since (own_command desc.now number (opener_of desc.now number) s) self.new }
    {
        match opener_of(desc, number) {
            Some(place) => self.open_dialog(desc, place),
            None => {
                if number >= 100 {
                    note(&mut self.log, LogLine::Command(number));
                }
            }
        }
    }

    // Handles a command while neither a dialog nor a menu is open.
    fn idle_command(&mut self, desc: &Desc, command: Command)
        requires awake { (s : State) × IsAwake V.meaning desc.now s self.old × (s.dialog ≡ None) }
        ensures { (since s : State) → IsAwakeSince V.meaning desc.now since s self.old → s.dialog ≡ None → s.menu ≡ None
            → IsRunSince V.meaning desc.now since (idle_command desc.now command.0 s) self.new }
    {
        match command {
            Command::QUIT => self.quit(),
            Command::MENU => self.open_menu(),
            Command::CLOSE => self.close_window(),
            Command::NEXT => self.next_window(),
            Command(number) => self.own_command(desc, number),
        }
    }

    /// Hands the open dialog an event, whose point is in screen coordinates.
    pub(crate) fn hand_to_dialog(&mut self, desc: &Desc, event: &Event)
        requires near { HasPointGiven event.now }
        requires awake { (s : State) × IsAwake V.meaning desc.now s self.old }
        ensures { (since s : State) (o : OpenDialog) → IsAwakeSince V.meaning desc.now since s self.old
            → s.dialog ≡ Some o → RespectsHold o.held event.now
            → IsRunSince V.meaning desc.now since (to_dialog desc.now o event.now s) self.new }
    {
        self.dialogs.step(desc, event, &mut self.damage);
        self.dialogs.move_log(&mut self.log);
    }

    /// Handles a command while no menu is open and nothing holds the mouse.
    pub(crate) fn command(&mut self, desc: &Desc, command: Command)
        requires awake { (s : State) × IsAwake V.meaning desc.now s self.old × (dialog_with_hold s.dialog ≡ None) }
        ensures { (since s : State) → IsAwakeSince V.meaning desc.now since s self.old → s.menu ≡ None → dialog_with_hold s.dialog ≡ None
            → IsRunSince V.meaning desc.now since (do_command desc.now command.0 s) self.new }
    {
        if self.dialogs.is_open() {
            self.hand_to_dialog(desc, &Event::Command(command));
        } else {
            self.idle_command(desc, command);
        }
    }
}
