//! Events that are left to the program.

ghost use Rattle.std.specs.Prelude.{◌≡◌, None, is_some};
ghost use Rattle.tv_machine.specs.Session.Left.{is_alt_taken, is_down_taken, is_idle, is_key_taken, is_left, is_untaken};
ghost use Rattle.tv_machine.specs.Session.Step.{status_item_of};
ghost use Rattle.tv_machine.specs.State.{State};
ghost use Rattle.tv_menu.specs.Line.{IsStatusLineOf};
ghost use Rattle.tv_model.specs.declared.desc.Desc.{Desc};
ghost use Rattle.tv_session.specs.Leaving.{is_taken};
ghost use Rattle.tv_session.specs.Running.{IsRun};

use crate::run::RunOf;
use tv_cells::Point;
use tv_event::{Event, Key};
use tv_menu::{Offered, StatusLine};
use tv_view::View;

fn is_taken(offered: Offered) -> bool
    ensures { result ≡ is_taken offered }
{
    !matches!(offered, Offered::Left)
}

impl<V: View> RunOf<V> {
    // Whether nothing is open over the desktop, and nothing holds the mouse.
    fn is_idle(&self) -> bool
        ensures { (d : Desc) (s : State) → IsRun V.meaning d s self.now → result ≡ is_idle s }
    {
        !self.is_over
            && self.frame.is_none()
            && self.bar.opened().is_none()
            && !self.dialogs.is_open()
    }

    // Whether an enabled item of the status line has the key.
    fn is_line_key(&self, line: &StatusLine, key: Key) -> bool
        ensures { (d : Desc) (s : State) → IsRun V.meaning d s self.now → IsStatusLineOf d line.now → result ≡ is_some (status_item_of d s key) }
    {
        is_taken(line.offer(&Event::Key(key), self.dialogs.commands()))
    }

    // Whether Alt with a letter or digit opens a menu, or finds a window.
    fn is_alt_taken(&self, letter: char) -> bool
        ensures { (d : Desc) (s : State) → IsRun V.meaning d s self.now → s.menu ≡ None → result ≡ is_alt_taken d s letter }
    {
        self.bar.takes(&Event::Key(Key::Alt(letter))) || self.desk.takes_digit(letter)
    }

    fn takes_key(&self, line: &StatusLine, key: Key) -> bool
        ensures { (d : Desc) (s : State) → IsRun V.meaning d s self.now → s.menu ≡ None → IsStatusLineOf d line.now → result ≡ is_key_taken d s key }
    {
        match key {
            Key::Alt(letter) => self.is_line_key(line, key) || self.is_alt_taken(letter),
            _ => self.is_line_key(line, key),
        }
    }

    fn takes_down(&self, line: &StatusLine, point: Point) -> bool
        ensures { (d : Desc) (s : State) → IsRun V.meaning d s self.now → s.menu ≡ None → IsStatusLineOf d line.now → result ≡ is_down_taken d s point }
    {
        is_taken(line.offer(&Event::Down(point), self.dialogs.commands()))
            || self.bar.takes(&Event::Down(point))
            || self.desk.takes_down(point)
    }

    fn is_untaken(&self, line: &StatusLine, event: &Event) -> bool
        ensures { (d : Desc) (s : State) → IsRun V.meaning d s self.now → s.menu ≡ None → IsStatusLineOf d line.now
            → result ≡ is_untaken d s event.now }
    {
        match event {
            Event::Key(key) => !self.takes_key(line, *key),
            Event::Down(point) => !self.takes_down(line, *point),
            Event::Move(_) | Event::Up(_) => true,
            Event::Command(_) | Event::Broadcast(_) => false,
        }
    }

    /// Whether the event is the program's: nothing is open over the desktop, nothing holds the mouse, and nothing takes it.
    pub(crate) fn leaves(&self, line: &StatusLine, event: &Event) -> bool
        ensures { (d : Desc) (s : State) → IsRun V.meaning d s self.now → IsStatusLineOf d line.now → result ≡ is_left d s event.now }
    {
        self.is_idle() && self.is_untaken(line, event)
    }
}
