//! Events, by who takes them first.

ghost use Rattle.std.specs.Prelude.{◌≡◌, None, Some, true, false, is_some};
ghost use Rattle.tv_event.specs.declared.event.Event.TheVariants.{Down as DownEvent};
ghost use Rattle.tv_machine.specs.State.{State, OpenDialog};
ghost use Rattle.tv_machine.specs.Session.Desktop.{desktop_down, desktop_key, down_on_desktop, window_under};
ghost use Rattle.tv_machine.specs.Session.Step.{after_down, after_event, after_key, dialog_with_hold, down_on_dialog, status_item_of, step, step_held};
ghost use Rattle.tv_menu.specs.Bar.{bar_offer};
ghost use Rattle.tv_menu.specs.Lawful.{IsLawfulScreen};
ghost use Rattle.tv_menu.specs.Line.{IsStatusLineOf, line_down};
ghost use Rattle.tv_menu.specs.declared.offered.Offered.TheVariants.{Left as LeftOffer};
ghost use Rattle.tv_cells.specs.Layers.{is_in};
ghost use Rattle.tv_dialogs.specs.Handed.{HasPointGiven, IsPointGiven};
ghost use Rattle.tv_laws.specs.Runs.{HasSoundDialogs, IsFitState};
ghost use Rattle.tv_model.specs.Description.Rectangles.{desktop};
ghost use Rattle.tv_session.specs.Running.{IsAwake, IsAwakeSince, IsRun, IsRunSince};
ghost use Rattle.tv_session.specs.Showing.{AreShownAlike};

use crate::paint::desktop;
use crate::run::RunOf;
use tv_cells::Point;
use tv_event::{Command, CommandSet, Event, Key};
use tv_menu::{Offered, StatusLine};
use tv_model::Desc;
use tv_view::{View, contains};
use tv_window::Hit;

fn is_on_desktop(desc: &Desc, point: Point) -> bool
    requires { IsLawfulScreen desc.now.width desc.now.height }
    ensures { result ≡ is_in (desktop desc.now) point.x point.y }
{
    contains(desktop(desc), point)
}

impl<V: View> RunOf<V> {
    // Offers the menu bar a key or a mouse down while no dialog is open. Returns whether the bar took it.
    fn offer_bar(&mut self, desc: &Desc, event: &Event) -> bool
        requires awake { (s : State) × IsAwake V.meaning desc.now s self.old × (s.dialog ≡ None) }
        ensures takes { (since s after : State) → IsAwakeSince V.meaning desc.now since s self.old → s.dialog ≡ None
            → bar_offer desc.now event.now s ≡ Some after
            → (result ≡ true) × IsRunSince V.meaning desc.now since after self.new }
        ensures leaves { (s : State) → IsAwake V.meaning desc.now s self.old → s.dialog ≡ None → bar_offer desc.now event.now s ≡ None
            → (result ≡ false) × (self.new ≡ self.old) }
    {
        match self.bar.offer(event, &CommandSet::all()) {
            Offered::Left => false,
            Offered::Taken => true,
            Offered::Turned(command) => {
                self.command(desc, command);
                true
            }
        }
    }

    // Handles a key while neither a menu nor a dialog is open.
    fn desktop_key(&mut self, desc: &Desc, key: Key)
        requires awake { (s : State) × IsAwake V.meaning desc.now s self.old × (s.dialog ≡ None) }
        ensures { (since s : State) → IsAwakeSince V.meaning desc.now since s self.old → s.dialog ≡ None → s.menu ≡ None
            → IsRunSince V.meaning desc.now since (desktop_key desc.now key s) self.new }
    {
        if self.offer_bar(desc, &Event::Key(key)) {
            return;
        }
        if let Key::Alt(letter) = key {
            self.desk.raise_number(letter, &mut self.damage);
        }
    }

    // Handles a key that neither a menu nor the status line takes.
    fn key_below(&mut self, desc: &Desc, key: Key)
        requires awake { (s : State) × IsAwake V.meaning desc.now s self.old }
        ensures { (since s : State) → IsAwakeSince V.meaning desc.now since s self.old → s.menu ≡ None
            → status_item_of desc.now s key ≡ None
            → IsRunSince V.meaning desc.now since (after_key desc.now key s) self.new }
    {
        if self.dialogs.is_open() {
            self.hand_to_dialog(desc, &Event::Key(key));
        } else {
            self.desktop_key(desc, key);
        }
    }

    // Handles a key while no menu is open.
    fn key_at_status(&mut self, desc: &Desc, line: &StatusLine, key: Key)
        requires awake { (s : State) × IsAwake V.meaning desc.now s self.old × (dialog_with_hold s.dialog ≡ None) }
        ensures { (since s : State) → IsAwakeSince V.meaning desc.now since s self.old → s.menu ≡ None
            → dialog_with_hold s.dialog ≡ None → IsStatusLineOf desc.now line.now
            → IsRunSince V.meaning desc.now since (after_key desc.now key s) self.new }
    {
        match line.offer(&Event::Key(key), self.dialogs.commands()) {
            Offered::Turned(command) => self.command(desc, command),
            _ => self.key_below(desc, key),
        }
    }

    // Handles a key while nothing holds the mouse.
    fn key(&mut self, desc: &Desc, line: &StatusLine, key: Key)
        requires awake { (s : State) × IsAwake V.meaning desc.now s self.old × (dialog_with_hold s.dialog ≡ None) }
        ensures { (since s : State) → IsAwakeSince V.meaning desc.now since s self.old
            → dialog_with_hold s.dialog ≡ None → IsStatusLineOf desc.now line.now
            → IsRunSince V.meaning desc.now since (after_key desc.now key s) self.new }
    {
        if self.bar.is_open() {
            self.offer_bar(desc, &Event::Key(key));
        } else {
            self.key_at_status(desc, line, key);
        }
    }

    // Handles a mouse down on the topmost window there.
    fn window_down(&mut self, desc: &Desc, point: Point)
        requires near { IsPointGiven point }
        requires awake { (s : State) × IsAwake V.meaning desc.now s self.old × (s.dialog ≡ None) }
        ensures { (since s : State) → IsAwakeSince V.meaning desc.now since s self.old → s.dialog ≡ None → s.menu ≡ None
            → IsRunSince V.meaning desc.now since (down_on_desktop desc.now (window_under desc.now s point) point s) self.new }
    {
        match self.desk.down(point, &mut self.damage) {
            Hit::CloseMark => self.command(desc, Command::CLOSE),
            Hit::Grip(corner) => self.grab(corner, point),
            Hit::Done => {}
        }
    }

    // Handles a mouse down while neither a menu nor a dialog is open.
    fn desktop_down(&mut self, desc: &Desc, point: Point)
        requires near { IsPointGiven point }
        requires awake { (s : State) × IsAwake V.meaning desc.now s self.old × (s.dialog ≡ None) }
        ensures { (since s : State) → IsAwakeSince V.meaning desc.now since s self.old → s.dialog ≡ None → s.menu ≡ None
            → IsRunSince V.meaning desc.now since (desktop_down desc.now point s) self.new }
    {
        if self.offer_bar(desc, &Event::Down(point)) {
            return;
        }
        if is_on_desktop(desc, point) {
            self.window_down(desc, point);
        }
    }

    // Handles a mouse down on the desktop while a dialog is open: holds it by its top row, or hands it the down.
    fn dialog_down(&mut self, desc: &Desc, point: Point)
        requires near { IsPointGiven point }
        requires awake { (s : State) × IsAwake V.meaning desc.now s self.old × (dialog_with_hold s.dialog ≡ None) }
        ensures { (since s : State) (o : OpenDialog) → IsAwakeSince V.meaning desc.now since s self.old → s.dialog ≡ Some o
            → IsRunSince V.meaning desc.now since (down_on_dialog desc.now o point s) self.new }
    {
        match self.dialogs.grip(point) {
            Some(corner) => self.grab(corner, point),
            None => self.hand_to_dialog(desc, &Event::Down(point)),
        }
    }

    // Handles a mouse down above the status line.
    fn down_below(&mut self, desc: &Desc, point: Point)
        requires near { IsPointGiven point }
        requires awake { (s : State) × IsAwake V.meaning desc.now s self.old × (dialog_with_hold s.dialog ≡ None) }
        ensures { (since s : State) → IsAwakeSince V.meaning desc.now since s self.old → s.menu ≡ None
            → line_down desc.now s point ≡ LeftOffer
            → IsRunSince V.meaning desc.now since (after_down desc.now point s) self.new }
    {
        if self.dialogs.is_open() {
            if is_on_desktop(desc, point) {
                self.dialog_down(desc, point);
            }
        } else {
            self.desktop_down(desc, point);
        }
    }

    // Handles a mouse down while no menu is open.
    fn down_at_status(&mut self, desc: &Desc, line: &StatusLine, point: Point)
        requires near { IsPointGiven point }
        requires awake { (s : State) × IsAwake V.meaning desc.now s self.old × (dialog_with_hold s.dialog ≡ None) }
        ensures { (since s : State) → IsAwakeSince V.meaning desc.now since s self.old → s.menu ≡ None
            → dialog_with_hold s.dialog ≡ None → IsStatusLineOf desc.now line.now
            → IsRunSince V.meaning desc.now since (after_down desc.now point s) self.new }
    {
        match line.offer(&Event::Down(point), self.dialogs.commands()) {
            Offered::Turned(command) => self.command(desc, command),
            Offered::Taken => {}
            Offered::Left => self.down_below(desc, point),
        }
    }

    // Handles a mouse down while nothing holds the mouse.
    fn down(&mut self, desc: &Desc, line: &StatusLine, point: Point)
        requires near { IsPointGiven point }
        requires awake { (s : State) × IsAwake V.meaning desc.now s self.old × (dialog_with_hold s.dialog ≡ None) }
        ensures { (since s : State) → IsAwakeSince V.meaning desc.now since s self.old
            → dialog_with_hold s.dialog ≡ None → IsStatusLineOf desc.now line.now
            → IsRunSince V.meaning desc.now since (after_down desc.now point s) self.new }
    {
        if self.bar.is_open() {
            self.offer_bar(desc, &Event::Down(point));
        } else {
            self.down_at_status(desc, line, point);
        }
    }

    // Handles an event while nothing holds the mouse: moves and ups do nothing, nor do commands and broadcasts from
    // outside.
    fn free_event(&mut self, desc: &Desc, line: &StatusLine, event: &Event)
        requires near { HasPointGiven event.now }
        requires awake { (s : State) × IsAwake V.meaning desc.now s self.old × (dialog_with_hold s.dialog ≡ None) }
        ensures { (since s : State) → IsAwakeSince V.meaning desc.now since s self.old
            → dialog_with_hold s.dialog ≡ None → IsStatusLineOf desc.now line.now
            → IsRunSince V.meaning desc.now since (after_event desc.now event.now s) self.new }
    {
        match event {
            Event::Key(key) => self.key(desc, line, *key),
            Event::Down(point) => self.down(desc, line, *point),
            Event::Move(_) | Event::Up(_) | Event::Command(_) | Event::Broadcast(_) => {}
        }
    }

    // Handles an event while a leaf of the open dialog holds the mouse: hands it moves and ups, and ignores all else.
    fn held_event(&mut self, desc: &Desc, event: &Event)
        requires near { HasPointGiven event.now }
        requires awake { (s : State) × IsAwake V.meaning desc.now s self.old }
        ensures { (since s : State) (o : OpenDialog) → IsAwakeSince V.meaning desc.now since s self.old → dialog_with_hold s.dialog ≡ Some o
            → IsRunSince V.meaning desc.now since (step_held desc.now o event.now s) self.new }
    {
        match event {
            Event::Move(_) | Event::Up(_) => self.hand_to_dialog(desc, event),
            Event::Key(_) | Event::Down(_) | Event::Command(_) | Event::Broadcast(_) => {}
        }
    }

    // Handles one event, but for what bars show.
    fn handle(&mut self, desc: &Desc, line: &StatusLine, event: &Event)
        requires near { HasPointGiven event.now }
        requires sound { HasSoundDialogs desc.now }
        requires size { IsLawfulScreen desc.now.width desc.now.height }
        requires fit { (s : State) × IsRun V.meaning desc.now s self.old × IsFitState desc.now s }
        ensures { (s : State) → IsRun V.meaning desc.now s self.old → IsFitState desc.now s → IsStatusLineOf desc.now line.now
            → IsRunSince V.meaning desc.now s (step desc.now s event.now) self.new }
    {
        self.log.clear();
        self.damage.clear();
        if self.is_over {
            return;
        }
        if let Some(frame) = self.frame {
            self.drag(desc, frame, event);
        } else if self.dialogs.held() {
            self.held_event(desc, event);
        } else {
            self.free_event(desc, line, event);
        }
    }

    /// Handles one event. Afterwards the damage has what the screen shows otherwise.
    pub(crate) fn step(&mut self, desc: &Desc, line: &StatusLine, event: &Event)
        requires near { HasPointGiven event.now }
        requires sound { HasSoundDialogs desc.now }
        requires size { IsLawfulScreen desc.now.width desc.now.height }
        requires fit { (s : State) × IsRun V.meaning desc.now s self.old × IsFitState desc.now s }
        ensures { (s : State) → IsRun V.meaning desc.now s self.old → IsFitState desc.now s → IsStatusLineOf desc.now line.now
            → IsRun V.meaning desc.now (step desc.now s event.now) self.new
            × AreShownAlike desc.now s (step desc.now s event.now) self.new.damage }
    {
        let before = self.before();
        self.handle(desc, line, event);
        self.mark_changes(line, &before);
    }
}
