//! A run of a checked description through its views.

ghost use Rattle.std.specs.Prelude.{◌≡◌, [], IfSome, is_some, option_copied, option_map};
ghost use Rattle.std.specs.Borrow.{sem};
ghost use Rattle.std.specs.Io.BufRead.{Rests};
ghost use Rattle.tv_cells.specs.Damage.{Holds};
ghost use Rattle.tv_cells.specs.Rectangle.{IsRectNear};
ghost use Rattle.tv_cells.specs.Repainting.{KeepsRest};
ghost use Rattle.tv_machine.specs.Screen.Bodies.{whole_screen};
ghost use Rattle.tv_machine.specs.Run.{Session as Standing, commanded, quiet, stepped, with_sheet};
ghost use Rattle.tv_machine.specs.Safe.{IsSafeSaved};
ghost use Rattle.tv_machine.specs.Session.Left.{is_left};
ghost use Rattle.tv_machine.specs.Session.Step.{takes_command};
ghost use Rattle.tv_script.specs.Performed.{IsScreenOf};
ghost use Rattle.tv_dialogs.specs.Handed.{HasPointGiven};
ghost use Rattle.tv_dialogs.specs.Records.{current_of, next_record};
ghost use Rattle.tv_session.specs.Session.{IsQuieted, StandsFor, bounds_of, front_of, handed_in, open_id_of};

use crate::log::Log;
use crate::paint::{replace_damage, whole_screen};
use crate::run::RunOf;
use std::mem::swap;
use tv_cells::{Damage, Rect, Screen};
use tv_check::Checked;
use tv_event::{Command, Event};
use tv_menu::StatusLine;
use tv_model::{Desc, Id, LogLine, Record};
use tv_script::Stage;
use tv_view::View;

/// A run of a checked description through views that were made for it, and its screen.
///
/// It is generic in its views, as windows and dialogs are; the toolkit's own has boxed ones. It stands for a run of the
/// flat machine, from `new` on.
#[derive(Drop)]
pub struct SessionOf<V> {
    pub(crate) checked: Checked,
    pub(crate) line: StatusLine,
    pub(crate) run: RunOf<V>,
    pub(crate) screen: Screen,
    /// The lines that were taken last, which `take_log` lends.
    pub(crate) taken: Log,
    /// What of the screen the last event had painted again.
    pub(crate) repainted: Damage,
}

/// A session whose views are boxed.
pub type Session = SessionOf<Box<dyn View>>;

impl<V: View> SessionOf<V> {
    ghost use Rattle.tv_session.specs.contracts.session.SessionOf.{the_row};

    /// Handles one event. Its point is in screen coordinates, at most 10,000 from the origin. Afterwards the log holds
    /// this event's lines only, and the screen shows what the event left. It is painted again where that may be something
    /// else, and nowhere else.
    pub fn step(&mut self, event: &Event)
        requires near { HasPointGiven event.now }
        requires there { (s : Standing) × StandsFor V.meaning self.old s }
        ensures stands { (s : Standing) → StandsFor V.meaning self.old s → StandsFor V.meaning self.new (stepped s event.now) }
        ensures rest { KeepsRest self.new.repainted self.old.screen self.new.screen }
        ensures within { (s : Standing) → StandsFor V.meaning self.old s → Holds (whole_screen s.desc) self.new.repainted }
    {
        let desc = self.checked.desc();
        self.run.step(desc, &self.line, event);
        replace_damage(&mut self.repainted, &self.run.damage, whole_screen(desc));
        self.run
            .repaint(&mut self.screen, desc, &self.line, &self.repainted);
    }

    /// Takes a command as if a user had chosen it, and returns whether it was taken: after `quit` it isn't, nor while the
    /// mouse holds something, nor while the open dialog has it disabled. An open menu closes first. Afterwards the log holds
    /// the command's lines only, and the screen is painted again as after an event.
    pub fn command(&mut self, command: Command) -> bool
        requires { (s : Standing) × StandsFor V.meaning self.old s }
        ensures taken { (s : Standing) → StandsFor V.meaning self.old s → result ≡ takes_command s.desc s.state command.0 }
        ensures stands { (s : Standing) → StandsFor V.meaning self.old s → StandsFor V.meaning self.new (commanded s command) }
        ensures rest { KeepsRest self.new.repainted self.old.screen self.new.screen }
        ensures within { (s : Standing) → StandsFor V.meaning self.old s → Holds (whole_screen s.desc) self.new.repainted }
    {
        let desc = self.checked.desc();
        let taken = self.run.give_command(desc, &self.line, command);
        replace_damage(&mut self.repainted, &self.run.damage, whole_screen(desc));
        self.run
            .repaint(&mut self.screen, desc, &self.line, &self.repainted);
        taken
    }

    /// Lays a sheet in the open window or dialog of an id, in the place of the one that lay there, or takes that away. It shows
    /// in the interior, where it has cells that are painted, and goes with what it lies in. Nothing is done where nothing of
    /// the id is open. The log stays, and the screen is painted again as after an event.
    pub fn lay(&mut self, id: Id, sheet: Option<Screen>)
        requires { (s : Standing) × StandsFor V.meaning self.old s }
        ensures stands { (s : Standing) → StandsFor V.meaning self.old s → StandsFor V.meaning self.new (with_sheet s id sheet) }
        ensures rest { KeepsRest self.new.repainted self.old.screen self.new.screen }
        ensures within { (s : Standing) → StandsFor V.meaning self.old s → Holds (whole_screen s.desc) self.new.repainted }
    {
        let desc = self.checked.desc();
        self.run.lay(desc, &self.line, id, sheet);
        replace_damage(&mut self.repainted, &self.run.damage, whole_screen(desc));
        self.run
            .repaint(&mut self.screen, desc, &self.line, &self.repainted);
    }

    /// Returns the rectangle on the screen of the open window or dialog of an id, or `None` where nothing of the id is open.
    pub fn bounds(&self, id: Id) -> Option<Rect>
        ensures is { (s : Standing) → StandsFor V.meaning self.now s → result ≡ bounds_of s id }
        ensures near { IfSome result IsRectNear }
    {
        self.run.bounds(self.checked.desc(), id)
    }

    /// Returns the id of what is in front: of the open dialog, or without one of the front window.
    pub fn front(&self) -> Option<Id>
        ensures { (s : Standing) → StandsFor V.meaning self.now s → result ≡ front_of s }
    {
        self.run.front(self.checked.desc())
    }

    /// Puts the values that the fields of the open dialog have now into an empty record, in description order, and returns
    /// whether a dialog is open.
    pub fn current(&self, values: &mut Record) -> bool
        requires empty { values.old ≡ [] }
        requires there { (s : Standing) × StandsFor V.meaning self.now s }
        ensures { (s : Standing) → StandsFor V.meaning self.now s → (result ≡ is_some s.state.dialog) × (values.new ≡ current_of s.state.dialog) }
    {
        // A dialog of a checked description has no more fields than a record has room for.
        let _sound = self.checked.desc();
        self.run.dialogs.current(values)
    }

    /// Whether `step` would make nothing of the event, so that it is the program's: no dialog and no menu is open, nothing
    /// holds the mouse, and neither the bar, the status line nor a window takes it.
    pub fn leaves(&self, event: &Event) -> bool
        ensures { (s : Standing) → StandsFor V.meaning self.now s → result ≡ is_left s.desc s.state event.now }
    {
        self.run.leaves(&self.line, event)
    }

    /// Returns the rectangles that the last event or command had painted again, in screen coordinates. They lie on the
    /// screen and may overlap. A cell outside them is as before it. Before the first there are none, and a second call
    /// returns the same.
    pub fn repainted(&self) -> &[Rect]
        ensures { result.now ≡ self.now.repainted }
    {
        self.repainted.rects()
    }

    /// Returns the screen after the last event.
    pub fn screen(&self) -> &Screen
        ensures { (s : Standing) → StandsFor V.meaning self.now s → IsScreenOf s result.now }
    {
        &self.screen
    }

    /// Returns the lines of the last event, or of the start, that aren't yet taken.
    pub fn log(&self) -> &[LogLine]
        ensures { (s : Standing) → StandsFor V.meaning self.now s → result.now ≡ s.state.log }
    {
        self.run.log.as_slice()
    }

    /// Forgets the lines that aren't yet taken. The next event does so too.
    pub fn forget_log(&mut self)
        ensures quiet { (s : Standing) → StandsFor V.meaning self.old s → StandsFor V.meaning self.new (quiet s) }
        ensures repainted { self.new.repainted ≡ self.old.repainted }
    {
        self.run.log.clear();
    }

    /// Takes the lines that `log` returns, and lends them once: when the loan ends, the session is as `forget_log` leaves
    /// it. So a second call lends none.
    pub fn take_log(&mut self) -> &[LogLine]
        ensures lines { (s : Standing) → StandsFor V.meaning self.old s → result.now ≡ s.state.log }
        ensures* none_left { sem 𝓛 (Rests (the_row V.row) self.entry (IsQuieted V.meaning self.old)) }
    {
        self.taken.clear();
        swap(&mut self.taken, &mut self.run.log);
        self.taken.as_slice()
    }

    /// Returns the control that has the focus, while a dialog is open.
    pub fn focus(&self) -> Option<Id>
        ensures { (s : Standing) → StandsFor V.meaning self.now s → result ≡ option_map (λ o. o.focus) s.state.dialog }
    {
        self.run.dialogs.focus()
    }

    /// Returns the id of the dialog that is open.
    pub fn open_id(&self) -> Option<Id>
        ensures { (s : Standing) → StandsFor V.meaning self.now s → result ≡ open_id_of s }
    {
        self.run.dialogs.open_id(self.checked.desc())
    }

    /// Whether the run is over, after `quit`.
    pub fn is_over(&self) -> bool
        ensures { (s : Standing) → StandsFor V.meaning self.now s → result ≡ s.state.is_over }
    {
        self.run.is_over
    }

    /// Returns the record with which the dialog at a place, counted from 0 in description order, opens next: that of its
    /// last end other than `cancel`, and before any such end the declared values of its fields.
    pub fn record(&self, place: usize) -> Option<&Record>
        ensures { (s : Standing) → StandsFor V.meaning self.now s → option_copied result ≡ next_record s.desc s.state place }
    {
        self.run.dialogs.record(place)
    }

    /// Gives the dialog at a place the record with which it opens next, as if its last end had saved that: it has exactly
    /// the dialog's fields, in order, each text lies in its domain, and each item is there. A dialog that is open keeps
    /// what it shows.
    pub fn keep_record(&mut self, place: usize, values: Record)
        requires { (s : Standing) → StandsFor V.meaning self.old s → IsSafeSaved s.desc place values }
        ensures kept { (s : Standing) → StandsFor V.meaning self.old s → StandsFor V.meaning self.new (handed_in place values s) }
        ensures repainted { self.new.repainted ≡ self.old.repainted }
    {
        self.run.dialogs.keep_record(place, values);
    }

    /// Returns the description.
    pub fn desc(&self) -> &Desc
        ensures { (s : Standing) → StandsFor V.meaning self.now s → result.now ≡ s.desc }
    {
        self.checked.desc()
    }

    /// Returns the description with what was found when it was checked.
    pub fn checked(&self) -> &Checked
        ensures { (s : Standing) → StandsFor V.meaning self.now s → result.now ≡ s.desc }
    {
        &self.checked
    }
}

// A script is performed by the same calls.
impl<V: View> Stage for SessionOf<V> {
    ghost use Rattle.tv_session.specs.Session.{StandsFor};

    ghost stands = { λ session s. StandsFor V.meaning session s };

    fn desc(&self) -> &Desc {
        self.checked.desc()
    }

    fn log(&self) -> &[LogLine] {
        SessionOf::log(self)
    }

    fn forget_log(&mut self) {
        SessionOf::forget_log(self);
    }

    fn step(&mut self, event: &Event) {
        SessionOf::step(self, event);
    }

    fn screen(&self) -> &Screen {
        &self.screen
    }
}
