//! A description at work in a program.

ghost use Rattle.std.specs.Prelude.{◌≡◌, [], is_some, option_map};
ghost use Rattle.tv_app.specs.Names.{is_open_named};
ghost use Rattle.tv_app.specs.Running.{Runs};
ghost use Rattle.tv_cells.specs.Damage.{Holds};
ghost use Rattle.tv_cells.specs.Repainting.{KeepsRest};
ghost use Rattle.tv_dialogs.specs.Handed.{HasPointGiven};
ghost use Rattle.tv_dialogs.specs.Records.{current_of};
ghost use Rattle.tv_machine.specs.Run.{Session, commanded, quiet, stepped};
ghost use Rattle.tv_machine.specs.Screen.Bodies.{whole_screen};
ghost use Rattle.tv_machine.specs.Session.Left.{is_left};
ghost use Rattle.tv_machine.specs.Session.Step.{takes_command};
ghost use Rattle.tv_script.specs.Performed.{IsScreenOf};

use crate::control::Control;
use crate::names::dialog_named;
use tv_cells::{Rect, Screen};
use tv_event::{Command, Event};
use tv_model::{Desc, Id, LogLine, Record};
use tv_session::SessionOf;

/// A run of a description through the toolkit's own controls, and its screen. `open` makes it.
///
/// It stands for a run of the flat machine, whose state each call reads or steps: that is what `Runs` says. A loop over
/// events has the invariant that there is such a run, and no other.
#[derive(Drop)]
pub struct App {
    pub(crate) session: SessionOf<Control>,
}

impl App {
    /// Handles one event. Its point is in screen coordinates, at most 10,000 from the origin. Afterwards the log holds
    /// this event's lines only, and the screen shows what the event left. It is painted again where that may be something
    /// else, and nowhere else.
    pub fn step(&mut self, event: &Event)
        requires near { HasPointGiven event.now }
        requires there { (s : Session) × Runs self.old s }
        ensures goes_on { (s : Session) → Runs self.old s → Runs self.new (stepped s event.now) }
        ensures rest { KeepsRest self.new.session.repainted self.old.session.screen self.new.session.screen }
        ensures within { (s : Session) → Runs self.old s → Holds (whole_screen s.desc) self.new.session.repainted }
    {
        self.session.step(event);
    }

    /// Takes a command as if a user had chosen it, and returns whether it was taken: after `quit` it isn't, nor while the
    /// mouse holds something, nor while the open dialog has it disabled. An open menu closes first. Afterwards the log holds
    /// the command's lines only, and the screen is painted again as after an event.
    pub fn command(&mut self, command: Command) -> bool
        requires { (s : Session) × Runs self.old s }
        ensures taken { (s : Session) → Runs self.old s → result ≡ takes_command s.desc s.state command.0 }
        ensures goes_on { (s : Session) → Runs self.old s → Runs self.new (commanded s command) }
        ensures rest { KeepsRest self.new.session.repainted self.old.session.screen self.new.session.screen }
        ensures within { (s : Session) → Runs self.old s → Holds (whole_screen s.desc) self.new.session.repainted }
    {
        self.session.command(command)
    }

    /// Whether `step` would make nothing of the event, so that it is the program's: no dialog and no menu is open, nothing
    /// holds the mouse, and neither the bar, the status line nor a window takes it. Moves and ups are the program's then.
    pub fn leaves(&self, event: &Event) -> bool
        ensures { (s : Session) → Runs self.now s → result ≡ is_left s.desc s.state event.now }
    {
        self.session.leaves(event)
    }

    /// Puts the values that the fields of the open dialog have now into an empty record, in description order, and returns
    /// whether a dialog is open. An end saves such a record; `record` has what was saved.
    pub fn current(&self, values: &mut Record) -> bool
        requires empty { values.old ≡ [] }
        requires there { (s : Session) × Runs self.now s }
        ensures { (s : Session) → Runs self.now s → (result ≡ is_some s.state.dialog) × (values.new ≡ current_of s.state.dialog) }
    {
        self.session.current(values)
    }

    /// Returns the screen after the last event.
    pub fn screen(&self) -> &Screen
        ensures { (s : Session) → Runs self.now s → IsScreenOf s result.now }
    {
        self.session.screen()
    }

    /// Returns the rectangles that the last event or command had painted again, in screen coordinates. They lie on the
    /// screen and may overlap. A cell outside them is as before it. Before the first there are none.
    pub fn repainted(&self) -> &[Rect]
        ensures { result.now ≡ self.now.session.repainted }
    {
        self.session.repainted()
    }

    /// Returns the lines of the last event, or of the start, that aren't yet taken.
    pub fn log(&self) -> &[LogLine]
        ensures { (s : Session) → Runs self.now s → result.now ≡ s.state.log }
    {
        self.session.log()
    }

    /// Forgets the lines that aren't yet taken. The next event does so too.
    pub fn forget_log(&mut self)
        ensures quiet { (s : Session) → Runs self.old s → Runs self.new (quiet s) }
        ensures repainted { self.new.session.repainted ≡ self.old.session.repainted }
    {
        self.session.forget_log();
    }

    /// Returns the control that has the focus, while a dialog is open.
    pub fn focus(&self) -> Option<Id>
        ensures { (s : Session) → Runs self.now s → result ≡ option_map (λ o. o.focus) s.state.dialog }
    {
        self.session.focus()
    }

    /// Whether the run is over, after `quit`. Then no event does anything.
    pub fn is_over(&self) -> bool
        ensures { (s : Session) → Runs self.now s → result ≡ s.state.is_over }
    {
        self.session.is_over()
    }

    /// Whether the first dialog of the name is open.
    pub fn is_open(&self, dialog: &str) -> bool
        ensures { (s : Session) → Runs self.now s → result ≡ is_open_named s dialog.now }
    {
        match (self.session.open_id(), dialog_named(self.desc(), dialog)) {
            (Some(open), Some(named)) => open == named.node.id,
            _ => false,
        }
    }

    /// Returns the description.
    pub fn desc(&self) -> &Desc
        ensures { (s : Session) → Runs self.now s → result.now ≡ s.desc }
    {
        self.session.desc()
    }
}
