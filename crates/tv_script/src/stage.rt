//! What a script is performed on.

ghost use Rattle.std.specs.Prelude.{◌≡◌};
ghost use Rattle.tv_machine.specs.Run.{Session, stepped, quiet};
ghost use Rattle.tv_script.specs.Lines.{IsEventOnScreen};
ghost use Rattle.tv_script.specs.Performed.{IsScreenOf};

use tv_cells::Screen;
use tv_event::Event;
use tv_model::{Desc, LogLine};

/// A run of a description with its screen, on which a script is performed.
pub trait Stage {
    // The runs of the flat machine that it stands for.
    ghost stands: { Self → Session → Type 0 };

    /// Returns the description.
    fn desc(&self) -> &Desc
        ensures { (s : Session) → stands self.now s → result.now ≡ s.desc };

    /// Returns the lines of the log that aren't yet taken.
    fn log(&self) -> &[LogLine]
        ensures { (s : Session) → stands self.now s → result.now ≡ s.state.log };

    /// Takes the lines of the log: none are left.
    fn forget_log(&mut self)
        ensures { (s : Session) → stands self.old s → stands self.new (quiet s) };

    /// Handles one event.
    fn step(&mut self, event: &Event)
        requires shown { IsEventOnScreen event.now }
        requires there { (s : Session) × stands self.old s }
        ensures { (s : Session) → stands self.old s → stands self.new (stepped s event.now) };

    /// Returns the screen, which shows what the last event left.
    fn screen(&self) -> &Screen
        ensures { (s : Session) → stands self.now s → IsScreenOf s result.now };
}
