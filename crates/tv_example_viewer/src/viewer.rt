//! What the viewer does with what it is told.

ghost use Rattle.tv_app.specs.Running.{Runs, Session};
ghost use Rattle.tv_live.specs.Programs.{Goes};

use crate::document::Document;
use std::alloc::{AllocError, Global};
use tv_app::{App, Command, Event, LayFault, LogLine};
use tv_live::{News, Next, Program};

/// The command that finds the text again.
const AGAIN: u8 = 101;

/// Two texts in windows. Once there is no memory for what they show, the run ends.
#[derive(Drop)]
pub(crate) struct Viewer {
    pub(crate) alloc: Global,
    pub(crate) left: Document,
    pub(crate) right: Document,
    pub(crate) is_short: bool,
}

impl Program for Viewer {
    fn act(&mut self, app: &mut App, news: &News) -> Next {
        match news {
            News::Event {
                event: Event::Key(key),
                is_left: true,
            } => {
                if let Some(document) = self.front(app) {
                    document.scroll(*key);
                }
            }
            News::Event { .. } => {
                if self.find(app).is_err() {
                    self.is_short = true;
                }
            }
            News::Begin => {}
            News::Turn => return Next::Wait,
        }
        self.left.draw();
        self.right.draw();
        lay(self.alloc, app, &self.left, &mut self.is_short);
        lay(self.alloc, app, &self.right, &mut self.is_short);
        if self.is_short {
            Next::Leave
        } else {
            Next::Wait
        }
    }
}

impl Viewer {
    // The text whose window is in front.
    fn front(&mut self, app: &App) -> Option<&mut Document> {
        if app.is_front(self.left.window) {
            Some(&mut self.left)
        } else if app.is_front(self.right.window) {
            Some(&mut self.right)
        } else {
            None
        }
    }

    // Finds the text where the user has asked for it: from the line that the dialog says, or again from the next one.
    fn find(&mut self, app: &App) -> Result<(), AllocError> {
        let alloc = self.alloc;
        let (Some(what), Some(line)) = (app.text("find", "what"), app.text("find", "line")) else {
            return Ok(());
        };
        let what: String = what.as_slice().iter().collect(alloc)?;
        let line: String = line.as_slice().iter().collect(alloc)?;
        let line = line.parse::<usize>().unwrap_or(1);
        if let (Some(again), Some(document)) = (asked(app.log()), self.front(app)) {
            let from = if again {
                document.top().saturating_add(1)
            } else {
                line.saturating_sub(1)
            };
            document.find(from, &what);
        }
        Ok(())
    }
}

// Whether the text is to be found, and if so whether again.
fn asked(log: &[LogLine]) -> Option<bool> {
    for line in log {
        match line {
            LogLine::End(_, Command::OK) => return Some(false),
            LogLine::Command(AGAIN) => return Some(true),
            _ => {}
        }
    }
    None
}

// Lays a text's sheet in its window, where that is open.
fn lay(alloc: Global, app: &mut App, document: &Document, is_short: &mut bool)
    requires there { (s : Session) × Runs app.old s }
    ensures goes { (s : Session) → Runs app.old s → Goes (λ _ _. Unit) s app.new }
{
    if app.lay(alloc, document.window, &document.sheet) == Err(LayFault::NoMemory) {
        *is_short = true;
    }
}
