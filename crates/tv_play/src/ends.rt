//! What comes of an action in a terminal, and what ends a run there.

ghost use Rattle.std.specs.Prelude.{◌≡◌, is_some};
ghost use Rattle.std.specs.List.{list_any};
ghost use Rattle.tv_machine.specs.Run.{Session};
ghost use Rattle.tv_model.specs.Faults.Letters.{is_same_key};
ghost use Rattle.tv_play.specs.Ends.{IsTakenFor, has_no_bars, is_finished, is_leaving, is_quit, is_refreshing, is_unclaimed, nothing_can_happen};

use crate::live::Live;
use tv_event::{Event, Key};
use tv_model::{Desc, Id, LogLine, is_same_key};
use tv_terminal::Action;

// Whether the line says that the run is over.
fn is_quit(line: &LogLine) -> bool
    ensures { result ≡ is_quit line.now }
{
    matches!(line, LogLine::Quit)
}

fn has_quit(lines: &[LogLine]) -> bool
    ensures { result ≡ list_any is_quit lines.now }
{
    lines.iter().any(is_quit)
}

// Whether there is neither a menu nor a status item.
fn has_no_bars(desc: &Desc) -> bool
    ensures { result ≡ has_no_bars desc.now }
{
    desc.menus.as_slice().is_empty() && desc.status.as_slice().is_empty()
}

/// Whether nothing can happen any more after an event that logged these lines, where this control has the focus: the run is over,
/// or no dialog is open and nothing can open one.
pub fn nothing_can_happen(desc: &Desc, log: &[LogLine], focus: Option<Id>) -> bool
    ensures { result ≡ nothing_can_happen desc.now log.now (is_some focus) }
{
    has_quit(log) || (focus.is_none() && has_no_bars(desc))
}

/// Whether nothing can happen any more, with the log of the last event not yet taken.
pub(crate) fn is_finished<L: Live>(stage: &L) -> bool
    ensures { (s : Session) → L.stands stage.now s → result ≡ is_finished s }
{
    nothing_can_happen(stage.desc(), stage.log(), stage.focus())
}

const INTERRUPT: Key = Key::Ctrl('C');

const REFRESH: Key = Key::Ctrl('L');

// Whether a status item has the key.
fn has_item(desc: &Desc, key: Key) -> bool
    ensures { result ≡ list_any (λ item. is_same_key item.key key) desc.now.status }
{
    desc.status
        .as_slice()
        .iter()
        .any(|item| is_same_key(item.key, key))
}

// Whether the key is this one, and no status item has it.
fn is_unclaimed(desc: &Desc, own: Key, key: Key) -> bool
    ensures { result ≡ is_unclaimed desc.now own key }
{
    is_same_key(key, own) && !has_item(desc, own)
}

// Whether the user leaves with it.
fn is_leaving(desc: &Desc, action: Action) -> bool
    ensures { result ≡ is_leaving desc.now action }
{
    match action {
        Action::Quit => true,
        Action::Event(Event::Key(key)) => is_unclaimed(desc, INTERRUPT, key),
        Action::Event(_) | Action::Ready | Action::Resized(_) => false,
    }
}

// Whether the screen is painted anew with it.
fn is_refreshing(desc: &Desc, action: Action) -> bool
    ensures { result ≡ is_refreshing desc.now action }
{
    match action {
        Action::Ready | Action::Resized(_) => true,
        Action::Event(Event::Key(key)) => is_unclaimed(desc, REFRESH, key),
        Action::Event(_) | Action::Quit => false,
    }
}

/// What an action is taken for.
pub enum Step {
    /// The user leaves.
    Leave,
    /// The whole screen is painted anew.
    Refresh,
    /// An event is performed.
    Perform(Event),
}

/// Says what an action is taken for.
pub fn step_of(desc: &Desc, action: Action) -> Step
    ensures { IsTakenFor desc.now action result }
{
    if is_leaving(desc, action) {
        return Step::Leave;
    }
    match action {
        Action::Event(event) if !is_refreshing(desc, action) => Step::Perform(event),
        _ => Step::Refresh,
    }
}
