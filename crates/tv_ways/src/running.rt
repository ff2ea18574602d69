//! Steps made in a run of a description, and what they came to.

ghost use Rattle.std.specs.Prelude.{◌≡◌, IfOk, IfSome, IsTrue, option_copied, slice_get};
ghost use Rattle.std.specs.List.{list_any};
ghost use Rattle.tv_app.specs.Running.{Runs, Session, started};
ghost use Rattle.tv_model.specs.declared.desc.Desc.{Desc as Declared};
ghost use Rattle.tv_reach.specs.Goals.{IsAt, IsOpenAt};
ghost use Rattle.tv_reach.specs.declared.goal.Goal.TheVariants.{Ends};
ghost use Rattle.tv_ways.specs.Running.{IsOnlyIn, IsReadAt, is_end_line, ran};

use crate::path::Step;
use std::alloc::{AllocError, Global};
use tv_app::App;
use tv_event::{Command, Event};
use tv_model::{Desc, Dialog, Id, LogLine, node_of};
use tv_reach::Goal;
use tv_valid::Sequence;

/// Makes the steps in a run that is at its start, and returns the events.
pub(crate) fn make_all(
    alloc: Global,
    app: &mut App,
    steps: &[Step],
) -> Result<Sequence<Event>, AllocError>
    requires { (d : Declared) × Runs app.old (started d) }
    ensures { IfOk result (λ events. (d : Declared) → Runs app.old (started d) → Runs app.new (ran d events)) }
{
    let mut events = Sequence::new(alloc);
    for next in steps {
        let event = next.event();
        events.push(event)?;
        app.step(&event);
    }
    Ok(events)
}

// Whether it is the line of the dialog's end by the command.
fn is_end(line: &LogLine, dialog: Id, command: Command) -> bool
    ensures { result ≡ is_end_line dialog command line.now }
{
    match line {
        LogLine::End(other, by) => *other == dialog && *by == command,
        _ => false,
    }
}

// Whether one of the lines is that of the dialog's end by the command.
fn has_end(log: &[LogLine], dialog: Id, command: Command) -> bool
    ensures { result ≡ list_any (is_end_line dialog command) log.now }
{
    log.iter().any(|line| is_end(line, dialog, command))
}

// Whether no dialog has the view but the one at the place, as it is where ids are the lines of a text.
fn is_only_in(desc: &Desc, place: usize, id: Id) -> bool
    ensures { IsTrue result → IsOnlyIn desc.now place id }
{
    let dialogs = desc.dialogs.as_slice();
    for (at, dialog) in dialogs.iter().enumerate() {
        if at != place && node_of(dialog.views.as_slice(), id).is_some() {
            return false;
        }
    }
    true
}

/// Returns the control that has the focus, if the dialog at the place is open.
pub(crate) fn focus_in(app: &App, place: usize) -> Option<Id>
    ensures { IfSome result (λ i. (s : Session) → Runs app.now s → IsReadAt s.desc place i s.state) }
{
    let focus = app.focus()?;
    if is_only_in(app.desc(), place, focus) {
        Some(focus)
    } else {
        None
    }
}

// Whether the dialog at the place is open.
fn is_open(app: &App, place: usize) -> bool
    ensures { IsTrue result → (s : Session) → Runs app.now s → IsOpenAt s.desc place s.state }
{
    match focus_in(app, place) {
        Some(_) => true,
        None => false,
    }
}

// Whether the dialog at the place is open, and its control of the id has the focus.
fn has_focus(app: &App, place: usize, id: Id) -> bool
    ensures { IsTrue result → (s : Session) → Runs app.now s → IsReadAt s.desc place id s.state }
{
    match focus_in(app, place) {
        Some(focus) => focus == id,
        None => false,
    }
}

/// Returns the dialog at the place.
pub(crate) fn dialog_at(desc: &Desc, place: usize) -> Option<&Dialog>
    ensures { option_copied result ≡ slice_get desc.now.dialogs place }
{
    desc.dialogs.as_slice().get(place)
}

// Whether the dialog at the place has just ended by the command.
fn has_ended(app: &App, place: usize, command: Command) -> bool
    ensures { IsTrue result → (s : Session) → Runs app.now s → IsAt s.desc place (Ends command) s.state }
{
    match dialog_at(app.desc(), place) {
        Some(dialog) => has_end(app.log(), dialog.node.id, command),
        None => false,
    }
}

/// Whether the run has reached the goal in the dialog at the place.
pub(crate) fn has_reached(app: &App, place: usize, goal: Goal) -> bool
    ensures { IsTrue result → (s : Session) → Runs app.now s → IsAt s.desc place goal s.state }
{
    match goal {
        Goal::Opens => is_open(app, place),
        Goal::Ends(command) => has_ended(app, place, command),
        Goal::Focuses(id) => has_focus(app, place, id),
        Goal::Shows(id) => has_focus(app, place, id),
    }
}
