//! Inputs that refuse an end while nobody sees them.

ghost use Rattle.std.specs.Prelude.{IfOk, IfSome, Contains};
ghost use Rattle.tv_app.specs.Opening.{IsSpelledSound};
ghost use Rattle.tv_app.specs.Running.{Runs, Session, started};
ghost use Rattle.tv_model.specs.declared.desc.Desc.{Desc as Declared};
ghost use Rattle.tv_model.specs.declared.log.LogLine.TheVariants.{Invalid};
ghost use Rattle.tv_ways.specs.Refusing.{IsRefused, IsRefusedAt};

use crate::answering::start;
use crate::outline::Outline;
use crate::path::Step;
use crate::running::{dialog_at, focus_in, make_all};
use crate::way::ways_by_sight;
use crate::wording::are_sayable;
use std::alloc::{AllocError, Global};
use tv_app::App;
use tv_event::{Command, Event};
use tv_model::{Desc, Id, LogLine};
use tv_valid::Sequence;

/// An input that refuses an end while nobody sees it, and events after which it does.
#[derive(Debug, Drop)]
pub struct Refusal {
    pub input: Id,
    pub events: Sequence<Event>,
}

// The input that refuses, by the first line that tells of one.
fn refusing(log: &[LogLine]) -> Option<Id>
    ensures { IfSome result (λ i. Contains log.now (Invalid i)) }
{
    for line in log {
        if let LogLine::Invalid(id) = line {
            return Some(*id);
        }
    }
    None
}

// The input that has just refused, if it is hidden and the dialog at the place is open.
fn refusing_unseen(app: &App, place: usize) -> Option<Id>
    ensures { IfSome result (λ i. (s : Session) → Runs app.now s → IsRefusedAt s.desc place i s.state) }
{
    let input = refusing(app.log())?;
    let focus = focus_in(app, place)?;
    if focus == input { None } else { Some(input) }
}

// What refuses after these steps, in a run that is at its start.
fn refusal_after(
    alloc: Global,
    app: App,
    place: usize,
    steps: &[Step],
) -> Result<Option<Refusal>, AllocError>
    requires { (d : Declared) × Runs app (started d) }
    ensures { IfOk result (λ found. IfSome found (λ refusal. (d : Declared) → Runs app (started d)
        → IsRefused d place refusal.input refusal.events)) }
{
    let mut app = app;
    let events = make_all(alloc, &mut app, steps)?;
    let Some(input) = refusing_unseen(&app, place) else {
        return Ok(None);
    };
    Ok(if are_sayable(app.desc(), events.as_slice()) {
        Some(Refusal { input, events })
    } else {
        None
    })
}

// What refuses after the first of these ways after which something does.
fn first_refusal(
    alloc: Global,
    text: &[u8],
    place: usize,
    ways: &[Vec<Step>],
) -> Result<Option<Refusal>, AllocError>
    requires { (d : Declared) × IsSpelledSound text.now d }
    ensures { IfOk result (λ found. IfSome found (λ refusal. (d : Declared) → IsSpelledSound text.now d
        → IsRefused d place refusal.input refusal.events)) }
{
    for steps in ways {
        let Some(app) = start(alloc, text)? else {
            return Ok(None);
        };
        if let Some(refusal) = refusal_after(alloc, app, place, steps.as_slice())? {
            return Ok(Some(refusal));
        }
    }
    Ok(None)
}

/// Looks for an input that refuses the end of the dialog at the place by the command while it is hidden, though each input that a
/// user has seen holds a text of its domain. The place counts from 0, and the text spells the description.
pub fn unseen_refusal(
    alloc: Global,
    text: &[u8],
    desc: &Desc,
    place: usize,
    command: Command,
) -> Result<Option<Refusal>, AllocError>
    requires { IsSpelledSound text.now desc.now }
    ensures { IfOk result (λ found. IfSome found (λ refusal. IsRefused desc.now place refusal.input refusal.events)) }
{
    let Some(dialog) = dialog_at(desc, place) else {
        return Ok(None);
    };
    let outline = Outline::new(alloc, dialog)?;
    let ways = ways_by_sight(alloc, desc, &outline, command)?;
    first_refusal(alloc, text, place, ways.as_slice())
}
