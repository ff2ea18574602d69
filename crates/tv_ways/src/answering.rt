//! Whether events reach a goal.

ghost use Rattle.std.specs.Prelude.{◌≡◌, IfOk, IfSome, IsTrue, Some, slice_get};
ghost use Rattle.tv_app.specs.Opening.{IsSpelledSound};
ghost use Rattle.tv_app.specs.Running.{Runs, Session, started};
ghost use Rattle.tv_model.specs.declared.desc.Desc.{Desc as Declared};
ghost use Rattle.tv_machine.specs.Dialog.Sound.{HasSoundDialogs};
ghost use Rattle.tv_reach.specs.Answers.{IsAnswer, IsNever};
ghost use Rattle.tv_reach.specs.Goals.{IsAt};
ghost use Rattle.tv_reach.specs.Never.{DialogsRise};
ghost use Rattle.tv_ways.specs.Asking.{HasSayableWay, IsFoundWay};
ghost use Rattle.tv_ways.specs.Wording.{AreSayable};

use crate::outline::Outline;
use crate::path::Step;
use crate::running::{dialog_at, has_reached, make_all};
use crate::walk::masks;
use crate::way::ways;
use crate::wording::are_sayable;
use std::alloc::{AllocError, Global};
use tv_app::{App, OpenFault, open};
use tv_event::Event;
use tv_model::Desc;
use tv_reach::{Answer, Goal, Reason, is_closed, never_reached, reason_against};
use tv_valid::Sequence;

/// Begins a run of the text, if it spells a sound description.
pub(crate) fn start(alloc: Global, text: &[u8]) -> Result<Option<App>, AllocError>
    ensures { IfOk result (λ found. IfSome found (λ app. (d : Declared) → IsSpelledSound text.now d → Runs app (started d))) }
{
    match open(alloc, text) {
        Ok(app) => Ok(Some(app)),
        Err(OpenFault::NoMemory) => Err(AllocError),
        Err(OpenFault::Lang(_) | OpenFault::Faults(_)) => Ok(None),
    }
}

// Whether the run has reached the goal, and a script can say the events.
fn is_found(app: &App, place: usize, goal: Goal, events: &[Event]) -> bool
    ensures { IsTrue result → (s : Session) → Runs app.now s → IsAt s.desc place goal s.state × AreSayable s.desc events.now }
{
    if has_reached(app, place, goal) {
        are_sayable(app.desc(), events)
    } else {
        false
    }
}

// The events of the steps, if they reach the goal in a run that is at its start, and a script can say them.
fn confirmed(
    alloc: Global,
    app: App,
    place: usize,
    goal: Goal,
    steps: &[Step],
) -> Result<Option<Sequence<Event>>, AllocError>
    requires { (d : Declared) × Runs app (started d) }
    ensures { IfOk result (λ found. IfSome found (λ events. (d : Declared) → Runs app (started d) → IsFoundWay d place goal events)) }
{
    let mut app = app;
    let events = make_all(alloc, &mut app, steps)?;
    Ok(if is_found(&app, place, goal, events.as_slice()) {
        Some(events)
    } else {
        None
    })
}

// The events of the first of these ways that reaches the goal.
fn first_way(
    alloc: Global,
    text: &[u8],
    place: usize,
    goal: Goal,
    ways: &[Vec<Step>],
) -> Result<Option<Sequence<Event>>, AllocError>
    requires { (d : Declared) × IsSpelledSound text.now d }
    ensures { IfOk result (λ found. IfSome found (λ events. (d : Declared) → IsSpelledSound text.now d → IsFoundWay d place goal events)) }
{
    for steps in ways {
        let Some(app) = start(alloc, text)? else {
            return Ok(None);
        };
        if let Some(events) = confirmed(alloc, app, place, goal, steps.as_slice())? {
            return Ok(Some(events));
        }
    }
    Ok(None)
}

// Why no events reach the goal in the dialog of the outline, by a closed list of masks.
fn never(
    alloc: Global,
    desc: &Desc,
    outline: &Outline,
    goal: Goal,
) -> Result<Option<Reason>, AllocError>
    ensures { IfOk result (λ found. IfSome found (λ why. IsNever desc.now outline.now.dialog.now goal why)) }
{
    let Some(masks) = masks(alloc, outline)? else {
        return Ok(None);
    };
    if is_closed(alloc, outline.dialog, &masks)? {
        reason_against(alloc, desc, outline.dialog, &masks, goal)
    } else {
        Ok(None)
    }
}

// Why no events reach the goal in the dialog at the place.
fn never_at(
    alloc: Global,
    desc: &Desc,
    place: usize,
    outline: &Outline,
    goal: Goal,
) -> Result<Answer, AllocError>
    requires sound { HasSoundDialogs desc.now }
    requires rise { DialogsRise desc.now }
    requires there { slice_get desc.now.dialogs place ≡ Some outline.now.dialog.now }
    ensures answer { IfOk result (IsAnswer desc.now place goal) }
    ensures sayable { IfOk result (HasSayableWay desc.now) }
{
    never_reached(desc);
    Ok(match never(alloc, desc, outline, goal)? {
        Some(reason) => Answer::Never(reason),
        None => Answer::Unknown,
    })
}

/// Answers whether events reach the goal in the dialog at the place, counted from 0, of the description that the text
/// spells: by such events, which were made and have reached it, and which a script can say; by why there are none; or not, where
/// that was given up.
pub fn answer(
    alloc: Global,
    text: &[u8],
    desc: &Desc,
    place: usize,
    goal: Goal,
) -> Result<Answer, AllocError>
    requires { IsSpelledSound text.now desc.now }
    ensures answer { IfOk result (IsAnswer desc.now place goal) }
    ensures sayable { IfOk result (HasSayableWay desc.now) }
{
    let Some(dialog) = dialog_at(desc, place) else {
        return Ok(Answer::Unknown);
    };
    let outline = Outline::new(alloc, dialog)?;
    let ways = ways(alloc, desc, &outline, goal)?;
    match first_way(alloc, text, place, goal, ways.as_slice())? {
        Some(events) => Ok(Answer::Way(events)),
        None => never_at(alloc, desc, place, &outline, goal),
    }
}
