//! What a terminal shows.

ghost use Rattle.std.specs.Prelude.{◌≡◌, [], ◌∷◌, ◌++◌, None, true, false, List, ℕ};
ghost use Rattle.std.specs.List.{concat};
ghost use Rattle.tv_terminal.specs.Written.{end_bytes};
ghost use Rattle.tv_event.specs.declared.event.Event.{Event as Happening};
ghost use Rattle.tv_terminal.specs.declared.action.Action.{Action};
ghost use Rattle.tv_terminal.specs.declared.colour.Colours.{Colours};
ghost use Rattle.tv_terminal.specs.declared.action.Action.TheVariants as variants;
ghost use Rattle.tv_io.specs.Pen.{PutsBy};
ghost use Rattle.tv_io.specs.Writer.{Seen};
ghost use Rattle.tv_machine.specs.Run.{Session, quiet, stepped};
ghost use Rattle.tv_play.specs.Edge.{brought};
ghost use Rattle.tv_play.specs.Ends.{is_refreshing, reached};
ghost use Rattle.tv_play.specs.Notes.{IsMonitorOf, SaysClipped, size_with};
ghost use Rattle.tv_play.specs.Refusals.{is_in_vain};
ghost use Rattle.tv_play.specs.Shown.{HasSize, KeepsScreen};
ghost use Rattle.tv_play.specs.Steps.{HasBeenShown, HasTaken};

use crate::cursor::find_cursor;
use crate::live::Live;
use crate::monitor::{Monitor, window_of};
use crate::refusal::{is_typed, refusal_of};
use tv_cells::Point;
use tv_event::Event;
use tv_io::{Pen, Writer};
use tv_terminal::{Painter, Size, ring};

/// Shows the whole screen, whatever the terminal shows: at the beginning, and for an action that asks for it, which may tell a size.
pub(crate) fn show_all<L: Live, T: Writer>(
    monitor: &mut Monitor,
    pen: &mut Pen<T>,
    stage: &L,
    told: Option<Size>,
)
    requires there { (s : Session) × L.stands stage.now s × IsMonitorOf s.desc monitor.old }
    ensures size { (t : Session) → IsMonitorOf t.desc monitor.old → IsMonitorOf t.desc monitor.new }
    ensures same { pen.new.out.ghost_name ≡ pen.old.out.ghost_name }
    ensures first { (s : Session) → L.stands stage.now s → pen.old.stopped ≡ false → told ≡ None → monitor.old.size ≡ None
        → HasBeenShown monitor.old.painter.colours s [] (T.seen pen.old.out.now) (T.seen pen.new.out.now) pen.new.stopped monitor.new }
    ensures again { (colours : Colours) (s : Session) (actions : List Action) (action : Action) (from : Seen)
        → L.stands stage.now (quiet (reached s actions)) → is_refreshing s.desc action ≡ true → told ≡ size_with None action
        → HasBeenShown colours s actions from (T.seen pen.old.out.now) pen.old.stopped monitor.old
        → HasBeenShown colours s (actions ++ action ∷ []) from (T.seen pen.new.out.now) pen.new.stopped monitor.new }
{
    let screen = stage.screen();
    let cursor = find_cursor(screen, &[]);
    let size = told.or(monitor.size);
    monitor
        .painter
        .begin(screen, cursor, window_of(screen, size), pen);
    monitor.size = size;
    monitor.is_noted = false;
    say_clipped(monitor, pen, stage, cursor);
}

// Says that a terminal is too small, if it is.
fn say_clipped<L: Live, T: Writer>(
    monitor: &mut Monitor,
    pen: &mut Pen<T>,
    stage: &L,
    cursor: Option<Point>,
)
    requires there { (s : Session) × L.stands stage.now s × IsMonitorOf s.desc monitor.old }
    ensures { SaysClipped T.seen monitor.old monitor.new pen.old pen.new }
{
    let screen = stage.screen();
    if monitor.is_clipped(screen) {
        monitor.write_note(None, stage, pen);
        monitor.painter.paint(screen, &[], cursor, pen);
    }
}

/// Shows what an event, brought to the screen, changed, and where an input refused it says why and rings the bell.
pub(crate) fn repaint<L: Live, T: Writer>(
    monitor: &mut Monitor,
    pen: &mut Pen<T>,
    stage: &L,
    event: &Event,
)
    requires there { (s : Session) × L.stands stage.now s × IsMonitorOf s.desc monitor.old }
    ensures size { (t : Session) → IsMonitorOf t.desc monitor.old → IsMonitorOf t.desc monitor.new }
    ensures same { pen.new.out.ghost_name ≡ pen.old.out.ghost_name }
    ensures shown { (colours : Colours) (s : Session) (actions : List Action) (told : Happening) (from : Seen)
        → is_refreshing s.desc (variants.Event told) ≡ false → event.now ≡ brought s.desc told
        → L.stands stage.now (stepped (reached s actions) event.now)
        → KeepsScreen (L.repaints stage.now) (reached s actions) (stepped (reached s actions) event.now)
        → HasBeenShown colours s actions from (T.seen pen.old.out.now) pen.old.stopped monitor.old
        → HasBeenShown colours s (actions ++ variants.Event told ∷ []) from (T.seen pen.new.out.now) pen.new.stopped monitor.new }
{
    let (screen, rects) = (stage.screen(), stage.repainted());
    let refusal = refusal_of(stage, is_in_vain(&monitor.painter, stage, event));
    let cursor = find_cursor(screen, rects);
    monitor.note(refusal, stage, pen);
    monitor.painter.paint(screen, rects, cursor, pen);
    if refusal.is_some() {
        ring(pen);
    }
}

// Whether a character was typed, and nothing that shows has changed.
fn is_in_vain<L: Live>(painter: &Painter, stage: &L, event: &Event) -> bool
    requires there { (s : Session) × L.stands stage.now s × HasSize s painter.now }
    ensures { (old new : Session) → L.stands stage.now new → new.desc ≡ old.desc → HasTaken old painter.now
        → KeepsScreen (L.repaints stage.now) old new → result ≡ is_in_vain old new event.now }
{
    is_typed(event) && painter.shows(stage.screen(), stage.repainted())
}

/// Shows what the terminal showed before.
pub(crate) fn end<T: Writer>(painter: &mut Painter, pen: &mut Pen<T>)
    ensures same { pen.new.out.ghost_name ≡ pen.old.out.ghost_name }
    ensures stopped { pen.old.stopped ≡ true → pen.new.stopped ≡ true }
    ensures passed { pen.new.stopped ≡ false → (T.seen pen.new.out.now).kept ≡ [] }
    ensures put { (from : Seen) (frames : List (List ℕ))
        → PutsBy from false (T.seen pen.old.out.now) pen.old.stopped (concat frames)
        → PutsBy from false (T.seen pen.new.out.now) pen.new.stopped (concat frames ++ end_bytes) }
{
    painter.end(pen);
    pen.pass_on();
}
