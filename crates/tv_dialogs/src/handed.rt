//! Events as dialogs are handed them.

ghost use Rattle.std.specs.Prelude.{◌≡◌};
ghost use Rattle.tv_machine.specs.Session.Desktop.{seen_from};
ghost use Rattle.tv_machine.specs.Session.Step.{event_from};
ghost use Rattle.tv_model.specs.Description.Rectangles.{IsSmall};
ghost use Rattle.tv_dialogs.specs.Handed.{HasPointGiven, IsPointGiven, is_dropped};

use tv_cells::Point;
use tv_event::{Event, Key};

/// Returns a point of the screen, seen from a corner.
pub(crate) fn seen_from(corner: Point, point: Point) -> Point
    requires corner { IsSmall corner.x × IsSmall corner.y }
    requires point { IsPointGiven point }
    ensures { result ≡ seen_from corner point }
{
    Point {
        x: point.x - corner.x,
        y: point.y - corner.y,
    }
}

/// Returns the event with its point seen from a corner.
pub(crate) fn event_from(corner: Point, event: &Event) -> Event
    requires corner { IsSmall corner.x × IsSmall corner.y }
    requires given { HasPointGiven event.now }
    ensures { result ≡ event_from corner event.now }
{
    match event {
        Event::Down(point) => Event::Down(seen_from(corner, *point)),
        Event::Up(point) => Event::Up(seen_from(corner, *point)),
        Event::Move(point) => Event::Move(seen_from(corner, *point)),
        Event::Key(key) => Event::Key(*key),
        Event::Command(command) => Event::Command(*command),
        Event::Broadcast(command) => Event::Broadcast(*command),
    }
}

/// Whether no dialog does anything with the event: it is Alt with a letter in lower case.
pub(crate) fn is_dropped(event: &Event) -> bool
    ensures { result ≡ is_dropped event.now }
{
    match event {
        Event::Key(Key::Alt(letter)) => letter.is_ascii_lowercase(),
        _ => false,
    }
}
