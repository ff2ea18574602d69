//! Which events a session may be handed, and where a frame may be moved to.

ghost use Rattle.std.specs.Prelude.{◌≤◌, IsTrue};
ghost use Rattle.tv_dialogs.specs.Handed.{HasPointGiven, IsPointGiven};
ghost use Rattle.tv_faces.specs.Corners.{IsCorner};

use tv_cells::Point;
use tv_event::Event;

fn is_point_given(point: &Point) -> bool
    ensures { IsTrue result → IsPointGiven point.now }
{
    -10_000 <= point.x && point.x <= 10_000 && -10_000 <= point.y && point.y <= 10_000
}

/// Whether the event has no point that is too far off for a session.
pub fn is_given(event: &Event) -> bool
    ensures { IsTrue result → HasPointGiven event.now }
{
    match event {
        Event::Down(point) => is_point_given(point),
        Event::Up(point) => is_point_given(point),
        Event::Move(point) => is_point_given(point),
        Event::Key(_) | Event::Command(_) | Event::Broadcast(_) => true,
    }
}

/// Whether a window or a dialog may have this corner.
pub fn is_corner(point: &Point) -> bool
    ensures { IsTrue result → IsCorner point.now }
{
    -132 <= point.x && point.x <= 132 && -132 <= point.y && point.y <= 132
}
