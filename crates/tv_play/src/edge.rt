//! The edge of the screen, beyond which a terminal may have room.

ghost use Rattle.std.specs.Prelude.{◌≡◌};
ghost use Rattle.tv_play.specs.Edge.{brought, nearest, nearest_point, pressed_point};
ghost use Rattle.tv_play.specs.Taped.{HeardCanBeSaid};
ghost use Rattle.tv_script.specs.Lines.{is_on_axis, is_point_within};

use tv_cells::Point;
use tv_event::Event;
use tv_model::Desc;

/// Brings an event to the screen: what a script can say of what the mouse does beside it.
pub fn brought(desc: &Desc, event: &Event) -> Event
    ensures { result ≡ brought desc.now event.now }
{
    match event {
        Event::Down(point) => Event::Down(pressed_point(desc, *point)),
        Event::Move(point) => Event::Move(nearest_point(desc, *point)),
        Event::Up(point) => Event::Up(nearest_point(desc, *point)),
        _ => *event,
    }
}

fn pressed_point(desc: &Desc, point: Point) -> Point
    ensures { result ≡ pressed_point desc.now point }
{
    if is_on_screen(desc, point) {
        point
    } else {
        Point { x: 0, y: 0 }
    }
}

fn is_on_screen(desc: &Desc, point: Point) -> bool
    ensures { result ≡ is_point_within desc.now.width desc.now.height point }
{
    is_on_axis(desc.width, point.x) && is_on_axis(desc.height, point.y)
}

// Whether a place is one of so many columns or rows.
fn is_on_axis(size: i32, at: i32) -> bool
    ensures { result ≡ is_on_axis size at }
{
    0 <= at && at < size
}

fn nearest_point(desc: &Desc, point: Point) -> Point
    ensures { result ≡ nearest_point desc.now point }
{
    Point {
        x: nearest(desc.width, point.x),
        y: nearest(desc.height, point.y),
    }
}

// The place itself, or the last of so many columns or rows if it lies behind that.
fn nearest(size: i32, at: i32) -> i32
    ensures { result ≡ nearest size at }
{
    if at < size {
        return at;
    }
    if size < 1 {
        return 0;
    }
    size - 1
}

/// A theorem, as a function without a body: each event that a run in a terminal performs can be said by a script for its screen.
pub fn heard_can_be_said()
    ensures { HeardCanBeSaid }
{}
