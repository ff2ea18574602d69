//! Which of the windows, from the front, a point or a digit means.

ghost use Rattle.std.specs.Prelude.{◌≡◌, ◌==◌, ◌-◌, ◌+ℤ◌, ◌-ℤ◌, ◌&&◌, if◌then◌else◌, nat_le, None, pos, position};
ghost use Rattle.std.specs.Ordering.{int_eq};
ghost use Rattle.tv_cells.specs.Layers.{is_in};
ghost use Rattle.tv_cells.specs.Rectangle.{IsPointNear, IsRectNear};
ghost use Rattle.tv_cells.specs.declared.rect.Point.{Point as Declared};
ghost use Rattle.tv_faces.specs.Corners.{IsCorner};
ghost use Rattle.tv_machine.specs.Dialog.Mouse.{is_close_mark};
ghost use Rattle.tv_machine.specs.Session.Desktop.{seen_from};
ghost use Rattle.tv_machine.specs.Session.Dragging.{is_grip};
ghost use Rattle.tv_model.specs.Description.Rectangles.{rect};
ghost use Rattle.tv_window.specs.Desk.{hit_on, is_hit};
ghost use Rattle.tv_window.specs.Window.{head_of, window_bounds};

use crate::WindowOf;
use crate::desk::Hit;
use tv_cells::{Point, Rect};
use tv_model::Id;

fn has_point<V>(window: &WindowOf<V>, point: Point) -> bool
    ensures { result ≡ is_in (window_bounds window.now) point.x point.y }
{
    window.bounds().contains(point)
}

/// Finds the topmost window at a point.
pub(crate) fn place_under<V>(windows: &[WindowOf<V>], point: Point) -> Option<usize>
    ensures { result ≡ position (λ window. is_in (window_bounds window) point.x point.y) windows.now }
{
    windows.iter().position(|window| has_point(window, point))
}

fn has_number<V>(window: &WindowOf<V>, number: &i32) -> bool
    ensures { result ≡ int_eq (head_of window.now).number number.now }
{
    window.number() == *number
}

fn place_numbered<V>(windows: &[WindowOf<V>], number: &i32) -> Option<usize>
    ensures { result ≡ position (λ window. int_eq (head_of window).number number.now) windows.now }
{
    windows.iter().position(|window| has_number(window, number))
}

fn has_id<V>(window: &WindowOf<V>, id: Id) -> bool
    ensures { result ≡ ((head_of window.now).id.0 == id.0) }
{
    window.id() == id
}

/// Finds the window of an id.
pub(crate) fn place_of_id<V>(windows: &[WindowOf<V>], id: Id) -> Option<usize>
    ensures { result ≡ position (λ window. (head_of window).id.0 == id.0) windows.now }
{
    windows.iter().position(|window| has_id(window, id))
}

/// Finds the window of a number that is a digit from 1 to 9.
pub(crate) fn place_of_digit<V>(windows: &[WindowOf<V>], digit: char) -> Option<usize>
    ensures { result ≡ (if nat_le 49 digit && nat_le digit 57
        then position (λ window. int_eq (head_of window).number (pos (digit - 48))) windows.now else None) }
{
    match digit {
        '1'..='9' => place_numbered(windows, &(digit as i32 - '0' as i32)),
        _ => None,
    }
}

// The close mark of a window with this corner: columns 2 to 4 of its top row.
fn close_mark(corner: &Point) -> Rect
    requires { IsPointNear corner.now }
    ensures { result ≡ rect (corner.now.x +ℤ pos 2) corner.now.y (pos 3) (pos 1) }
{
    let left = corner.x + 2;
    Rect {
        a: Point {
            x: left,
            y: corner.y,
        },
        b: Point {
            x: left + 3,
            y: corner.y + 1,
        },
    }
}

// Whether the point lies on the close mark of a window with these bounds.
fn is_on_close_mark(bounds: Rect, point: Point) -> bool
    requires { IsRectNear bounds }
    ensures { result ≡ is_close_mark (seen_from bounds.a point) }
{
    close_mark(&bounds.a).contains(point)
}

// The top row of a window with these bounds.
fn top_row(bounds: Rect) -> Rect
    requires { IsRectNear bounds }
    ensures { result ≡ rect bounds.a.x bounds.a.y (bounds.b.x -ℤ bounds.a.x) (pos 1) }
{
    Rect {
        a: bounds.a,
        b: Point {
            x: bounds.b.x,
            y: bounds.a.y + 1,
        },
    }
}

// Whether the point lies on the top row of a window with these bounds, beside the close mark.
fn is_on_grip(bounds: Rect, point: Point) -> bool
    requires { IsRectNear bounds }
    ensures { result ≡ is_grip (bounds.b.x -ℤ bounds.a.x) (seen_from bounds.a point) }
{
    top_row(bounds).contains(point) && !is_on_close_mark(bounds, point)
}

/// Whether anything is left to be done.
pub(crate) fn is_hit(hit: Hit) -> bool
    ensures { result ≡ is_hit hit }
{
    !matches!(hit, Hit::Done)
}

/// Returns what is left to be done after a mouse down on the front window.
pub(crate) fn hit_on<V>(window: &WindowOf<V>, point: Point) -> Hit
    ensures is { result ≡ hit_on window.now point }
    ensures corner { (corner : Declared) → result ≡ Hit.Grip corner → IsCorner corner }
{
    let bounds = window.bounds();
    if is_on_close_mark(bounds, point) {
        Hit::CloseMark
    } else if is_on_grip(bounds, point) {
        Hit::Grip(window.corner.point())
    } else {
        Hit::Done
    }
}
