//! The part of a rectangle that lies on a screen.

ghost use Rattle.std.specs.Prelude.{◌≡◌, ◌↔◌, ◌≤◌, ◌<◌, ◌≤ℤ◌, ◌<ℤ◌, ℕ, pos, IfSome};
ghost use Rattle.tv_terminal.specs.Written.{cursor_on};

use tv_cells::{Point, Rect};

/// The cells of a row from column `left` on and before `right`.
#[derive(Clone, Copy)]
pub(crate) struct Span {
    pub(crate) row: u32,
    pub(crate) left: u32,
    pub(crate) right: u32,
}

/// Returns the first place of a line of this length that lies between two coordinates, and the first behind these.
pub(crate) fn visible(from: &i32, to: &i32, length: u32) -> (u32, u32)
    ensures within { (result.0 ≤ result.1) × (result.1 ≤ length) }
    ensures places { (p : ℕ) → p < length → ((result.0 ≤ p) × (p < result.1)) ↔ ((from.now ≤ℤ pos p) × (pos p <ℤ to.now)) }
{
    let first = (*from as i64).max(0);
    let last = (*to as i64).min(length as i64);
    if first < last {
        (first as u32, last as u32)
    } else {
        (0, 0)
    }
}

/// Returns the column and the row of a point, where it lies on a screen of this size.
pub(crate) fn on_screen(width: u32, height: u32, point: Option<Point>) -> Option<(u32, u32)>
    requires { (width < 999) × (height < 999) }
    ensures is { result ≡ cursor_on width height point }
    ensures on { IfSome result (λ p. (p.0 < width) × (p.1 < height)) }
{
    let point = point?;
    let origin = Point { x: 0, y: 0 };
    let end = Point {
        x: width as i32,
        y: height as i32,
    };
    if (Rect { a: origin, b: end }).contains(point) {
        Some((point.x as u32, point.y as u32))
    } else {
        None
    }
}
