//! The rectangles that declarations give.

ghost use Rattle.std.specs.Prelude.{◌≡◌, ◌<◌, ◌^◌, ◌+ℤ◌, ◌≤ℤ◌, ◌<ℤ◌, neg_ℤ, pos};
ghost use Rattle.tv_model.specs.Description.Rectangles.{rect, IsSmallRect};

use tv_cells::{Point, Rect};

pub(crate) fn sum(a: &i32, b: &i32) -> i32
    requires low { neg_ℤ (pos (2 ^ 31)) ≤ℤ (a.now +ℤ b.now) }
    requires high { (a.now +ℤ b.now) <ℤ pos (2 ^ 31) }
    ensures { result ≡ a.now +ℤ b.now }
{
    *a + *b
}

/// Returns the rectangle of a corner, a width and a height.
pub fn rect_at(x: &i32, y: &i32, w: &i32, h: &i32) -> Rect
    requires { IsSmallRect (rect x.now y.now w.now h.now) }
    ensures { result ≡ rect x.now y.now w.now h.now }
{
    Rect {
        a: Point { x: *x, y: *y },
        b: Point {
            x: sum(x, w),
            y: sum(y, h),
        },
    }
}
