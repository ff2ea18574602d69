//! Points and rectangles.

ghost use Rattle.std.specs.Prelude.{◌≡◌, ◌↔◌, IsTrue, ℤ, ◌+ℤ◌};
ghost use Rattle.std.specs.Int.{int_gap};
ghost use Rattle.tv_cells.specs.Damage.{hull, is_part};
ghost use Rattle.tv_cells.specs.Rectangle.{IsEmpty, IsIn, cut, IsPointNear, IsRectNear, shifted, shifted_point};

use crate::line::{gap, greater, has_span, is_between, lesser};

/// A point of the plane that the screen is a part of. Columns count to the right, rows down.
#[derive(Clone, Copy, Debug, Default, PartialEq, Eq)]
pub struct Point {
    pub x: i32,
    pub y: i32,
}

impl Point {
    /// Returns the point, moved by the coordinates of another.
    pub fn shift(&self, by: Point) -> Point
        requires point { IsPointNear self.now }
        requires by { IsPointNear by }
        ensures { result ≡ shifted_point self.now by }
    {
        Point {
            x: self.x + by.x,
            y: self.y + by.y,
        }
    }
}

/// A rectangle, half open: it has the column of `a` and lacks that of `b`, and its rows likewise.
///
/// Where a coordinate of `b` isn't greater than that of `a`, the rectangle is empty.
#[derive(Clone, Copy, Debug, Default, PartialEq, Eq)]
pub struct Rect {
    pub a: Point,
    pub b: Point,
}

impl Rect {
    /// Whether the point lies in the rectangle.
    pub fn contains(&self, point: Point) -> bool
        ensures { IsTrue result ↔ IsIn self.now point.x point.y }
    {
        is_between(&self.a.x, &point.x, &self.b.x) && is_between(&self.a.y, &point.y, &self.b.y)
    }

    /// Whether no point lies in the rectangle.
    pub fn is_empty(&self) -> bool
        ensures { IsTrue result ↔ IsEmpty self.now }
    {
        self.width() == 0 || self.height() == 0
    }

    /// Returns the rectangle of the points that lie in both.
    pub fn intersect(&self, other: Rect) -> Rect
        ensures corners { result ≡ cut self.now other }
        ensures points { (x y : ℤ) → IsIn result x y ↔ (IsIn self.now x y × IsIn other x y) }
    {
        Rect {
            a: Point {
                x: greater(&self.a.x, &other.a.x),
                y: greater(&self.a.y, &other.a.y),
            },
            b: Point {
                x: lesser(&self.b.x, &other.b.x),
                y: lesser(&self.b.y, &other.b.y),
            },
        }
    }

    /// Returns the rectangle, moved by the coordinates of a point.
    pub fn shift(&self, by: Point) -> Rect
        requires rect { IsRectNear self.now }
        requires by { IsPointNear by }
        ensures corners { result ≡ shifted self.now by }
        ensures points { (x y : ℤ) → IsIn result (x +ℤ by.x) (y +ℤ by.y) ↔ IsIn self.now x y }
    {
        Rect {
            a: self.a.shift(by),
            b: self.b.shift(by),
        }
    }

    /// Returns how many columns the rectangle has, which is 0 where `b` isn't right of `a`.
    pub fn width(&self) -> u32
        ensures { result ≡ int_gap self.now.a.x self.now.b.x }
    {
        gap(&self.a.x, &self.b.x)
    }

    /// Returns how many rows the rectangle has, which is 0 where `b` isn't below `a`.
    pub fn height(&self) -> u32
        ensures { result ≡ int_gap self.now.a.y self.now.b.y }
    {
        gap(&self.a.y, &self.b.y)
    }

    /// Whether the corners of another rectangle lie in this one.
    pub fn has_part(&self, other: Rect) -> bool
        ensures { result ≡ is_part other self.now }
    {
        has_span(&self.a.x, &self.b.x, &other.a.x, &other.b.x)
            && has_span(&self.a.y, &self.b.y, &other.a.y, &other.b.y)
    }

    /// Returns the smallest rectangle that has the points of both, if neither is empty.
    pub fn hull(&self, other: Rect) -> Rect
        ensures { result ≡ hull self.now other }
    {
        Rect {
            a: Point {
                x: lesser(&self.a.x, &other.a.x),
                y: lesser(&self.a.y, &other.a.y),
            },
            b: Point {
                x: greater(&self.b.x, &other.b.x),
                y: greater(&self.b.y, &other.b.y),
            },
        }
    }
}
