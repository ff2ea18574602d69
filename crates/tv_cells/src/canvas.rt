//! A clip and an origin, through which cells are put.

ghost use Rattle.std.specs.Prelude.{◌≡◌, ◌↔◌, ◌≤◌, ◌<◌, ◌≤ℤ◌, ◌<ℤ◌, IfSome, IfNone, ℕ, pos};
ghost use Rattle.tv_cells.specs.Glyph.{shaded};
ghost use Rattle.tv_cells.specs.Rectangle.{IsIn, IsPointNear, IsRectNear, sized};
ghost use Rattle.tv_cells.specs.Picture.{Changes, IsOn, IsScreenSize};
ghost use Rattle.tv_cells.specs.Canvas.{Covers, IsAt, IsInArea, IsShadow, sub};

use crate::cell::Cell;
use crate::line::{greater, place, visible};
use crate::rect::{Point, Rect};
use crate::screen::{RowPart, Screen};

/// Where cells are put: at places that are seen from an origin, and inside a clip.
///
/// Outside the clip and outside the screen a drawing changes nothing.
#[derive(Clone, Copy, Debug, PartialEq, Eq)]
pub struct Canvas {
    /// The points that may change, in the screen's coordinates.
    pub clip: Rect,
    /// The point of the screen from which places are seen.
    pub origin: Point,
}

/// Columns of a screen from `left` on and before `right`, and rows from `top` on and before `bottom`.
#[derive(Clone, Copy)]
pub(crate) struct Area {
    pub(crate) left: u32,
    pub(crate) right: u32,
    pub(crate) top: u32,
    pub(crate) bottom: u32,
}

impl Canvas {
    /// Makes the canvas of a rectangle that is seen from the origin: cuts the clip to it, and moves the origin to its
    /// corner.
    pub fn sub(self, rect: Rect) -> Canvas
        requires origin { IsPointNear self.origin }
        requires rect { IsRectNear rect }
        ensures { result ≡ sub self rect }
    {
        Canvas {
            clip: self.clip.intersect(rect.shift(self.origin)),
            origin: rect.a.shift(self.origin),
        }
    }

    /// Puts a cell at a point that is seen from the origin.
    #[inline]
    pub fn put(self, screen: &mut Screen, x: i32, y: i32, cell: Cell)
        ensures { Changes (IsAt self x y) (λ _ _ _. cell) screen.old screen.new }
    {
        if let Some((column, row)) = self.find(screen, &x, &y) {
            screen.set(column, row, cell);
        }
    }

    /// Gives attribute 08, that of shadows, to the cells of a rectangle that is seen from the origin. Their characters
    /// stay.
    pub fn shade(self, screen: &mut Screen, rect: Rect)
        ensures { Changes (Covers self rect) (λ _ _ under. shaded under) screen.old screen.new }
    {
        let x = self.origin.x as i64;
        let y = self.origin.y as i64;
        let start = (rect.a.x as i64 + x, rect.a.y as i64 + y);
        let end = (rect.b.x as i64 + x, rect.b.y as i64 + y);
        let area = self.area(screen, start, end);
        for row in area.top..area.bottom {
            screen.shade_row(RowPart {
                row,
                left: area.left,
                right: area.right,
            });
        }
    }

    /// Shades the cells on which the shadow of a rectangle falls. The rectangle is seen from the origin.
    pub fn cast_shadow(self, screen: &mut Screen, rect: Rect)
        requires { IsRectNear rect }
        ensures { Changes (IsShadow self rect) (λ _ _ under. shaded under) screen.old screen.new }
    {
        let moved = rect.shift(Point { x: 2, y: 1 });
        let edge = greater(&moved.a.x, &rect.b.x);
        let right = Rect {
            a: Point {
                x: edge,
                y: moved.a.y,
            },
            b: moved.b,
        };
        let below = Rect {
            a: Point {
                x: moved.a.x,
                y: greater(&moved.a.y, &rect.b.y),
            },
            b: Point {
                x: edge,
                y: moved.b.y,
            },
        };
        self.shade(screen, right);
        self.shade(screen, below);
    }

    // The columns and rows of the screen that a face of this size covers, with its corner at the origin.
    pub(crate) fn face_area(self, screen: &Screen, width: u32, height: u32) -> Area
        ensures across { (result.left ≤ result.right) × (result.right ≤ screen.now.width) }
        ensures down { (result.top ≤ result.bottom) × (result.bottom ≤ screen.now.height) }
        ensures small { IsScreenSize screen.now.width screen.now.height }
        ensures places { (column row : ℕ) → IsOn screen.now column row → IsInArea result column row
            ↔ Covers self (sized width height) column row }
    {
        let start = (self.origin.x as i64, self.origin.y as i64);
        let end = (start.0 + width as i64, start.1 + height as i64);
        self.area(screen, start, end)
    }

    // The columns and rows of the screen between two corners and inside the clip. The corners may lie too far away for a `Point`.
    pub(crate) fn area(self, screen: &Screen, start: (i64, i64), end: (i64, i64)) -> Area
        ensures across { (result.left ≤ result.right) × (result.right ≤ screen.now.width) }
        ensures down { (result.top ≤ result.bottom) × (result.bottom ≤ screen.now.height) }
        ensures small { IsScreenSize screen.now.width screen.now.height }
        ensures places { (column row : ℕ) → IsOn screen.now column row → IsInArea result column row
            ↔ (IsIn self.clip (pos column) (pos row) × (start.0 ≤ℤ pos column) × (pos column <ℤ end.0)
            × (start.1 ≤ℤ pos row) × (pos row <ℤ end.1)) }
    {
        let clip = self.clip;
        let (left, right) = visible(&clip.a.x, &clip.b.x, screen.width(), &start.0, &end.0);
        let (top, bottom) = visible(&clip.a.y, &clip.b.y, screen.height(), &start.1, &end.1);
        Area {
            left,
            right,
            top,
            bottom,
        }
    }

    // The column and the row of a point that is seen from the origin, where it may change.
    #[inline]
    fn find(self, screen: &Screen, x: &i32, y: &i32) -> Option<(u32, u32)>
        ensures some { IfSome result (λ p. IsOn screen.now p.0 p.1 × IsAt self x.now y.now p.0 p.1) }
        ensures none { IfNone result ((column row : ℕ) → IsOn screen.now column row → IsAt self x.now y.now column row → ⊥) }
    {
        let column = place(
            &self.clip.a.x,
            &self.clip.b.x,
            screen.width(),
            &self.origin.x,
            x,
        )?;
        let row = place(
            &self.clip.a.y,
            &self.clip.b.y,
            screen.height(),
            &self.origin.y,
            y,
        )?;
        Some((column, row))
    }
}
