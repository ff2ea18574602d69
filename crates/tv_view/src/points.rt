//! Where points lie in a control.

ghost use Rattle.std.specs.Prelude.{◌≡◌};
ghost use Rattle.std.specs.Int.{int_gap};
ghost use Rattle.tv_cells.specs.Layers.{is_in};
ghost use Rattle.tv_cells.specs.Rectangle.{IsRectNear};
ghost use Rattle.tv_machine.specs.Screen.Bars.{without_edge};

use tv_cells::{Point, Rect};

/// Whether the rectangle has the point.
pub fn contains(rect: Rect, point: Point) -> bool
    ensures { result ≡ is_in rect point.x point.y }
{
    rect.contains(point)
}

/// Returns a rectangle without the frame around it.
pub fn without_edge(rect: Rect) -> Rect
    requires { IsRectNear rect }
    ensures { result ≡ without_edge rect }
{
    Rect {
        a: rect.a.shift(Point { x: 1, y: 1 }),
        b: rect.b.shift(Point { x: -1, y: -1 }),
    }
}

fn gap(from: &i32, to: &i32) -> u32
    ensures { result ≡ int_gap from.now to.now }
{
    if *from < *to {
        (*to as i64 - *from as i64) as u32
    } else {
        0
    }
}

/// Returns the column of a point, from 0, or 0 for a point left of the rectangle.
pub fn column_of(rect: Rect, point: Point) -> u32
    ensures { result ≡ int_gap rect.a.x point.x }
{
    gap(&rect.a.x, &point.x)
}

/// Returns the row of a point, from 0, or 0 for a point above the rectangle.
pub fn row_of(rect: Rect, point: Point) -> u32
    ensures { result ≡ int_gap rect.a.y point.y }
{
    gap(&rect.a.y, &point.y)
}
