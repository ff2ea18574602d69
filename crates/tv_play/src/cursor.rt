//! Where the cursor of a terminal goes.

ghost use Rattle.std.specs.Prelude.{◌≡◌, ◌≤◌, ◌<◌, ℕ, false, IfNone, IfSome};
ghost use Rattle.tv_cells.specs.Picture.{cell_at};
ghost use Rattle.tv_play.specs.Cursor.{FindsCursor, IsCursorAt, is_cursor};

use tv_cells::{Cell, Point, Rect, Screen};

/// The colours of an input's cursor, which no other cell has.
const CURSOR: u8 = 0x4f;

/// Finds the cursor of the focused input, where it shows on the screen. It is looked for in these rectangles first.
pub fn find_cursor(screen: &Screen, first: &[Rect]) -> Option<Point>
    ensures { FindsCursor screen.now result }
{
    match find_in_rects(screen, first) {
        Some(point) => Some(point),
        None => find_in_all(screen),
    }
}

fn find_in_rects(screen: &Screen, rects: &[Rect]) -> Option<Point>
    ensures { IfSome result (λ point. IsCursorAt screen.now point) }
{
    rects.iter().find_map(|rect| find_in_rect(screen, rect))
}

fn find_in_rect(screen: &Screen, rect: &Rect) -> Option<Point>
    ensures { IfSome result (λ point. IsCursorAt screen.now point) }
{
    let (left, right) = on_line(rect.a.x, rect.b.x, screen.width());
    let (top, bottom) = on_line(rect.a.y, rect.b.y, screen.height());
    for row in top..bottom {
        let point = find_in_row(screen, row, left, right);
        if point.is_some() {
            return point;
        }
    }
    None
}

// The first place of a line of this length that isn't before a coordinate, and the end of the places before another.
fn on_line(from: i32, to: i32, length: u32) -> (u32, u32)
    ensures { result.1 ≤ length }
{
    let first = u32::try_from(from).unwrap_or(0);
    let end = u32::try_from(to).unwrap_or(0).min(length);
    (first, end)
}

fn find_in_all(screen: &Screen) -> Option<Point>
    ensures { FindsCursor screen.now result }
{
    for row in 0..screen.height() {
        let point = find_in_row(screen, row, 0, screen.width());
        if point.is_some() {
            return point;
        }
    }
    None
}

// Finds it in a row, from column `left` on and before `right`.
fn find_in_row(screen: &Screen, row: u32, left: u32, right: u32) -> Option<Point>
    requires across { right ≤ screen.now.width }
    requires down { row < screen.now.height }
    requires small { (right < 999) × (row < 999) }
    ensures found { IfSome result (λ point. IsCursorAt screen.now point) }
    ensures none { IfNone result ((column : ℕ) → left ≤ column → column < right → is_cursor (cell_at screen.now column row) ≡ false) }
{
    for column in left..right {
        if is_cursor(screen.get(column, row)) {
            return Some(Point {
                x: column as i32,
                y: row as i32,
            });
        }
    }
    None
}

fn is_cursor(cell: Cell) -> bool
    ensures { result ≡ is_cursor cell }
{
    cell.attr() == CURSOR
}
