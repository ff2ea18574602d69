//! Whether two screens are the same in some rectangles.

ghost use Rattle.std.specs.Prelude.{◌≡◌, ◌≤◌, ◌<◌, pos, true};
ghost use Rattle.tv_cells.specs.Layers.{is_in};
ghost use Rattle.tv_cells.specs.Picture.{IsAlike};
ghost use Rattle.tv_cells.specs.Repainting.{has_cell};
ghost use Rattle.tv_cells.specs.Row.{IsInRow};
ghost use Rattle.tv_terminal.specs.Sameness.{IsSaidSame};

use crate::span::visible;
use tv_cells::{Rect, Screen};

/// Whether two screens of one size are the same in each cell of some rectangles.
pub(crate) fn is_same_in_rects(one: &Screen, other: &Screen, rects: &[Rect]) -> bool
    requires { IsAlike one.now other.now }
    ensures { IsSaidSame (λ column row. has_cell rects.now column row ≡ true) one.now other.now result }
{
    for rect in rects {
        if !is_same_in_rect(one, other, rect) {
            return false;
        }
    }
    true
}

fn is_same_in_rect(one: &Screen, other: &Screen, rect: &Rect) -> bool
    requires { IsAlike one.now other.now }
    ensures { IsSaidSame (λ column row. is_in rect.now (pos column) (pos row) ≡ true) one.now other.now result }
{
    let (left, right) = visible(&rect.a.x, &rect.b.x, one.width());
    let (top, bottom) = visible(&rect.a.y, &rect.b.y, one.height());
    for row in top..bottom {
        if !is_same_in_row(one, other, row, left, right) {
            return false;
        }
    }
    true
}

// The same, from column `left` of a row on and before `right`.
fn is_same_in_row(one: &Screen, other: &Screen, row: u32, left: u32, right: u32) -> bool
    requires size { IsAlike one.now other.now }
    requires across { (left ≤ right) × (right ≤ one.now.width) }
    requires down { row < one.now.height }
    requires small { (right < 999) × (row < 999) }
    ensures { IsSaidSame (IsInRow left right row) one.now other.now result }
{
    for column in left..right {
        if one.get(column, row) != other.get(column, row) {
            return false;
        }
    }
    true
}
