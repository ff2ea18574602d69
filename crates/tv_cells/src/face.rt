//! Faces, which are painted row by row.

ghost use Rattle.std.specs.Prelude.{◌≡◌, ◌+◌, ◌-◌, ◌≤◌, ◌<◌, ◌^◌, ℕ, IsTrue, length};
ghost use Rattle.tv_cells.specs.Glyph.{Glyph};
ghost use Rattle.tv_cells.specs.Picture.{Changes};
ghost use Rattle.tv_cells.specs.Canvas.{Covers, face_at};
ghost use Rattle.tv_cells.specs.Rectangle.{sized};
ghost use Rattle.tv_cells.specs.Row.{IsRow};

use crate::canvas::Canvas;
use crate::cell::Cell;
use crate::line::distance;
use crate::screen::{RowPart, Screen};

/// What a rectangle shows, cell by cell. Columns and rows count from its corner.
pub trait Face {
    ghost face: { Self → ℕ → ℕ → Glyph };

    /// Returns the cell in a column and a row of the face.
    fn at(&self, x: u32, y: u32) -> Cell
        ensures { result ≡ face self.now x y };

    /// Writes the cells of row `y` of the face, from column `from` on.
    ///
    /// The provided body asks for one cell after another. A face that knows which cells of a row are alike writes those
    /// at once.
    fn row(&self, y: u32, from: u32, cells: &mut [Cell])
        requires { from + length cells.old ≤ 2 ^ 32 }
        ensures count { length cells.new ≡ length cells.old }
        ensures cells { IsRow (λ x. face self.now x y) from cells.new }
    {
        for (i, cell) in cells.iter_mut().enumerate() {
            *cell = self.at(from + i as u32, y);
        }
    }

    /// Whether row `y` of the face is known to have the cells of the row above it.
    ///
    /// The provided body knows it of no row. Rows of which a face knows it are copied, and not written again.
    fn repeats(&self, y: u32) -> bool
        ensures { IsTrue result → (0 < y) × ((x : ℕ) → face self.now x y ≡ face self.now x (y - 1)) }
    {
        false
    }
}

/// Paints a face of this size, with its corner at the canvas's origin.
pub fn paint<F: Face>(screen: &mut Screen, canvas: Canvas, width: u32, height: u32, face: &F)
    ensures { Changes (Covers canvas (sized width height))
        (λ column row _. face_at canvas (F.face face.now) column row) screen.old screen.new }
{
    let area = canvas.face_area(screen, width, height);
    let from = distance(&canvas.origin.x, area.left);
    for row in area.top..area.bottom {
        let y = distance(&canvas.origin.y, row);
        let part = RowPart {
            row,
            left: area.left,
            right: area.right,
        };
        if row > area.top && face.repeats(y) {
            screen.copy_row_above(part);
        } else {
            screen.paint_row(face, y, from, part);
        }
    }
}
