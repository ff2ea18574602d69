//! Cells of a row.

ghost use Rattle.std.specs.Prelude.{◌≡◌, ◌<◌, length, slice_index_or, ℕ};
ghost use Rattle.tv_cells.specs.Glyph.{blank};

use tv_cells::Cell;

/// Makes all cells the same.
pub(crate) fn fill(cells: &mut [Cell], cell: Cell)
    ensures count { length cells.new ≡ length cells.old }
    ensures each { (i : ℕ) → i < length cells.new → slice_index_or cells.new i blank ≡ cell }
{
    cells.fill(cell);
}
