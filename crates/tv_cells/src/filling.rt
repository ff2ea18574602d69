//! Cells that are all alike.

ghost use Rattle.std.specs.Prelude.{◌≡◌, ◌<◌, ℕ, length, slice_index_or};
ghost use Rattle.tv_cells.specs.Glyph.{blank};

use crate::cell::Cell;

// How many cells are written at a time, in one piece of straight code.
const BLOCK: usize = 16;

/// Writes one cell into all places.
///
/// Whole blocks are written first. The last block ends where the cells end, and may lie over the one before it.
pub fn fill(cells: &mut [Cell], cell: Cell)
    ensures count { length cells.new ≡ length cells.old }
    ensures cells { (i : ℕ) → i < length cells.new → slice_index_or cells.new i blank ≡ cell }
{
    let count = cells.len();
    if count < BLOCK {
        cells.fill(cell);
        return;
    }
    for block in 0..(count - 1) / BLOCK {
        let start = block * BLOCK;
        cells[start..start + BLOCK].fill(cell);
    }
    cells[count - BLOCK..].fill(cell);
}
