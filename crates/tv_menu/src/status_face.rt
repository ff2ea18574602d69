//! The status line, cell by cell.

ghost use Rattle.std.specs.Prelude.{◌≡◌, ◌+◌, ◌<◌, ◌≤◌, ◌^◌, All, length, ℕ};
ghost use Rattle.tv_machine.specs.Screen.Bars.{spot_in, status_text};
ghost use Rattle.tv_menu.specs.Cells.{ChangesRow, item_over, over_spot};
ghost use Rattle.tv_menu.specs.Lawful.{AreLawfulStatusItems, IsLawfulStatusItem};

use crate::colours::status_colour;
use crate::row::fill;
use crate::spaced_text::SpacedText;
use crate::spot::columns_of;
use crate::status::is_enabled;
use tv_cells::{Cell, Face};
use tv_event::CommandSet;
use tv_model::StatusItem;

/// The items of the status line from column 0 on, side by side.
#[derive(Clone, Copy)]
pub(crate) struct StatusFace<'a> {
    pub(crate) items: &'a [StatusItem],
    pub(crate) enabled: &'a CommandSet,
    ghost lawful: { AreLawfulStatusItems items.now },
}

// Writes items over a row whose first cell stands in the column `from`. The first item begins in the column `first`.
fn write_items(
    items: &[StatusItem],
    first: usize,
    enabled: &CommandSet,
    from: usize,
    cells: &mut [Cell],
)
    requires lawful { All IsLawfulStatusItem items.now }
    requires cells { from + length cells.old ≤ 2 ^ 32 }
    ensures { (place : ℕ)
        → ChangesRow (λ column. over_spot (item_over enabled.now)
        (spot_in status_text place first items.now column)) from cells.old cells.new }
{
    let Some((item, behind)) = items.split_first() else {
        return;
    };
    if first < from + cells.len() {
        let attr = status_colour(is_enabled(item, enabled));
        let text = SpacedText {
            text: item.text.as_slice(),
            mark: None,
            rest: attr,
            letter: attr,
        };
        let columns = columns_of(text.text);
        text.write(first, columns, from, cells);
        write_items(behind, first + columns, enabled, from, cells);
    }
}

impl Face for StatusFace<'_> {
    ghost use Rattle.tv_machine.specs.Screen.Bars.{spot_in, status_cell, status_text};
    ghost use Rattle.tv_menu.specs.Cells.{is_item_in};

    ghost face = { λ f x y. status_cell (is_item_in f.enabled.now) (spot_in status_text 0 0 f.items.now x) };

    fn at(&self, x: u32, y: u32) -> Cell {
        let mut cells = [Cell::space(0)];
        self.row(y, x, &mut cells);
        cells[0]
    }

    fn row(&self, _y: u32, from: u32, cells: &mut [Cell]) {
        fill(cells, Cell::space(status_colour(true)));
        write_items(self.items, 0, self.enabled, from as usize, cells);
    }
}
