//! The box of a menu, cell by cell.

ghost use Rattle.std.specs.Prelude.{◌≡◌, ◌+◌, ◌-◌, ◌<◌, ◌≤◌, ◌^◌, if◌then◌else◌, false, length, option_copied, slice_get, slice_index_or, ℕ};
ghost use Rattle.tv_cells.specs.Glyph.{blank};
ghost use Rattle.tv_cells.specs.Row.{IsRow};
ghost use Rattle.tv_machine.specs.Screen.Bars.{bar_cell, box_width, item_cell};
ghost use Rattle.tv_model.specs.Screen.Faces.{border, is_side};
ghost use Rattle.tv_palette.specs.declared.role.BarRole.TheVariants as bar;
ghost use Rattle.tv_menu.specs.Cells.{ChangesRow};

use crate::colours::bar_colour;
use crate::row::fill;
use crate::spaced_text::SpacedText;
use tv_cells::{Cell, Face};
use tv_model::{Menu, MenuItem};

/// The box of a menu with its current item.
#[derive(Clone, Copy)]
pub(crate) struct BoxFace<'a> {
    pub(crate) menu: &'a Menu,
    /// The place of the item, from 0.
    pub(crate) current: usize,
    pub(crate) width: u32,
    ghost wide: { width ≡ box_width menu.now },
}

// Writes a cell at both sides of a row of so many columns, whose first cell stands in the column `from`.
fn write_sides(width: usize, side: Cell, from: usize, cells: &mut [Cell])
    requires { from + length cells.old ≤ 2 ^ 32 }
    ensures { ChangesRow (λ column under. if is_side width column then side else under) from cells.old cells.new }
{
    if from == 0 && !cells.is_empty() {
        cells[0] = side;
    }
    if width > from {
        let last = width - 1 - from;
        if last < cells.len() {
            cells[last] = side;
        }
    }
}

// Writes the first row of a box of so many columns, or the last one.
fn write_edge(width: usize, from: usize, cells: &mut [Cell])
    requires { from + length cells.old ≤ 2 ^ 32 }
    ensures count { length cells.new ≡ length cells.old }
    ensures cells { IsRow (λ x. bar_cell (border false width x) bar.Normal) from cells.new }
{
    let attr = bar_colour(false, false);
    fill(cells, Cell::shown('-', attr));
    write_sides(width, Cell::shown('+', attr), from, cells);
}

// Writes what stands between the sides of any other row: an item, if there is one.
fn write_inside(item: Option<&MenuItem>, is_current: bool, from: usize, cells: &mut [Cell])
    requires { from + length cells.old ≤ 2 ^ 32 }
    ensures count { length cells.new ≡ length cells.old }
    ensures cells { (i : ℕ) → i < length cells.new → 0 < from + i
        → slice_index_or cells.new i blank ≡ item_cell is_current (option_copied item.entry) (from + i - 1) }
{
    match item {
        Some(item) => {
            let text = SpacedText::of_bar(&item.text, is_current);
            text.write(1, from + cells.len(), from, cells);
        }
        None => fill(cells, Cell::shown(' ', bar_colour(false, false))),
    }
}

// Writes a row of the box with its sides.
fn write_item(
    item: Option<&MenuItem>,
    is_current: bool,
    width: usize,
    from: usize,
    cells: &mut [Cell],
)
    requires { from + length cells.old ≤ 2 ^ 32 }
    ensures count { length cells.new ≡ length cells.old }
    ensures cells { IsRow
        (λ x. if is_side width x then bar_cell 124 bar.Normal
        else item_cell is_current (option_copied item.entry) (x - 1)) from cells.new }
{
    write_inside(item, is_current, from, cells);
    write_sides(
        width,
        Cell::shown('|', bar_colour(false, false)),
        from,
        cells,
    );
}

fn item_at(items: &[MenuItem], place: usize) -> Option<&MenuItem>
    ensures { option_copied result ≡ slice_get items.now place }
{
    items.get(place)
}

impl Face for BoxFace<'_> {
    ghost use Rattle.tv_machine.specs.Screen.Bars.{box_face};

    ghost face = { λ f. box_face f.menu.now f.current };

    fn at(&self, x: u32, y: u32) -> Cell {
        let mut cells = [Cell::space(0)];
        self.row(y, x, &mut cells);
        cells[0]
    }

    fn row(&self, y: u32, from: u32, cells: &mut [Cell]) {
        let items = self.menu.items.as_slice();
        let width = self.width as usize;
        let from = from as usize;
        let y = y as usize;
        if y == 0 || y + 1 == items.len() + 2 {
            write_edge(width, from, cells);
        } else {
            let place = y - 1;
            let is_current = place == self.current;
            write_item(item_at(items, place), is_current, width, from, cells);
        }
    }
}
