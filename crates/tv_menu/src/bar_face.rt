//! The menu bar, cell by cell.

ghost use Rattle.std.specs.Prelude.{◌≡◌, ◌+◌, ◌<◌, ◌≤◌, ◌^◌, length, ℕ};
ghost use Rattle.tv_machine.specs.Screen.Bars.{is_place, spot_in, title_of};
ghost use Rattle.tv_menu.specs.Cells.{ChangesRow, over_spot, title_over};

use crate::colours::bar_colour;
use crate::row::fill;
use crate::spaced_text::SpacedText;
use crate::spot::columns_of;
use tv_cells::{Cell, Face};
use tv_model::Menu;

/// The titles of menus from column 1 on, side by side; the menu at a place may be open.
#[derive(Clone, Copy)]
pub(crate) struct BarFace<'a> {
    pub(crate) menus: &'a [Menu],
    pub(crate) opened: Option<usize>,
}

fn is_place(opened: Option<usize>, place: usize) -> bool
    ensures { result ≡ is_place opened place }
{
    match opened {
        Some(other) => other == place,
        None => false,
    }
}

/// Titles of menus, side by side; the menu at a place may be open.
#[derive(Clone, Copy)]
struct Titles<'a> {
    menus: &'a [Menu],
    /// The place of the first among all menus.
    place: usize,
    /// The column in which the first title begins.
    first: usize,
    opened: Option<usize>,
}

// Writes titles over a row whose first cell stands in the column `from`.
fn write_titles(titles: Titles, from: usize, cells: &mut [Cell])
    requires places { titles.place + length titles.menus.now < 2 ^ 64 }
    requires cells { from + length cells.old ≤ 2 ^ 32 }
    ensures { ChangesRow (λ column. over_spot (title_over titles.entry.opened)
        (spot_in title_of titles.entry.place titles.entry.first titles.entry.menus.now column)) from cells.old cells.new }
{
    let Titles {
        menus,
        place,
        first,
        opened,
    } = titles;
    let Some((menu, behind)) = menus.split_first() else {
        return;
    };
    if first < from + cells.len() {
        let title = SpacedText::of_bar(&menu.title, is_place(opened, place));
        let columns = columns_of(title.text);
        title.write(first, columns, from, cells);
        let rest = Titles {
            menus: behind,
            place: place + 1,
            first: first + columns,
            opened,
        };
        write_titles(rest, from, cells);
    }
}

impl Face for BarFace<'_> {
    ghost use Rattle.tv_machine.specs.Screen.Bars.{spot_in, title_cell, title_of};

    ghost face = { λ f x y. title_cell f.opened (spot_in title_of 0 1 f.menus.now x) };

    fn at(&self, x: u32, y: u32) -> Cell {
        let mut cells = [Cell::space(0)];
        self.row(y, x, &mut cells);
        cells[0]
    }

    fn row(&self, _y: u32, from: u32, cells: &mut [Cell]) {
        fill(cells, Cell::space(bar_colour(false, false)));
        let titles = Titles {
            menus: self.menus,
            place: 0,
            first: 1,
            opened: self.opened,
        };
        write_titles(titles, from as usize, cells);
    }
}
