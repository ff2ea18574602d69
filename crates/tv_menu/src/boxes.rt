//! The box of the open menu: where it stands.

ghost use Rattle.std.specs.Prelude.{◌≡◌, ◌≤◌, All, fold, length, map, max, option_map, pos, ◌-ℤ◌};
ghost use Rattle.tv_cells.specs.Rectangle.{IsRectNear};
ghost use Rattle.tv_cells.specs.Layers.{is_in};
ghost use Rattle.tv_machine.specs.Screen.Bars.{box_height, box_of, box_width, menu_item_text, item_under, title_column};
ghost use Rattle.tv_model.specs.declared.desc.Desc.{Desc as Declared};
ghost use Rattle.tv_model.specs.Description.Numbers.{IsBetween, natural};
ghost use Rattle.tv_model.specs.Description.Rectangles.{desktop, rect};
ghost use Rattle.tv_menu.specs.Bar.{IsBarOf, open_of};
ghost use Rattle.tv_menu.specs.Lawful.{IsLawfulItem, IsLawfulMenu};

use crate::bars::MenuBar;
use crate::menus::menu_at;
use crate::titles::columns_before;
use tv_cells::{Point, Rect};
use tv_faces::rect_at;
use tv_model::{Menu, MenuItem};
use tv_view::{contains, without_edge};

fn text_columns(item: &MenuItem) -> usize
    requires { IsLawfulItem item.now }
    ensures is { result ≡ length (menu_item_text item.now) }
    ensures few { result ≤ 120 }
{
    item.text.text.as_slice().len()
}

// The columns of the longest item, or `columns` where that is more.
#[tactic(auto, using(crate::proofs::LawfulLemmas::menu_items_behind, crate::proofs::LawfulLemmas::menu_item_ahead))]
fn longest(items: &[MenuItem], columns: usize) -> usize
    requires lawful { All IsLawfulItem items.now }
    requires few { columns ≤ 120 }
    ensures is { result ≡ fold max columns (map (λ item. length (menu_item_text item)) items.now) }
    ensures few { result ≤ 120 }
{
    match items.split_first() {
        Some((item, behind)) => longest(behind, columns.max(text_columns(item))),
        None => columns,
    }
}

/// Returns how many columns a menu's box has.
pub(crate) fn box_width(menu: &Menu) -> u32
    requires { IsLawfulMenu menu.now }
    ensures is { result ≡ box_width menu.now }
    ensures few { result ≤ 124 }
{
    longest(menu.items.as_slice(), 0) as u32 + 4
}

/// Returns how many rows a menu's box has.
pub(crate) fn box_height(menu: &Menu) -> u32
    requires { IsLawfulMenu menu.now }
    ensures is { result ≡ box_height menu.now }
    ensures few { result ≤ 18 }
{
    menu.items.as_slice().len() as u32 + 2
}

// The rectangle of a width and a height in row 1.
fn below_bar(column: &i32, width: u32, height: u32) -> Rect
    requires column { IsBetween (pos 0) (pos 1000) column.now }
    requires width { width ≤ 124 }
    requires height { height ≤ 18 }
    ensures is { result ≡ rect column.now (pos 1) (pos width) (pos height) }
    ensures near { IsRectNear result }
{
    Rect {
        a: Point { x: *column, y: 1 },
        b: Point {
            x: *column + width as i32,
            y: 1 + height as i32,
        },
    }
}

// The rows between two rows, the second below the first.
fn rows_between(above: &i32, below: &i32) -> i64
    ensures { result ≡ (below.now -ℤ above.now -ℤ pos 1) }
{
    *below as i64 - *above as i64 - 1
}

fn natural(number: &i64) -> usize
    ensures { result ≡ natural number.now }
{
    if *number < 0 { 0 } else { *number as usize }
}

impl MenuBar {
    /// Returns the box of the open menu on the screen, without its shadow, or `None` exactly while no menu is open. The
    /// screen need not have room for it.
    pub fn box_bounds(&self) -> Option<Rect>
        ensures { (d : Declared) → IsBarOf d self.now → result ≡ option_map (λ current. box_of d current.menu) (open_of self.now) }
    {
        match self.open {
            Some(current) => Some(self.box_of(current.menu)),
            None => None,
        }
    }

    // The box of the menu at a place; no cell where there is none.
    pub(crate) fn box_of(&self, place: usize) -> Rect
        ensures is { (d : Declared) → IsBarOf d self.now → result ≡ box_of d place }
        ensures near { IsRectNear result }
    {
        match menu_at(self.menus.as_slice(), place) {
            Some(menu) => below_bar(&self.title_column(place), box_width(menu), box_height(menu)),
            None => Rect {
                a: Point { x: 0, y: 0 },
                b: Point { x: 0, y: 0 },
            },
        }
    }

    // The first column of the title at a place.
    fn title_column(&self, place: usize) -> i32
        ensures is { (d : Declared) → IsBarOf d self.now → result ≡ pos (title_column d place) }
        ensures few { IsBetween (pos 0) (pos 1000) result }
    {
        1 + columns_before(self.menus.as_slice(), place, 0) as i32
    }

    /// Finds the item of the menu at a place in whose row the point lies, between the sides of the box and on the
    /// desktop.
    pub(crate) fn item_under(&self, place: usize, point: Point) -> Option<usize>
        ensures { (d : Declared) → IsBarOf d self.now → result ≡ item_under d place point }
    {
        let bounds = self.box_of(place);
        if self.is_on_desktop(point) && contains(without_edge(bounds), point) {
            Some(natural(&rows_between(&bounds.a.y, &point.y)))
        } else {
            None
        }
    }

    // Whether the point lies between the first and the last row.
    fn is_on_desktop(&self, point: Point) -> bool
        ensures { (d : Declared) → IsBarOf d self.now → result ≡ is_in (desktop d) point.x point.y }
    {
        contains(rect_at(&0, &1, &self.width, &self.desktop_rows()), point)
    }

    fn desktop_rows(&self) -> i32
        ensures is { (d : Declared) → IsBarOf d self.now → result ≡ (d.height -ℤ pos 2) }
        ensures few { IsBetween (pos 8) (pos 58) result }
    {
        self.height - 2
    }
}
