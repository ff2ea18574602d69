//! The titles of menus, side by side in the first row.

ghost use Rattle.std.specs.Prelude.{◌≡◌, ◌≤◌, ◌<◌, ◌+◌, ◌*◌, ◌^◌, All, fold, length, map, option_map, take, ℕ};
ghost use Rattle.tv_machine.specs.Screen.Bars.{columns_of, spot_in, title_of};
ghost use Rattle.tv_model.specs.Description.Limits.{most_menus};
ghost use Rattle.tv_menu.specs.Lawful.{IsLawfulMenu};
ghost use Rattle.tv_menu.specs.Spots.{menu_place};

use crate::spot::columns_of;
use tv_model::Menu;

fn title_columns(menu: &Menu) -> usize
    requires { IsLawfulMenu menu.now }
    ensures is { result ≡ columns_of (title_of menu.now) }
    ensures few { result ≤ 122 }
{
    columns_of(menu.title.text.as_slice())
}

// The menu whose title's cells have a column, which is counted from the first column of the first title, whose place is given.
#[tactic(auto, using(crate::proofs::LawfulLemmas::menus_behind, crate::proofs::LawfulLemmas::menu_ahead))]
fn title_in(menus: &[Menu], place: usize, column: usize) -> Option<usize>
    requires places { place + length menus.now < 2 ^ 64 }
    requires lawful { All IsLawfulMenu menus.now }
    ensures { (first : ℕ) → result ≡ option_map menu_place (spot_in title_of place first menus.now (first + column)) }
{
    let (menu, behind) = menus.split_first()?;
    let columns = title_columns(menu);
    if column < columns {
        Some(place)
    } else {
        title_in(behind, place + 1, column - columns)
    }
}

/// Finds the menu whose title's cells have a column of the bar. Titles begin in column 1.
#[tactic(auto, using(crate::proofs::TitleLemmas::before_titles))]
pub(crate) fn title_in_bar(menus: &[Menu], column: usize) -> Option<usize>
    requires few { length menus.now ≤ most_menus }
    requires lawful { All IsLawfulMenu menus.now }
    ensures { result ≡ option_map menu_place (spot_in title_of 0 1 menus.now column) }
{
    if column == 0 {
        None
    } else {
        title_in(menus, 0, column - 1)
    }
}

/// Adds the columns of the titles before a place to `columns`, and returns the sum.
#[tactic(auto, using(crate::proofs::LawfulLemmas::menus_behind, crate::proofs::LawfulLemmas::menu_ahead))]
pub(crate) fn columns_before(menus: &[Menu], place: usize, columns: usize) -> usize
    requires lawful { All IsLawfulMenu menus.now }
    requires few { columns + 122 * length menus.now < 2 ^ 31 }
    ensures is { result ≡ fold (λ a x. a + x) columns (map (λ menu. columns_of (title_of menu)) (take place menus.now)) }
    ensures few { result ≤ columns + 122 * length menus.now }
{
    match menus.split_first() {
        Some((menu, behind)) if place > 0 => {
            columns_before(behind, place - 1, columns + title_columns(menu))
        }
        _ => columns,
    }
}
