//! Keys and mouse downs at the menu bar.

ghost use Rattle.std.specs.Prelude.{◌≡◌, All, Some, slice_get};
ghost use Rattle.tv_machine.specs.State.{State};
ghost use Rattle.tv_machine.specs.Session.Menu.{choose_at, items_of_menu, menu_key, title_at, title_of_letter};
ghost use Rattle.tv_machine.specs.Screen.Bars.{title_under};
ghost use Rattle.tv_model.specs.declared.desc.Desc.{Desc as Declared};
ghost use Rattle.tv_menu.specs.Bar.{IsBarOf, down_offered, key_offered, made, open_of, opening, seen_place};
ghost use Rattle.tv_menu.specs.Lawful.{IsLawfulItem};

use crate::bars::MenuBar;
use crate::effect::{Effect, Place};
use crate::menus::{
    command_of, item_at, item_of_letter, menu_at, place_after, place_before, title_of_letter, upper,
};
use crate::spot::has_column;
use crate::titles::title_in_bar;
use tv_cells::Point;
use tv_event::Key;
use tv_model::{MenuItem, natural};

// The menu opens with its first item.
fn opens(menu: Option<usize>) -> Effect
    ensures { (d : Declared) (s : State) → made d result s ≡ opening menu s }
{
    match menu {
        Some(menu) => Effect::Shows(Place { menu, item: 0 }),
        None => Effect::Leaves,
    }
}

impl MenuBar {
    pub(crate) fn key_effect(&self, key: Key) -> Effect
        ensures { (d : Declared) (s : State) → IsBarOf d self.now → made d result s ≡ key_offered d (open_of self.now) key s }
    {
        match (self.open, key) {
            (Some(current), _) => self.open_key(current, key),
            (None, Key::Alt(letter)) => opens(self.title_of_letter(letter)),
            _ => Effect::Leaves,
        }
    }

    // A key while a menu is open.
    fn open_key(&self, current: Place, key: Key) -> Effect
        ensures { (d : Declared) (s : State) → IsBarOf d self.now → made d result s ≡ Some (menu_key d (seen_place current) key s) }
    {
        let items = self.items(current.menu);
        let count = self.menus.as_slice().len();
        match key {
            Key::Left => opens(Some(place_before(count, current.menu))),
            Key::Right => opens(Some(place_after(count, current.menu))),
            Key::Up => Effect::Shows(Place {
                menu: current.menu,
                item: place_before(items.len(), current.item),
            }),
            Key::Down => Effect::Shows(Place {
                menu: current.menu,
                item: place_after(items.len(), current.item),
            }),
            Key::Enter => self.chosen(current, Some(current.item)),
            Key::Esc => Effect::Closes,
            Key::Char(ch) => self.chosen(current, item_of_letter(items, upper(ch))),
            Key::Alt(letter) => self.chosen(current, item_of_letter(items, letter)),
            _ => Effect::Stays,
        }
    }

    // The item at a place of the open menu is chosen.
    fn chosen(&self, current: Place, place: Option<usize>) -> Effect
        ensures { (d : Declared) (s : State) → IsBarOf d self.now → made d result s ≡ Some (choose_at d (seen_place current) place s) }
    {
        let Some(place) = place else {
            return Effect::Stays;
        };
        match item_at(self.items(current.menu), place) {
            Some(item) => Effect::Chooses(command_of(item)),
            None => Effect::Stays,
        }
    }

    pub(crate) fn down_effect(&self, point: Point) -> Effect
        ensures { (d : Declared) (s : State) → IsBarOf d self.now → made d result s ≡ down_offered d (open_of self.now) point s }
    {
        match (self.title_at(point), self.open) {
            (Some(menu), _) => opens(Some(menu)),
            (None, Some(current)) => match self.item_under(current.menu, point) {
                Some(item) => self.chosen(current, Some(item)),
                None => Effect::Closes,
            },
            (None, None) => Effect::Leaves,
        }
    }

    // The items of the menu at a place.
    fn items(&self, place: usize) -> &[MenuItem]
        ensures is { (d : Declared) → IsBarOf d self.now → result.now ≡ items_of_menu (slice_get d.menus place) }
        ensures lawful { All IsLawfulItem result.now }
    {
        match menu_at(self.menus.as_slice(), place) {
            Some(menu) => menu.items.as_slice(),
            None => &[],
        }
    }

    // The menu whose title marks the letter.
    fn title_of_letter(&self, letter: char) -> Option<usize>
        ensures { (d : Declared) → IsBarOf d self.now → result ≡ title_of_letter d letter }
    {
        title_of_letter(self.menus.as_slice(), letter)
    }

    // The menu whose title is at the point.
    fn title_at(&self, point: Point) -> Option<usize>
        ensures { (d : Declared) → IsBarOf d self.now → result ≡ title_at d point }
    {
        if point.y == 0 {
            self.title_under(&point.x)
        } else {
            None
        }
    }

    // The menu whose title's cells have the column.
    fn title_under(&self, column: &i32) -> Option<usize>
        ensures { (d : Declared) → IsBarOf d self.now → result ≡ title_under d column.now }
    {
        if !has_column(column, &self.width) {
            return None;
        }
        title_in_bar(self.menus.as_slice(), natural(column) as usize)
    }
}
