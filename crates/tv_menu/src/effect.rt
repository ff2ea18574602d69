//! What an event is to do to the menu bar.

ghost use Rattle.std.specs.Prelude.{◌≡◌};
ghost use Rattle.tv_machine.specs.Screen.Layers.{open_place};
ghost use Rattle.tv_menu.specs.Damage.{menu_seen};

use tv_event::Command;

/// A menu, by its place in the bar, and the current one of its items, both from 0.
#[derive(Clone, Copy, Debug, PartialEq, Eq)]
pub struct Place {
    pub(crate) menu: usize,
    pub(crate) item: usize,
}

/// Returns the place of the menu, if one is open.
pub(crate) fn menu_of(place: Option<Place>) -> Option<usize>
    ensures { result ≡ open_place (menu_seen place) }
{
    match place {
        Some(current) => Some(current.menu),
        None => None,
    }
}

/// What an event is to do to the menu bar.
#[derive(Clone, Copy, Debug, PartialEq, Eq)]
pub(crate) enum Effect {
    /// Nothing: the event is for another.
    Leaves,
    /// Nothing, but nobody else gets the event.
    Stays,
    /// The menu is open, with this item.
    Shows(Place),
    /// No menu is open.
    Closes,
    /// The menu closes, and the command of its item is to be done.
    Chooses(Command),
}
