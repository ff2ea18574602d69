//! The colours of the bar and of the status line, which the application alone owns.

ghost use Rattle.std.specs.Prelude.{◌≡◌, [], ◌∷◌};
ghost use Rattle.tv_machine.specs.Screen.Bars.{bar_role, status_role};
ghost use Rattle.tv_palette.specs.Attributes.{attribute_of};
ghost use Rattle.tv_palette.specs.Palettes.{application, colour_in};

use tv_palette::{BarRole, Palette, Role, StatusRole};

// A role's place in its view's palette, and what that leads to in the application's.
fn colour(role: Role) -> u8
    ensures { result ≡ colour_in (application ∷ []) role }
{
    Palette::application().entry(role.palette().entry(role.place()))
}

/// Returns the attribute of a cell of the bar or of a menu's box, by whether its title is open or its item current, and
/// whether it shows the marked letter.
pub(crate) fn bar_colour(is_selected: bool, is_at_letter: bool) -> u8
    ensures { result ≡ attribute_of (Role.Bar (bar_role is_selected is_at_letter)) }
{
    let role = match (is_selected, is_at_letter) {
        (false, false) => BarRole::Normal,
        (false, true) => BarRole::Letter,
        (true, false) => BarRole::Selected,
        (true, true) => BarRole::SelectedLetter,
    };
    colour(Role::Bar(role))
}

/// Returns the attribute of an item of the status line, by whether the item is enabled.
pub(crate) fn status_colour(is_enabled: bool) -> u8
    ensures { result ≡ attribute_of (Role.Status (status_role is_enabled)) }
{
    let role = if is_enabled {
        StatusRole::Normal
    } else {
        StatusRole::Disabled
    };
    colour(Role::Status(role))
}
