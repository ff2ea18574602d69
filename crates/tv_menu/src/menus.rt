//! Menus and their items, by places from 0 and by letters.

ghost use Rattle.std.specs.Prelude.{◌≡◌, All, IfOk, IfSome, option_copied, position, slice_get};
ghost use Rattle.tv_machine.specs.Session.Menu.{item_of_letter, place_after, place_before};
ghost use Rattle.tv_model.specs.Description.Commands.{command_number};
ghost use Rattle.tv_model.specs.Description.Marks.{marks, upper};
ghost use Rattle.tv_menu.specs.Lawful.{IsLawfulItem, IsLawfulMenu};

use std::alloc::{AllocError, Global};
use tv_event::Command;
use tv_model::{Menu, MenuItem};

fn copy_item(item: &MenuItem, alloc: Global) -> Result<MenuItem, AllocError>
    ensures { IfOk result (λ copy. copy ≡ item.now) }
{
    Ok(MenuItem {
        id: item.id,
        text: item.text.copy(alloc)?,
        command: item.command,
    })
}

pub(crate) fn copy_menu(menu: &Menu, alloc: Global) -> Result<Menu, AllocError>
    ensures { IfOk result (λ copy. copy ≡ menu.now) }
{
    Ok(Menu {
        id: menu.id,
        title: menu.title.copy(alloc)?,
        items: menu.items.copy_by(alloc, copy_item)?,
    })
}

/// Returns the menu at a place of lawful ones.
pub(crate) fn menu_at(menus: &[Menu], place: usize) -> Option<&Menu>
    requires { All IsLawfulMenu menus.now }
    ensures is { option_copied result ≡ slice_get menus.now place }
    ensures lawful { IfSome result (λ menu. IsLawfulMenu menu.now) }
{
    menus.get(place)
}

/// Returns the item at a place of lawful ones.
pub(crate) fn item_at(items: &[MenuItem], place: usize) -> Option<&MenuItem>
    requires { All IsLawfulItem items.now }
    ensures is { option_copied result ≡ slice_get items.now place }
    ensures lawful { IfSome result (λ item. IsLawfulItem item.now) }
{
    items.get(place)
}

/// Returns the command that an item gives.
#[tactic(auto, using(crate::proofs::CommandLemmas::lawful_command))]
pub(crate) fn command_of(item: &MenuItem) -> Command
    requires { IsLawfulItem item.now }
    ensures { result.0 ≡ command_number item.now.command }
{
    item.command.command()
}

/// Returns the place before one of so many, cyclically.
pub(crate) fn place_before(count: usize, place: usize) -> usize
    ensures { result ≡ place_before count place }
{
    if place == 0 {
        count.saturating_sub(1)
    } else {
        place - 1
    }
}

/// Returns the place after one of so many, cyclically.
pub(crate) fn place_after(count: usize, place: usize) -> usize
    ensures { result ≡ place_after count place }
{
    if count.saturating_sub(1) <= place {
        0
    } else {
        place + 1
    }
}

/// Finds the place of the first item that marks a letter, which is given in upper case.
pub(crate) fn item_of_letter(items: &[MenuItem], letter: char) -> Option<usize>
    ensures { result ≡ item_of_letter items.now letter }
{
    items.iter().position(|item| item.text.marks(letter))
}

/// Finds the place of the first menu whose title marks a letter, which is given in upper case.
pub(crate) fn title_of_letter(menus: &[Menu], letter: char) -> Option<usize>
    ensures { result ≡ position (λ menu. marks letter menu.title) menus.now }
{
    menus.iter().position(|menu| menu.title.marks(letter))
}

/// Returns the character, in upper case if it is an ASCII letter.
pub(crate) fn upper(letter: char) -> char
    ensures { result ≡ upper letter }
{
    letter.to_ascii_uppercase()
}
