//! F17: letters of menus and numbers of windows that were given before.

ghost use Rattle.std.specs.Prelude.{◌≡◌, IfOk};
ghost use Rattle.tv_model.specs.Faults.Letters.{item_again, numbered_again, titled_again};
ghost use Rattle.tv_model.specs.Faults.Each.{each_after};

use crate::letters::add_letter;
use std::alloc::{AllocError, Global};
use std::collections::HashSet;
use tv_model::{Menu, MenuItem, Window};

/// Returns for each menu whether its title marks the letter of one before it.
pub fn titled_again(alloc: Global, menus: &[Menu]) -> Result<Vec<bool>, AllocError>
    ensures { IfOk result (λ again. again.items ≡ each_after titled_again menus.now) }
{
    let mut letters = HashSet::new(alloc);
    let mut again = Vec::new(alloc);
    for menu in menus {
        again.push(add_letter(&mut letters, &menu.title)?)?;
    }
    Ok(again)
}

/// Returns for each item of a menu whether it marks the letter of one before it.
pub fn items_again(alloc: Global, items: &[MenuItem]) -> Result<Vec<bool>, AllocError>
    ensures { IfOk result (λ again. again.items ≡ each_after item_again items.now) }
{
    let mut letters = HashSet::new(alloc);
    let mut again = Vec::new(alloc);
    for item in items {
        again.push(add_letter(&mut letters, &item.text)?)?;
    }
    Ok(again)
}

/// Returns for each window whether it has a number from 1 to 9 that one before it has.
pub fn numbered_again(alloc: Global, windows: &[Window]) -> Result<Vec<bool>, AllocError>
    ensures { IfOk result (λ again. again.items ≡ each_after numbered_again windows.now) }
{
    let mut numbers = HashSet::new(alloc);
    let mut again = Vec::new(alloc);
    for window in windows {
        let number = window.head().number;
        let is_given = !numbers.insert(number)?;
        again.push(1 <= number && number <= 9 && is_given)?;
    }
    Ok(again)
}
