//! F5: keys of status items that aren't free for them.

ghost use Rattle.std.specs.Prelude.{◌≡◌, ◌||◌, ℕ, nat_eq, IfOk, OnOk};
ghost use Rattle.std.specs.HashSet as set;
ghost use Rattle.std.specs.List.{list_any};
ghost use Rattle.tv_event.specs.declared.event.Key.TheVariants.{Alt};
ghost use Rattle.tv_model.specs.Faults.Letters.{has_bad_key, is_status_key, is_taken, is_window_digit};
ghost use Rattle.tv_model.specs.Description.Marks.{is_option_letter, marks};
ghost use Rattle.tv_model.specs.Description.Letters.{is_shortcut};
ghost use Rattle.tv_model.specs.Faults.Each.{each_after};
ghost use Rattle.tv_names.specs.Keys.{is_alt_of};
ghost use Rattle.tv_names.specs.Marked.{is_marked_by, is_marked_in};

use crate::letters::{add_letter, marked_of};
use std::alloc::{AllocError, Global};
use std::collections::HashSet;
use tv_event::Key;
use tv_model::{Desc, Dialog, MarkedText, Menu, Node, Window};

/// Whether a status item may have the key.
pub fn is_status_key(key: Key) -> bool
    ensures { result ≡ is_status_key key }
{
    match key {
        Key::Function(number) => (1..=12).contains(&number),
        Key::Ctrl(letter) => letter.is_ascii_uppercase() && letter != 'Y',
        Key::Alt(letter) => letter.is_ascii_uppercase() || letter.is_ascii_digit(),
        _ => false,
    }
}

// Adds the letters that the texts mark.
fn add_letters(letters: &mut HashSet<char>, texts: &[MarkedText]) -> Result<(), AllocError>
    ensures { OnOk result ((ch : ℕ)
        → set.contains nat_eq letters.new ch ≡ (set.contains nat_eq letters.old ch || is_marked_in texts.now ch)) }
{
    for text in texts {
        add_letter(letters, text)?;
    }
    Ok(())
}

// Adds the letters that the views mark.
fn add_marked(letters: &mut HashSet<char>, views: &[Node]) -> Result<(), AllocError>
    ensures { OnOk result ((ch : ℕ)
        → set.contains nat_eq letters.new ch ≡ (set.contains nat_eq letters.old ch || is_marked_by views.now ch)) }
{
    for view in views {
        add_letters(letters, marked_of(&view.kind))?;
    }
    Ok(())
}

// Adds the shortcuts of the dialogs.
fn add_shortcuts(taken: &mut HashSet<char>, dialogs: &[Dialog]) -> Result<(), AllocError>
    ensures { OnOk result ((ch : ℕ)
        → set.contains nat_eq taken.new ch
        ≡ (set.contains nat_eq taken.old ch || list_any (is_shortcut ch) dialogs.now)) }
{
    for dialog in dialogs {
        add_marked(taken, dialog.views.as_slice())?;
    }
    Ok(())
}

// Adds the letters of the menus' titles.
fn add_titles(taken: &mut HashSet<char>, menus: &[Menu]) -> Result<(), AllocError>
    ensures { OnOk result ((ch : ℕ)
        → set.contains nat_eq taken.new ch
        ≡ (set.contains nat_eq taken.old ch || list_any (λ menu. marks ch menu.title) menus.now)) }
{
    for menu in menus {
        add_letter(taken, &menu.title)?;
    }
    Ok(())
}

// The digit of a window's number from 1 to 9.
fn digit_of(window: &Window) -> Option<char>
    ensures { (ch : ℕ) → is_option_letter ch result ≡ is_window_digit ch window.now }
{
    match u8::try_from(window.head().number) {
        Ok(number @ 1..=9) => Some(char::from(b'0' + number)),
        _ => None,
    }
}

// Adds the digits of the windows' numbers.
fn add_digits(taken: &mut HashSet<char>, windows: &[Window]) -> Result<(), AllocError>
    ensures { OnOk result ((ch : ℕ)
        → set.contains nat_eq taken.new ch
        ≡ (set.contains nat_eq taken.old ch || list_any (is_window_digit ch) windows.now)) }
{
    for window in windows {
        if let Some(digit) = digit_of(window) {
            taken.insert(digit)?;
        }
    }
    Ok(())
}

// The letters and digits that open a menu, bring a window to the front or are shortcuts of a dialog.
fn taken_with_alt(alloc: Global, desc: &Desc) -> Result<HashSet<char>, AllocError>
    ensures { IfOk result (λ taken. (ch : ℕ) → set.contains nat_eq taken ch ≡ is_taken desc.now (Alt ch)) }
{
    let mut taken = HashSet::new(alloc);
    add_shortcuts(&mut taken, desc.dialogs.as_slice())?;
    add_titles(&mut taken, desc.menus.as_slice())?;
    add_digits(&mut taken, desc.windows.as_slice())?;
    Ok(taken)
}

// Whether the key is Alt with one of the letters and digits.
fn is_alt_of(taken: &HashSet<char>, key: Key) -> bool
    ensures { result ≡ is_alt_of (set.contains nat_eq taken.now) key }
{
    match key {
        Key::Alt(ch) => taken.contains(&ch),
        _ => false,
    }
}

/// Returns for each status item whether its key isn't one that it may have, or already means something else.
pub fn bad_keys(alloc: Global, desc: &Desc) -> Result<Vec<bool>, AllocError>
    ensures { IfOk result (λ bad. bad.items ≡ each_after (has_bad_key desc.now) desc.now.status) }
{
    let taken = taken_with_alt(alloc, desc)?;
    let mut keys = HashSet::new(alloc);
    let mut bad = Vec::new(alloc);
    for item in desc.status.as_slice() {
        let is_given = !keys.insert(item.key)?;
        bad.push(!is_status_key(item.key) || is_alt_of(&taken, item.key) || is_given)?;
    }
    Ok(bad)
}
