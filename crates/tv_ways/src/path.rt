//! The steps that open a dialog.

ghost use Rattle.tv_dialogs.specs.Handed.{HasPointGiven};

use crate::outline::is_command;
use std::alloc::{AllocError, Global};
use tv_cells::Point;
use tv_event::{Command, Event, Key};
use tv_model::{CommandSpec, Desc, Dialog, Menu, MenuItem};

/// What a user does.
#[derive(Clone, Copy)]
pub(crate) enum Step {
    Key(Key),
    /// The mouse button goes down on the title of the first menu.
    FirstTitle,
}

impl Step {
    pub(crate) fn event(self) -> Event
        ensures { HasPointGiven result }
    {
        match self {
            Step::Key(key) => Event::Key(key),
            Step::FirstTitle => Event::Down(Point { x: 1, y: 0 }),
        }
    }
}

// Whether the command opens the dialog.
fn opens(dialog: &Dialog, command: CommandSpec) -> bool {
    match (command, dialog.head().opens) {
        (CommandSpec::Number(number), Some(opens)) => number == opens,
        _ => false,
    }
}

// Whether the description starts with the dialog.
fn is_start(desc: &Desc, dialog: &Dialog) -> bool {
    match &desc.start {
        Some(name) => name.is(&dialog.head().name),
        None => false,
    }
}

// The key of a status item that gives such a command.
fn status_key<F: Fn(CommandSpec) -> bool>(desc: &Desc, test: F) -> Option<Key>
    requires { F.IsAlwaysCallable test }
{
    let items = desc.status.as_slice();
    let item = items.iter().find(|item| test(item.command))?;
    Some(item.key)
}

// The first menu with an item that opens the dialog, and the item, by their places.
fn menu_item(desc: &Desc, dialog: &Dialog) -> Option<(usize, usize)> {
    for (place, menu) in desc.menus.as_slice().iter().enumerate() {
        let opening = |item: &MenuItem| opens(dialog, item.command);
        if let Some(item) = menu.items.as_slice().iter().position(opening) {
            return Some((place, item));
        }
    }
    None
}

fn push_key(steps: &mut Vec<Step>, key: Key) -> Result<(), AllocError> {
    steps.push(Step::Key(key))?;
    Ok(())
}

fn push_keys(steps: &mut Vec<Step>, key: Key, count: usize) -> Result<(), AllocError> {
    for _ in 0..count {
        push_key(steps, key)?;
    }
    Ok(())
}

// Adds the steps that open a menu while no dialog is open: its letter, else another menu and arrows.
fn open_menu(
    steps: &mut Vec<Step>,
    menus: &[Menu],
    desc: &Desc,
    place: usize,
) -> Result<(), AllocError> {
    if let Some(letter) = menus.get(place).and_then(|menu| menu.title.letter()) {
        return push_key(steps, Key::Alt(letter));
    }
    if let Some(key) = status_key(desc, |command| is_command(command, Command::MENU)) {
        push_key(steps, key)?;
    } else {
        steps.push(Step::FirstTitle)?;
    }
    push_keys(steps, Key::Right, place)
}

// Adds the steps that choose an item of the open menu.
fn choose(steps: &mut Vec<Step>, item: Option<&MenuItem>, place: usize) -> Result<(), AllocError> {
    if let Some(letter) = item.and_then(|item| item.text.letter()) {
        return push_key(steps, Key::Alt(letter));
    }
    push_keys(steps, Key::Down, place)?;
    push_key(steps, Key::Enter)
}

/// Returns the steps that open the dialog, or `None` where none do.
pub(crate) fn opening(
    alloc: Global,
    desc: &Desc,
    dialog: &Dialog,
) -> Result<Option<Vec<Step>>, AllocError> {
    let mut steps = Vec::new(alloc);
    if is_start(desc, dialog) {
        return Ok(Some(steps));
    }
    if desc.start.is_some() {
        push_key(&mut steps, Key::Esc)?;
    }
    if let Some(key) = status_key(desc, |command| opens(dialog, command)) {
        push_key(&mut steps, key)?;
        return Ok(Some(steps));
    }
    let Some((menu, item)) = menu_item(desc, dialog) else {
        return Ok(None);
    };
    let menus = desc.menus.as_slice();
    open_menu(&mut steps, menus, desc, menu)?;
    let chosen = menus
        .get(menu)
        .and_then(|menu| menu.items.as_slice().get(item));
    choose(&mut steps, chosen, item)?;
    Ok(Some(steps))
}
