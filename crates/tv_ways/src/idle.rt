//! Commands that do nothing where they are given.

ghost use Rattle.std.specs.Prelude.{◌≡◌, ◌++◌, flat_map, IfOk, OnOk};
ghost use Rattle.tv_model.specs.Faults.{IsSound};
ghost use Rattle.tv_ways.specs.Idle.{AreIdle, idle_buttons, idle_commands, idle_items, is_desktop_command, is_end_command, is_idle_kind};

use std::alloc::{AllocError, Global};
use tv_model::{CommandSpec, Desc, Dialog, Id, Kind, Menu, MenuItem, Node, Sequence};

// Whether it ends a dialog, of which none is open while a menu is.
fn is_end_command(command: CommandSpec) -> bool
    ensures { result ≡ is_end_command command }
{
    matches!(
        command,
        CommandSpec::Ok | CommandSpec::Cancel | CommandSpec::Yes | CommandSpec::No
    )
}

// Whether it does something only while no dialog is open.
fn is_desktop_command(command: CommandSpec) -> bool
    ensures { result ≡ is_desktop_command command }
{
    matches!(
        command,
        CommandSpec::Quit | CommandSpec::Menu | CommandSpec::Next
    )
}

fn is_idle_kind(kind: &Kind) -> bool
    ensures { result ≡ is_idle_kind kind.now }
{
    match kind {
        Kind::Button(button) => is_desktop_command(button.command),
        _ => false,
    }
}

fn add_items(ids: &mut Vec<Id>, items: &[MenuItem]) -> Result<(), AllocError>
    ensures { OnOk result (ids.new.items ≡ ids.old.items ++ idle_items items.now) }
{
    for item in items {
        if is_end_command(item.command) {
            ids.push(item.id)?;
        }
    }
    Ok(())
}

fn add_buttons(ids: &mut Vec<Id>, views: &[Node]) -> Result<(), AllocError>
    ensures { OnOk result (ids.new.items ≡ ids.old.items ++ idle_buttons views.now) }
{
    for view in views {
        if is_idle_kind(&view.kind) {
            ids.push(view.id)?;
        }
    }
    Ok(())
}

fn add_menus(ids: &mut Vec<Id>, menus: &[Menu]) -> Result<(), AllocError>
    ensures { OnOk result (ids.new.items ≡ ids.old.items ++ flat_map (λ menu. idle_items menu.items) menus.now) }
{
    for menu in menus {
        add_items(ids, menu.items.as_slice())?;
    }
    Ok(())
}

fn add_dialogs(ids: &mut Vec<Id>, dialogs: &[Dialog]) -> Result<(), AllocError>
    ensures { OnOk result (ids.new.items ≡ ids.old.items ++ flat_map (λ dialog. idle_buttons dialog.views) dialogs.now) }
{
    for dialog in dialogs {
        add_buttons(ids, dialog.views.as_slice())?;
    }
    Ok(())
}

/// Finds all menu items that give a command which ends dialogs, and all buttons whose command does something only while no
/// dialog is open: they do nothing. A program may take commands of the description's own, so those aren't told.
pub fn idle_commands(alloc: Global, desc: &Desc) -> Result<Sequence<Id>, AllocError>
    ensures { IfOk result (λ ids. ids ≡ idle_commands desc.now) }
{
    let mut ids = Vec::new(alloc);
    add_menus(&mut ids, desc.menus.as_slice())?;
    add_dialogs(&mut ids, desc.dialogs.as_slice())?;
    Ok(Sequence::from_vec(ids))
}

/// A theorem, as a function without a body: in a sound description, what `idle_commands` lists does nothing. The commands of
/// those items change nothing while no dialog is open, and those of the buttons change nothing of the one that is.
pub fn idle_commands_do_nothing(_desc: &Desc)
    requires { IsSound _desc.now }
    ensures { AreIdle _desc.now }
{}
