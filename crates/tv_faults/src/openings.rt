//! F16: opening commands and starts that can't be.

ghost use Rattle.std.specs.Prelude.{◌≡◌, ◌||◌, ℤ, IfOk, OnOk};
ghost use Rattle.std.specs.HashSet as set;
ghost use Rattle.std.specs.List.{list_any};
ghost use Rattle.std.specs.Ordering.{int_eq};
ghost use Rattle.tv_model.specs.Description.Heads.{dialog_head, is_named};
ghost use Rattle.tv_model.specs.Description.Names.{gives_name};
ghost use Rattle.tv_model.specs.Faults.Starts.{is_option_number, opens_badly, starts_nowhere};
ghost use Rattle.tv_model.specs.Faults.Each.{each_after};
ghost use Rattle.tv_faults.specs.Opened.{is_bad_opening};

use std::alloc::{AllocError, Global};
use std::collections::HashSet;
use tv_model::{Desc, Dialog, Window};
use tv_valid::Chars;

// Adds the dialog's opening command. Returns whether it is outside 100 to 255, or was among the commands before.
fn add_opening(commands: &mut HashSet<i32>, dialog: &Dialog) -> Result<bool, AllocError>
    ensures bad { IfOk result (λ bad. bad ≡ is_bad_opening (set.contains int_eq commands.old) (dialog_head dialog.now).opens) }
    ensures added { OnOk result ((n : ℤ)
        → set.contains int_eq commands.new n
        ≡ (set.contains int_eq commands.old n || is_option_number n (dialog_head dialog.now).opens)) }
{
    match dialog.head().opens {
        Some(number) => {
            let again = !commands.insert(number)?;
            Ok(!(100..=255).contains(&number) || again)
        }
        None => Ok(false),
    }
}

/// Returns for each dialog whether its opening command is outside 100 to 255, or opens one before it.
pub fn opened_badly(alloc: Global, dialogs: &[Dialog]) -> Result<Vec<bool>, AllocError>
    ensures { IfOk result (λ badly. badly.items ≡ each_after opens_badly dialogs.now) }
{
    let mut commands = HashSet::new(alloc);
    let mut badly = Vec::new(alloc);
    for dialog in dialogs {
        badly.push(add_opening(&mut commands, dialog)?)?;
    }
    Ok(badly)
}

// Whether the dialog has the name.
fn is_named(name: &Chars, dialog: &Dialog) -> bool
    ensures { result ≡ is_named name.now dialog.now }
{
    dialog.head().name.is(name)
}

fn has_window(name: &Chars, windows: &[Window]) -> bool
    ensures { result ≡ list_any (λ window. gives_name name.now window.node) windows.now }
{
    windows.iter().any(|window| window.node.gives_name(name))
}

fn has_dialog(name: &Chars, dialogs: &[Dialog]) -> bool
    ensures { result ≡ list_any (is_named name.now) dialogs.now }
{
    dialogs.iter().any(|dialog| is_named(name, dialog))
}

/// Whether the description names a start that isn't one of its dialogs.
pub fn starts_nowhere(desc: &Desc) -> bool
    ensures { result ≡ starts_nowhere desc.now }
{
    match &desc.start {
        Some(name) => {
            has_window(name, desc.windows.as_slice()) || !has_dialog(name, desc.dialogs.as_slice())
        }
        None => false,
    }
}
