//! Checked descriptions, and the first of their dialogs with a body of boxed controls.

ghost use Rattle.std.specs.Prelude.{IfOk};
ghost use Rattle.tv_machine.specs.Dialog.Lawful.{IsLawfulDialog};

use crate::making::views;
use std::alloc::Global;
use std::test::Fail;
use tv_check::{Checked, accept, certify};
use tv_group::Group;
use tv_lang::parse;
use tv_model::Dialog;

/// The description that a text spells, checked with its own certificate.
pub fn checked(alloc: Global, text: &str) -> Result<Checked, Fail> {
    let desc = parse(alloc, text.as_bytes())?;
    let certificate = certify(alloc, &desc)?;
    match accept(alloc, desc, &certificate) {
        Ok(checked) => Ok(checked),
        Err(_) => Err("it is refused".into()),
    }
}

/// The body of the first dialog of a checked description.
pub fn first_body(alloc: Global, checked: &Checked) -> Result<Group, Fail> {
    let mut bodies = views(alloc, checked, None)?.bodies;
    if bodies.is_empty() {
        return Err("no dialog".into());
    }
    Ok(bodies.swap_remove(0))
}

/// The first dialog of a checked description.
pub fn first_dialog(checked: &Checked) -> Result<&Dialog, Fail>
    ensures { IfOk result (λ dialog. IsLawfulDialog dialog.now) }
{
    let dialogs = checked.desc().dialogs.as_slice();
    if dialogs.is_empty() {
        return Err("no dialog".into());
    }
    Ok(&dialogs[0])
}
