//! Why no events reach a goal, by a closed list of masks.

ghost use Rattle.std.specs.Prelude.{◌≡◌, ◌≤◌, ◌↔◌, length, IfNone, IfOk, IfSome, IsTrue};
ghost use Rattle.std.specs.List.{list_any};
ghost use Rattle.tv_reach.specs.Found.{IsCase};
ghost use Rattle.tv_reach.specs.Never.{IsNeverOpened, IsReason, IsReasonIn, LacksReason, opens_by, starts_with};
ghost use Rattle.tv_reach.specs.declared.goal.Goal.TheVariants.{Ends};

use crate::answer::Reason;
use crate::case::{Case, are_never_free, are_never_shown, blocking};
use crate::giving::{givers_of, is_never_given, is_without_giver};
use crate::goal::Goal;
use crate::mask::Mask;
use crate::shown::shown_leaves;
use std::alloc::{AllocError, Global};
use tv_event::Command;
use tv_model::{CommandSpec, Desc, Dialog, Menu, MenuItem, StatusItem};
use tv_names::Names;

// Whether the description starts with the dialog.
fn starts_with(desc: &Desc, dialog: &Dialog) -> bool
    ensures { result ≡ starts_with desc.now.start dialog.now }
{
    match &desc.start {
        Some(name) => dialog.head().name.is(name),
        None => false,
    }
}

// Whether the command opens the dialog.
fn opens_by(dialog: &Dialog, command: &CommandSpec) -> bool
    ensures { result ≡ opens_by dialog.now command.now }
{
    match dialog.head().opens {
        Some(number) => i64::from(number) == i64::from(command.number()),
        None => false,
    }
}

fn any_status_opens(items: &[StatusItem], dialog: &Dialog) -> bool
    ensures { result ≡ list_any (λ item. opens_by dialog.now item.command) items.now }
{
    items.iter().any(|item| opens_by(dialog, &item.command))
}

fn any_item_opens(items: &[MenuItem], dialog: &Dialog) -> bool
    ensures { result ≡ list_any (λ item. opens_by dialog.now item.command) items.now }
{
    items.iter().any(|item| opens_by(dialog, &item.command))
}

fn any_menu_opens(menus: &[Menu], dialog: &Dialog) -> bool
    ensures { result ≡ list_any (λ menu. list_any (λ item. opens_by dialog.now item.command) menu.items) menus.now }
{
    menus
        .iter()
        .any(|menu| any_item_opens(menu.items.as_slice(), dialog))
}

// Whether neither the start opens the dialog nor a status item nor a menu item.
fn is_never_opened(desc: &Desc, dialog: &Dialog) -> bool
    ensures never { IsTrue result → IsNeverOpened desc.now dialog.now }
    ensures exact { IsNeverOpened desc.now dialog.now → IsTrue result }
{
    !starts_with(desc, dialog)
        && !any_status_opens(desc.status.as_slice(), dialog)
        && !any_menu_opens(desc.menus.as_slice(), dialog)
}

// Why no events end the dialog by the command.
fn end_reason(alloc: Global, case: &Case, command: Command) -> Result<Option<Reason>, AllocError>
    requires { IsCase case.now }
    ensures found { IfOk result (λ found. IfSome found (λ why.
        IsReasonIn case.now.desc.now case.now.dialog.now case.now.masks.now (Ends command) why)) }
    ensures exact { IfOk result (λ found. IfNone found ((IsNeverOpened case.now.desc.now case.now.dialog.now → ⊥)
        → LacksReason case.now.desc.now case.now.dialog.now case.now.masks.now (Ends command))) }
{
    if command == Command::CANCEL {
        return Ok(None);
    }
    let givers = givers_of(case, command);
    if is_without_giver(&givers) {
        return Ok(Some(Reason::NoGiver));
    }
    if is_never_given(&givers) {
        return Ok(Some(Reason::NotGiven));
    }
    match blocking(alloc, case)? {
        Some(id) => Ok(Some(Reason::Blocked(id))),
        None => Ok(None),
    }
}

// Why no events reach the goal in a dialog that something opens.
fn reason_in(alloc: Global, case: &Case, goal: Goal) -> Result<Option<Reason>, AllocError>
    requires { IsCase case.now }
    ensures found { IfOk result (λ found. IfSome found (λ why.
        IsReasonIn case.now.desc.now case.now.dialog.now case.now.masks.now goal why)) }
    ensures exact { IfOk result (λ found. IfNone found ((IsNeverOpened case.now.desc.now case.now.dialog.now → ⊥)
        → LacksReason case.now.desc.now case.now.dialog.now case.now.masks.now goal)) }
{
    match goal {
        Goal::Opens => Ok(None),
        Goal::Ends(command) => end_reason(alloc, case, command),
        Goal::Focuses(id) if are_never_free(case, id) => Ok(Some(Reason::NotFree)),
        Goal::Shows(id) if are_never_shown(case, id) => Ok(Some(Reason::NotShown)),
        Goal::Focuses(_) | Goal::Shows(_) => Ok(None),
    }
}

/// Finds the first reason why no events reach the goal in the dialog, by these masks, which have to be closed for it to hold. Of a
/// dialog with more than 64 rules it finds only that nothing opens it.
pub fn reason_against(
    alloc: Global,
    desc: &Desc,
    dialog: &Dialog,
    masks: &[Mask],
    goal: Goal,
) -> Result<Option<Reason>, AllocError>
    ensures found { IfOk result (λ found. IfSome found (λ why. IsReason desc.now dialog.now masks.now goal why)) }
    ensures exact { IfOk result (λ found. IfNone found (length dialog.now.rules ≤ 64
        → LacksReason desc.now dialog.now masks.now goal)) }
{
    if is_never_opened(desc, dialog) {
        return Ok(Some(Reason::NotOpened));
    }
    let rules = dialog.rules.as_slice();
    if rules.len() > 64 {
        return Ok(None);
    }
    let views = dialog.views.as_slice();
    let names = Names::new(alloc, views)?;
    let leaves = shown_leaves(alloc, &names, views, rules)?;
    let case = Case {
        desc,
        dialog,
        masks,
        leaves: &leaves,
    };
    reason_in(alloc, &case, goal)
}
