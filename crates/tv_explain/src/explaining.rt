//! Faults explained.

ghost use Rattle.std.specs.Prelude.{◌≡◌, ◌≤◌, ℕ, List, length, map, IfOk, option_copied};
ghost use Rattle.tv_model.specs.Faults.{faults_of};
ghost use Rattle.tv_explain.specs.Places.{places_of};
ghost use Rattle.tv_explain.specs.Explaining.{dialog_at, dialog_has_why, explained, head_at, in_dialog, in_window, item_at, item_has_why, menu_at, menu_has_why, outside_at, part_at, rule_at, rule_has_why, status_at, status_has_why, view_at, why_of, window_at, window_has_why};

use crate::groups::{FaultGroup, RuleFault, group_of};
use crate::heads::{dialog_named, opening_why, start_why, window_named};
use crate::inside::{Body, InDialog};
use crate::keys::{key_why, number_why};
use crate::letters::{item_why, title_why};
use crate::limits::{dialog_limit, item_limit, menu_limit, rule_limit, status_limit, window_limit};
use crate::lines::{Listed, around_line, at_line};
use crate::outline::Outline;
use crate::places::Places;
use crate::rules::{focus_why, shown_why, unknown_why};
use crate::views::view_why;
use crate::why::{Reason, Why};
use std::alloc::{AllocError, Global};
use tv_faults::faults;
use tv_model::{
    Desc, Dialog, Fault, FaultKind, Menu, MenuItem, Rule, Sequence, StatusItem, Window,
};
use tv_names::Names;

/// A fault, explained.
#[derive(Clone, Copy, Debug, PartialEq, Eq)]
pub struct Explained {
    pub fault: Fault,
    /// The line of the text that was read, comments and empty lines counted.
    pub line: usize,
    pub why: Why,
    /// The other line that has to do with it, counted so too.
    pub other: Option<usize>,
}

fn menu_has_why(kind: FaultKind, before: &[Menu], menu: &Menu) -> Why
    ensures { result ≡ menu_has_why kind before.now menu.now }
{
    match group_of(kind) {
        FaultGroup::OutsideLimits => Why::because(menu_limit(before), None),
        FaultGroup::MenuLetter => title_why(before, menu),
        FaultGroup::NameTwice
        | FaultGroup::OutsideOwner
        | FaultGroup::StatusKey
        | FaultGroup::NothingToFocus
        | FaultGroup::MissingEnd
        | FaultGroup::WideCharacter
        | FaultGroup::BadOpening
        | FaultGroup::OfView(_)
        | FaultGroup::OfRule(_) => Why::ITSELF,
    }
}

fn item_has_why(kind: FaultKind, before: &[MenuItem], item: &MenuItem) -> Why
    ensures { result ≡ item_has_why kind before.now item.now }
{
    match group_of(kind) {
        FaultGroup::OutsideLimits => Why::because(item_limit(before, item), None),
        FaultGroup::MenuLetter => item_why(before, item),
        FaultGroup::NameTwice
        | FaultGroup::OutsideOwner
        | FaultGroup::StatusKey
        | FaultGroup::NothingToFocus
        | FaultGroup::MissingEnd
        | FaultGroup::WideCharacter
        | FaultGroup::BadOpening
        | FaultGroup::OfView(_)
        | FaultGroup::OfRule(_) => Why::ITSELF,
    }
}

fn status_has_why(kind: FaultKind, desc: &Desc, before: &[StatusItem], item: &StatusItem) -> Why
    ensures { result ≡ status_has_why kind desc.now before.now item.now }
{
    match group_of(kind) {
        FaultGroup::StatusKey => key_why(desc, before, item),
        FaultGroup::OutsideLimits => Why::because(status_limit(before, item), None),
        FaultGroup::NameTwice
        | FaultGroup::OutsideOwner
        | FaultGroup::NothingToFocus
        | FaultGroup::MissingEnd
        | FaultGroup::WideCharacter
        | FaultGroup::BadOpening
        | FaultGroup::MenuLetter
        | FaultGroup::OfView(_)
        | FaultGroup::OfRule(_) => Why::ITSELF,
    }
}

fn window_has_why(kind: FaultKind, before: &[Window], window: &Window) -> Why
    ensures { result ≡ window_has_why kind before.now window.now }
{
    match group_of(kind) {
        FaultGroup::NameTwice => Why::from_line(window_named(before, &window.node)),
        FaultGroup::OutsideLimits => Why::because(window_limit(before, window), None),
        FaultGroup::MenuLetter => number_why(before, window),
        FaultGroup::OutsideOwner
        | FaultGroup::StatusKey
        | FaultGroup::NothingToFocus
        | FaultGroup::MissingEnd
        | FaultGroup::WideCharacter
        | FaultGroup::BadOpening
        | FaultGroup::OfView(_)
        | FaultGroup::OfRule(_) => Why::ITSELF,
    }
}

fn dialog_has_why(
    alloc: Global,
    kind: FaultKind,
    desc: &Desc,
    before: &[Dialog],
    dialog: &Dialog,
) -> Result<Why, AllocError>
    ensures { IfOk result (λ why. why ≡ dialog_has_why kind desc.now before.now dialog.now) }
{
    match group_of(kind) {
        FaultGroup::NameTwice => Ok(Why::from_line(dialog_named(desc, before, dialog))),
        FaultGroup::OutsideOwner => Ok(Why::from_line(Some(2))),
        FaultGroup::NothingToFocus => focus_why(alloc, dialog),
        FaultGroup::MissingEnd => Ok(Why::because(Reason::NoCancel, None)),
        FaultGroup::OutsideLimits => Ok(Why::because(dialog_limit(before, dialog), None)),
        FaultGroup::BadOpening => Ok(opening_why(before, dialog)),
        FaultGroup::StatusKey
        | FaultGroup::WideCharacter
        | FaultGroup::MenuLetter
        | FaultGroup::OfView(_)
        | FaultGroup::OfRule(_) => Ok(Why::ITSELF),
    }
}

fn rule_has_why(kind: FaultKind, views: &Names, before: &[Rule], rule: &Rule) -> Why
    ensures { result ≡ rule_has_why kind views.now before.now rule.now }
{
    match group_of(kind) {
        FaultGroup::OfRule(RuleFault::UnknownInRule) => unknown_why(views, rule),
        FaultGroup::OfRule(RuleFault::ShowsItself) => shown_why(views, rule),
        FaultGroup::OutsideLimits => Why::because(rule_limit(before), None),
        FaultGroup::MenuLetter => Why::because(Reason::RulesCancel, None),
        FaultGroup::NameTwice
        | FaultGroup::OutsideOwner
        | FaultGroup::StatusKey
        | FaultGroup::NothingToFocus
        | FaultGroup::MissingEnd
        | FaultGroup::WideCharacter
        | FaultGroup::BadOpening
        | FaultGroup::OfView(_) => Why::ITSELF,
    }
}

// The screen, which is the second line, and the `start`, which is the third.
fn head_at(kind: FaultKind, desc: &Desc, line: u32) -> Option<Why>
    ensures { result ≡ head_at kind desc.now line }
{
    match group_of(kind) {
        FaultGroup::OutsideLimits if line == 2 => Some(Why::because(Reason::Screen, None)),
        FaultGroup::BadOpening if line == 3 => {
            let name = desc.start.as_ref()?;
            Some(start_why(name, desc.windows.as_slice()))
        }
        FaultGroup::NameTwice
        | FaultGroup::OutsideOwner
        | FaultGroup::StatusKey
        | FaultGroup::NothingToFocus
        | FaultGroup::MissingEnd
        | FaultGroup::WideCharacter
        | FaultGroup::OutsideLimits
        | FaultGroup::BadOpening
        | FaultGroup::MenuLetter
        | FaultGroup::OfView(_)
        | FaultGroup::OfRule(_) => None,
    }
}

fn menu_at(kind: FaultKind, desc: &Outline, line: u32) -> Option<Why>
    ensures { result ≡ menu_at kind desc.now line }
{
    let (before, menu) = at_line(&desc.menus(), line)?;
    Some(menu_has_why(kind, before, menu))
}

fn item_at(kind: FaultKind, desc: &Outline, line: u32) -> Option<Why>
    ensures { result ≡ item_at kind desc.now line }
{
    let menu = around_line(desc.desc().menus.as_slice(), line)?;
    let items = Listed::new(menu.items.as_slice(), desc.is_in_order());
    let (before, item) = at_line(&items, line)?;
    Some(item_has_why(kind, before, item))
}

fn status_at(kind: FaultKind, desc: &Outline, line: u32) -> Option<Why>
    ensures { result ≡ status_at kind desc.now line }
{
    let (before, item) = at_line(&desc.status(), line)?;
    Some(status_has_why(kind, desc.desc(), before, item))
}

fn window_at(kind: FaultKind, desc: &Outline, line: u32) -> Option<Why>
    ensures { result ≡ window_at kind desc.now line }
{
    let (before, window) = at_line(&desc.windows(), line)?;
    Some(window_has_why(kind, before, window))
}

fn dialog_at(
    alloc: Global,
    kind: FaultKind,
    desc: &Outline,
    line: u32,
) -> Result<Option<Why>, AllocError>
    ensures { IfOk result (λ why. why ≡ dialog_at kind desc.now line) }
{
    match at_line(&desc.dialogs(), line) {
        Some((before, dialog)) => {
            let why = dialog_has_why(alloc, kind, desc.desc(), before, dialog)?;
            Ok(Some(why))
        }
        None => Ok(None),
    }
}

// A view of this window or dialog.
fn view_at(
    alloc: Global,
    kind: FaultKind,
    body: &Body,
    line: u32,
) -> Result<Option<Why>, AllocError>
    ensures { IfOk result (λ why. why ≡ view_at kind body.now line) }
{
    match at_line(&body.views(), line) {
        Some((before, node)) => Ok(Some(view_why(alloc, kind, body, before, node)?)),
        None => Ok(None),
    }
}

// A rule of this dialog.
fn rule_at(kind: FaultKind, dialog: &InDialog, line: u32) -> Option<Why>
    ensures { result ≡ rule_at kind dialog.now line }
{
    let (before, rule) = at_line(&dialog.rules(), line)?;
    Some(rule_has_why(kind, dialog.body().names(), before, rule))
}

fn in_window(
    alloc: Global,
    kind: FaultKind,
    desc: &Outline,
    line: u32,
) -> Result<Option<Why>, AllocError>
    ensures { IfOk result (λ why. why ≡ in_window kind desc.now line) }
{
    match around_line(desc.in_windows(), line) {
        Some(body) => view_at(alloc, kind, body, line),
        None => Ok(None),
    }
}

// A view or a rule of this dialog.
fn part_at(
    alloc: Global,
    kind: FaultKind,
    dialog: &InDialog,
    line: u32,
) -> Result<Option<Why>, AllocError>
    ensures { IfOk result (λ why. why ≡ part_at kind dialog.now line) }
{
    match view_at(alloc, kind, dialog.body(), line)? {
        Some(why) => Ok(Some(why)),
        None => Ok(rule_at(kind, dialog, line)),
    }
}

fn in_dialog(
    alloc: Global,
    kind: FaultKind,
    desc: &Outline,
    line: u32,
) -> Result<Option<Why>, AllocError>
    ensures { IfOk result (λ why. why ≡ in_dialog kind desc.now line) }
{
    match around_line(desc.in_dialogs(), line) {
        Some(dialog) => part_at(alloc, kind, dialog, line),
        None => Ok(None),
    }
}

// What stands in no window and in no dialog, and the lines of windows and dialogs themselves.
fn outside_at(
    alloc: Global,
    kind: FaultKind,
    desc: &Outline,
    line: u32,
) -> Result<Option<Why>, AllocError>
    ensures { IfOk result (λ why. why ≡ outside_at kind desc.now line) }
{
    if let Some(why) = head_at(kind, desc.desc(), line) {
        return Ok(Some(why));
    }
    if let Some(why) = menu_at(kind, desc, line) {
        return Ok(Some(why));
    }
    if let Some(why) = item_at(kind, desc, line) {
        return Ok(Some(why));
    }
    if let Some(why) = status_at(kind, desc, line) {
        return Ok(Some(why));
    }
    if let Some(why) = window_at(kind, desc, line) {
        return Ok(Some(why));
    }
    dialog_at(alloc, kind, desc, line)
}

// Why the line has the fault.
#[tactic(auto, unfolding(crate::specs::Explaining::why_of))]
fn why_of(alloc: Global, desc: &Outline, fault: Fault) -> Result<Why, AllocError>
    ensures { IfOk result (λ why. why ≡ why_of desc.now fault) }
{
    let Fault { kind, line } = fault;
    if let Some(why) = outside_at(alloc, kind, desc, line)? {
        return Ok(why);
    }
    if let Some(why) = in_window(alloc, kind, desc, line)? {
        return Ok(why);
    }
    let why = in_dialog(alloc, kind, desc, line)?;
    Ok(why.unwrap_or(Why::ITSELF))
}

// The fault, its places and why.
#[tactic(auto, unfolding(crate::specs::Places::place))]
fn told(
    alloc: Global,
    places: &Places,
    desc: &Outline,
    fault: Fault,
) -> Result<Explained, AllocError>
    ensures { (text : List ℕ) → places.now ≡ places_of text → IfOk result (λ told. told ≡ explained text desc.now fault) }
{
    let why = why_of(alloc, desc, fault)?;
    Ok(Explained {
        fault,
        line: places.place(fault.line),
        why,
        other: why.other.map(|line| places.place(line)),
    })
}

/// Explains the faults of the description that a text spells, in the order of `faults`.
pub fn explain(alloc: Global, text: &[u8], desc: &Desc) -> Result<Sequence<Explained>, AllocError>
    requires { length text.now ≤ 262144 }
    ensures { IfOk result (λ list. list ≡ map (explained text.now desc.now) (faults_of desc.now)) }
{
    let places = Places::new(alloc, text)?;
    let outline = Outline::new(alloc, desc)?;
    let mut list = Sequence::new(alloc);
    for fault in faults(alloc, desc)?.as_slice() {
        list.push(told(alloc, &places, &outline, *fault)?)?;
    }
    Ok(list)
}
