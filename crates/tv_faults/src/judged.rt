//! Searches each list for the lines that have a fault. Where that compares a line with others, another crate has the
//! search. Domains and starts were judged before.

ghost use Rattle.std.specs.Prelude.{◌≡◌, IfOk, option_copied};
ghost use Rattle.tv_model.specs.Faults.{dialog_has, item_has, menu_has, rule_has, status_has, view_has, window_has};
ghost use Rattle.tv_model.specs.Faults.Each.{each_after};

use crate::bodies::Body;
use crate::defaults::second_defaults;
use crate::judge::judge_each;
use crate::openings::opened_badly;
use crate::own::{OfDialogs, OfItems, OfMenus, OfRules, OfStatusItems, OfViews, OfWindows};
use crate::starts::{bad_starts, empty_domains};
use std::alloc::{AllocError, Global};
use tv_model::{Desc, Dialog, FaultKind, Menu, MenuItem, Window};
use tv_names::{
    bad_keys, dialogs_named_again, items_again, marks_again, names_again, numbered_again,
    show_themselves, titled_again, unknown_names, unlinked_labels, windows_named_again,
};
use tv_overlaps::{are_outside, overlaps};

/// Returns for each menu whether its line has the fault.
pub fn faulty_menus(alloc: Global, kind: FaultKind, menus: &[Menu]) -> Result<Vec<bool>, AllocError>
    ensures { IfOk result (λ faulty. faulty.items ≡ each_after (menu_has kind) menus.now) }
{
    match kind {
        FaultKind::MenuLetter => titled_again(alloc, menus),
        FaultKind::NameTwice
        | FaultKind::OutsideOwner
        | FaultKind::Overlap
        | FaultKind::LetterTwice
        | FaultKind::StatusKey
        | FaultKind::LabelLink
        | FaultKind::UnknownInRule
        | FaultKind::ShowsItself
        | FaultKind::NothingToFocus
        | FaultKind::MissingEnd
        | FaultKind::SecondDefault
        | FaultKind::EmptyDomain
        | FaultKind::BadStart
        | FaultKind::WideCharacter
        | FaultKind::OutsideLimits
        | FaultKind::BadOpening => judge_each(alloc, &OfMenus { kind }, menus),
    }
}

/// Returns for each item of a menu whether its line has the fault.
pub fn faulty_items(
    alloc: Global,
    kind: FaultKind,
    items: &[MenuItem],
) -> Result<Vec<bool>, AllocError>
    ensures { IfOk result (λ faulty. faulty.items ≡ each_after (item_has kind) items.now) }
{
    match kind {
        FaultKind::MenuLetter => items_again(alloc, items),
        FaultKind::NameTwice
        | FaultKind::OutsideOwner
        | FaultKind::Overlap
        | FaultKind::LetterTwice
        | FaultKind::StatusKey
        | FaultKind::LabelLink
        | FaultKind::UnknownInRule
        | FaultKind::ShowsItself
        | FaultKind::NothingToFocus
        | FaultKind::MissingEnd
        | FaultKind::SecondDefault
        | FaultKind::EmptyDomain
        | FaultKind::BadStart
        | FaultKind::WideCharacter
        | FaultKind::OutsideLimits
        | FaultKind::BadOpening => judge_each(alloc, &OfItems { kind }, items),
    }
}

/// Returns for each status item whether its line has the fault.
pub fn faulty_status_items(
    alloc: Global,
    kind: FaultKind,
    desc: &Desc,
) -> Result<Vec<bool>, AllocError>
    ensures { IfOk result (λ faulty. faulty.items ≡ each_after (status_has kind desc.now) desc.now.status) }
{
    match kind {
        FaultKind::StatusKey => bad_keys(alloc, desc),
        FaultKind::NameTwice
        | FaultKind::OutsideOwner
        | FaultKind::Overlap
        | FaultKind::LetterTwice
        | FaultKind::LabelLink
        | FaultKind::UnknownInRule
        | FaultKind::ShowsItself
        | FaultKind::NothingToFocus
        | FaultKind::MissingEnd
        | FaultKind::SecondDefault
        | FaultKind::EmptyDomain
        | FaultKind::BadStart
        | FaultKind::WideCharacter
        | FaultKind::OutsideLimits
        | FaultKind::BadOpening
        | FaultKind::MenuLetter => judge_each(
            alloc,
            &OfStatusItems { kind, desc },
            desc.status.as_slice(),
        ),
    }
}

/// Returns for each window whether its own line has the fault.
pub fn faulty_windows(
    alloc: Global,
    kind: FaultKind,
    windows: &[Window],
) -> Result<Vec<bool>, AllocError>
    ensures { IfOk result (λ faulty. faulty.items ≡ each_after (window_has kind) windows.now) }
{
    match kind {
        FaultKind::NameTwice => windows_named_again(alloc, windows),
        FaultKind::MenuLetter => numbered_again(alloc, windows),
        FaultKind::OutsideOwner
        | FaultKind::Overlap
        | FaultKind::LetterTwice
        | FaultKind::StatusKey
        | FaultKind::LabelLink
        | FaultKind::UnknownInRule
        | FaultKind::ShowsItself
        | FaultKind::NothingToFocus
        | FaultKind::MissingEnd
        | FaultKind::SecondDefault
        | FaultKind::EmptyDomain
        | FaultKind::BadStart
        | FaultKind::WideCharacter
        | FaultKind::OutsideLimits
        | FaultKind::BadOpening => judge_each(alloc, &OfWindows { kind }, windows),
    }
}

/// Returns for each dialog whether its own line has the fault.
pub fn faulty_dialogs(alloc: Global, kind: FaultKind, desc: &Desc) -> Result<Vec<bool>, AllocError>
    ensures { IfOk result (λ faulty. faulty.items ≡ each_after (dialog_has kind desc.now) desc.now.dialogs) }
{
    match kind {
        FaultKind::NameTwice => dialogs_named_again(alloc, desc),
        FaultKind::BadOpening => opened_badly(alloc, desc.dialogs.as_slice()),
        FaultKind::OutsideOwner
        | FaultKind::Overlap
        | FaultKind::LetterTwice
        | FaultKind::StatusKey
        | FaultKind::LabelLink
        | FaultKind::UnknownInRule
        | FaultKind::ShowsItself
        | FaultKind::NothingToFocus
        | FaultKind::MissingEnd
        | FaultKind::SecondDefault
        | FaultKind::EmptyDomain
        | FaultKind::BadStart
        | FaultKind::WideCharacter
        | FaultKind::OutsideLimits
        | FaultKind::MenuLetter => judge_each(
            alloc,
            &OfDialogs { kind, desc },
            desc.dialogs.as_slice(),
        ),
    }
}

/// Returns for each view of a window or dialog whether its line has the fault.
pub fn faulty_views(alloc: Global, kind: FaultKind, body: &Body) -> Result<Vec<bool>, AllocError>
    ensures { IfOk result (λ faulty. faulty.items
        ≡ each_after (view_has kind body.now.frame.now body.now.ends
        (option_copied body.now.sharing) body.now.views.now) body.now.views.now) }
{
    let Body {
        frame,
        ends,
        sharing,
        views,
        starts,
    } = *body;
    match kind {
        FaultKind::NameTwice => names_again(alloc, views),
        FaultKind::OutsideOwner => are_outside(alloc, frame, views),
        FaultKind::Overlap => overlaps(alloc, views),
        FaultKind::LetterTwice => marks_again(alloc, views, sharing),
        FaultKind::LabelLink => unlinked_labels(alloc, views),
        FaultKind::SecondDefault => second_defaults(alloc, views),
        FaultKind::EmptyDomain => empty_domains(alloc, starts),
        FaultKind::BadStart => bad_starts(alloc, starts),
        FaultKind::StatusKey
        | FaultKind::UnknownInRule
        | FaultKind::ShowsItself
        | FaultKind::NothingToFocus
        | FaultKind::MissingEnd
        | FaultKind::WideCharacter
        | FaultKind::OutsideLimits
        | FaultKind::BadOpening
        | FaultKind::MenuLetter => judge_each(
            alloc,
            &OfViews {
                kind,
                frame,
                ends,
                sharing,
                views,
            },
            views,
        ),
    }
}

/// Returns for each rule of a dialog whether its line has the fault.
pub fn faulty_rules(
    alloc: Global,
    kind: FaultKind,
    dialog: &Dialog,
) -> Result<Vec<bool>, AllocError>
    ensures { IfOk result (λ faulty. faulty.items ≡ each_after (rule_has kind dialog.now.views) dialog.now.rules) }
{
    match kind {
        FaultKind::UnknownInRule => unknown_names(alloc, dialog),
        FaultKind::ShowsItself => show_themselves(alloc, dialog),
        FaultKind::NameTwice
        | FaultKind::OutsideOwner
        | FaultKind::Overlap
        | FaultKind::LetterTwice
        | FaultKind::StatusKey
        | FaultKind::LabelLink
        | FaultKind::NothingToFocus
        | FaultKind::MissingEnd
        | FaultKind::SecondDefault
        | FaultKind::EmptyDomain
        | FaultKind::BadStart
        | FaultKind::WideCharacter
        | FaultKind::OutsideLimits
        | FaultKind::BadOpening
        | FaultKind::MenuLetter => judge_each(
            alloc,
            &OfRules { kind, dialog },
            dialog.rules.as_slice(),
        ),
    }
}
