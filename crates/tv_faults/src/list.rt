//! The list of all faults.

ghost use Rattle.std.specs.Prelude.{◌≡◌, ◌↔◌, [], ◌++◌, map, flat_map, IfOk, OnOk, option_copied};
ghost use Rattle.tv_model.specs.Faults.Lines.{after_seen, lines_where};
ghost use Rattle.tv_model.specs.Faults.{dialog_lines, fault_at, faults_at, faults_of, head_lines, item_has, menu_lines, rule_lines, status_lines, view_lines, window_lines};
ghost use Rattle.tv_declarations.specs.Spelling.{IsDescription};
ghost use Rattle.tv_faults.specs.Order.{AreInOrder};
ghost use Rattle.tv_faults.specs.Sound.{Sound};
ghost use Rattle.tv_faults.specs.Starts.{AreStartsIn, starts_of};

use crate::bodies::{Body, Starts, judge_all_starts, sharing_rules};
use crate::judged::{
    faulty_dialogs, faulty_items, faulty_menus, faulty_rules, faulty_status_items, faulty_views,
    faulty_windows,
};
use crate::limits::is_lawful_screen;
use crate::line::{add_if, add_where};
use crate::openings::starts_nowhere;
use crate::starts::StartFaults;
use std::alloc::{AllocError, Global};
use tv_model::{Desc, Dialog, Ends, Fault, FaultKind, Menu, Sequence, Window};

// The faults, in the order of their numbers.
const KINDS: [FaultKind; 17] = [
    FaultKind::NameTwice,
    FaultKind::OutsideOwner,
    FaultKind::Overlap,
    FaultKind::LetterTwice,
    FaultKind::StatusKey,
    FaultKind::LabelLink,
    FaultKind::UnknownInRule,
    FaultKind::ShowsItself,
    FaultKind::NothingToFocus,
    FaultKind::MissingEnd,
    FaultKind::SecondDefault,
    FaultKind::EmptyDomain,
    FaultKind::BadStart,
    FaultKind::WideCharacter,
    FaultKind::OutsideLimits,
    FaultKind::BadOpening,
    FaultKind::MenuLetter,
];

// The ends of a window: it has none.
const NO_ENDS: Ends = Ends {
    ok: false,
    cancel: false,
    yes: false,
    no: false,
};

// Adds the lines before the menus that have the fault.
fn add_head(found: &mut Sequence<Fault>, kind: FaultKind, desc: &Desc) -> Result<(), AllocError>
    ensures { OnOk result (found.new ≡ found.old ++ map (fault_at kind) (head_lines kind desc.now)) }
{
    match kind {
        FaultKind::OutsideLimits => add_if(found, !is_lawful_screen(desc), kind, 2),
        FaultKind::BadOpening => add_if(found, starts_nowhere(desc), kind, 3),
        FaultKind::NameTwice
        | FaultKind::OutsideOwner
        | FaultKind::Overlap
        | FaultKind::LetterTwice
        | FaultKind::StatusKey
        | FaultKind::LabelLink
        | FaultKind::UnknownInRule
        | FaultKind::ShowsItself
        | FaultKind::NothingToFocus
        | FaultKind::MissingEnd
        | FaultKind::SecondDefault
        | FaultKind::EmptyDomain
        | FaultKind::BadStart
        | FaultKind::WideCharacter
        | FaultKind::MenuLetter => Ok(()),
    }
}

// Adds the items of the menu that have the fault.
#[tactic(auto, using(tv_model::proofs::EachAfterLemmas::length_each_after))]
fn add_items(
    alloc: Global,
    found: &mut Sequence<Fault>,
    kind: FaultKind,
    menu: &Menu,
) -> Result<(), AllocError>
    ensures { OnOk result (found.new
        ≡ found.old ++ map (fault_at kind) (lines_where (λ item. item.id.0) (item_has kind) [] menu.now.items)) }
{
    let items = menu.items.as_slice();
    let faulty = faulty_items(alloc, kind, items)?;
    add_where(found, kind, items, faulty.as_slice())
}

// Adds the status items that have the fault.
#[tactic(auto, using(tv_model::proofs::EachAfterLemmas::length_each_after))]
fn add_status(
    alloc: Global,
    found: &mut Sequence<Fault>,
    kind: FaultKind,
    desc: &Desc,
) -> Result<(), AllocError>
    ensures { OnOk result (found.new ≡ found.old ++ map (fault_at kind) (status_lines kind desc.now)) }
{
    let items = desc.status.as_slice();
    let faulty = faulty_status_items(alloc, kind, desc)?;
    add_where(found, kind, items, faulty.as_slice())
}

// Adds the views of the window or dialog that have the fault.
#[tactic(auto, using(tv_model::proofs::EachAfterLemmas::length_each_after))]
fn add_views(
    alloc: Global,
    found: &mut Sequence<Fault>,
    kind: FaultKind,
    body: &Body,
) -> Result<(), AllocError>
    ensures { OnOk result (found.new
        ≡ found.old ++ map (fault_at kind) (view_lines kind body.now.frame.now body.now.ends
        (option_copied body.now.sharing) body.now.views.now)) }
{
    let faulty = faulty_views(alloc, kind, body)?;
    add_where(found, kind, body.views, faulty.as_slice())
}

// Adds the rules of the dialog that have the fault.
#[tactic(auto, using(tv_model::proofs::EachAfterLemmas::length_each_after))]
fn add_rules(
    alloc: Global,
    found: &mut Sequence<Fault>,
    kind: FaultKind,
    dialog: &Dialog,
) -> Result<(), AllocError>
    ensures { OnOk result (found.new ≡ found.old ++ map (fault_at kind) (rule_lines kind dialog.now)) }
{
    let rules = dialog.rules.as_slice();
    let faulty = faulty_rules(alloc, kind, dialog)?;
    add_where(found, kind, rules, faulty.as_slice())
}

// Adds the menus that have the fault, and their items.
#[tactic(auto, using(tv_model::proofs::EachAfterLemmas::length_each_after))]
fn add_menus(
    alloc: Global,
    found: &mut Sequence<Fault>,
    kind: FaultKind,
    menus: &[Menu],
) -> Result<(), AllocError>
    ensures { OnOk result (found.new
        ≡ found.old ++ map (fault_at kind) (flat_map (λ pair. menu_lines kind pair.0 pair.1)
        (after_seen [] menus.now))) }
{
    let faulty = faulty_menus(alloc, kind, menus)?;
    let faulty = faulty.as_slice();
    for (i, menu) in menus.iter().enumerate() {
        add_if(found, faulty[i], kind, menu.id.0)?;
        add_items(alloc, found, kind, menu)?;
    }
    Ok(())
}

// Adds the windows that have the fault, and their texts.
#[tactic(auto, using(tv_model::proofs::EachAfterLemmas::length_each_after))]
fn add_windows<'a>(
    alloc: Global,
    found: &mut Sequence<Fault>,
    kind: FaultKind,
    windows: &'a [Window],
    starts: &'a [Sequence<StartFaults>],
) -> Result<(), AllocError>
    requires { starts.now ≡ map (λ window. starts_of window.views) windows.now }
    ensures { OnOk result (found.new
        ≡ found.old ++ map (fault_at kind) (flat_map (λ pair. window_lines kind pair.0 pair.1)
        (after_seen [] windows.now))) }
{
    let faulty = faulty_windows(alloc, kind, windows)?;
    let faulty = faulty.as_slice();
    for (i, window) in windows.iter().enumerate() {
        add_if(found, faulty[i], kind, window.node.id.0)?;
        add_views(
            alloc,
            found,
            kind,
            &Body {
                frame: &window.node,
                ends: NO_ENDS,
                sharing: None,
                views: window.views.as_slice(),
                starts: starts[i].as_slice(),
            },
        )?;
    }
    Ok(())
}

// Adds the dialogs that have the fault, and what stands in them.
#[tactic(auto, using(tv_model::proofs::EachAfterLemmas::length_each_after))]
fn add_dialogs(
    alloc: Global,
    found: &mut Sequence<Fault>,
    kind: FaultKind,
    desc: &Desc,
    starts: &[Sequence<StartFaults>],
) -> Result<(), AllocError>
    requires { starts.now ≡ map (λ dialog. starts_of dialog.views) desc.now.dialogs }
    ensures { OnOk result (found.new
        ≡ found.old ++ map (fault_at kind) (flat_map (λ pair. dialog_lines kind desc.now pair.0 pair.1)
        (after_seen [] desc.now.dialogs))) }
{
    let dialogs = desc.dialogs.as_slice();
    let faulty = faulty_dialogs(alloc, kind, desc)?;
    let faulty = faulty.as_slice();
    for (i, dialog) in dialogs.iter().enumerate() {
        add_if(found, faulty[i], kind, dialog.node.id.0)?;
        add_views(
            alloc,
            found,
            kind,
            &Body {
                frame: &dialog.node,
                ends: dialog.head().ends,
                sharing: sharing_rules(desc.version, dialog),
                views: dialog.views.as_slice(),
                starts: starts[i].as_slice(),
            },
        )?;
        add_rules(alloc, found, kind, dialog)?;
    }
    Ok(())
}

// Adds all lines that have the fault.
fn add_kind(
    alloc: Global,
    found: &mut Sequence<Fault>,
    kind: FaultKind,
    desc: &Desc,
    starts: &Starts,
) -> Result<(), AllocError>
    requires { AreStartsIn desc.now starts.now }
    ensures { OnOk result (found.new ≡ found.old ++ faults_at kind desc.now) }
{
    add_head(found, kind, desc)?;
    add_menus(alloc, found, kind, desc.menus.as_slice())?;
    add_status(alloc, found, kind, desc)?;
    add_windows(
        alloc,
        found,
        kind,
        desc.windows.as_slice(),
        starts.in_windows.as_slice(),
    )?;
    add_dialogs(alloc, found, kind, desc, starts.in_dialogs.as_slice())?;
    Ok(())
}

/// Finds all faults of the description, ordered by number and then by line.
#[tactic(auto, unfolding(tv_model::specs::Faults::faults_of))]
pub fn faults(alloc: Global, desc: &Desc) -> Result<Sequence<Fault>, AllocError>
    ensures value { IfOk result (λ list. list ≡ faults_of desc.now) }
    ensures order { IsDescription desc.now → IfOk result AreInOrder }
    ensures sound { IfOk result (λ list. (list ≡ []) ↔ Sound desc.now) }
{
    let starts = judge_all_starts(alloc, desc)?;
    let mut found = Sequence::new(alloc);
    for kind in &KINDS {
        add_kind(alloc, &mut found, *kind, desc, &starts)?;
    }
    Ok(found)
}
