//! The tab lines of a certificate beside the order of Tab.

ghost use Rattle.std.specs.Prelude.{◌≡◌, ◌++◌, ◌↔◌, IfOk, OnOk, IsTrue, MatchOption, map, option_copied, option_map, slice_get};
ghost use Rattle.tv_model.specs.Description.Certificates.{dialog_name, tab_order, tabs_of};
ghost use Rattle.tv_check.specs.Certificates.{tab_lines};
ghost use Rattle.tv_check.specs.Lent.{lent_tab};
ghost use Rattle.tv_check.specs.Refusals.{DifferFirst};

use crate::certification::control_name;
use std::alloc::{AllocError, Global};
use tv_certificate::Block;
use tv_model::{Desc, Dialog};

// A control beside its dialog, both by name.
#[derive(Drop)]
struct Tab<'a> {
    dialog: &'a [char],
    control: &'a [char],
}

impl<'a> Tab<'a> {
    fn is(&self, other: &Tab) -> bool
        ensures { IsTrue result ↔ (lent_tab self.now ≡ lent_tab other.now) }
    {
        self.dialog == other.dialog && self.control == other.control
    }
}

fn is_same(tab: Option<&Tab>, other: Option<&Tab>) -> bool
    ensures { IsTrue result ↔ (option_map lent_tab (option_copied tab.entry) ≡ option_map lent_tab (option_copied other.entry)) }
{
    match (tab, other) {
        (Some(tab), Some(other)) => tab.is(other),
        (None, None) => true,
        _ => false,
    }
}

// The tab lines of the blocks.
fn lines<'a>(alloc: Global, blocks: &'a [Block]) -> Result<Vec<Tab<'a>>, AllocError>
    ensures { IfOk result (λ tabs. map lent_tab tabs.items ≡ tab_lines blocks.now) }
{
    let mut tabs = Vec::new(alloc);
    for block in blocks {
        add_lines(&mut tabs, block)?;
    }
    Ok(tabs)
}

fn add_lines<'a>(tabs: &mut Vec<Tab<'a>>, block: &'a Block) -> Result<(), AllocError>
    ensures { OnOk result (map lent_tab tabs.new.items
        ≡ map lent_tab tabs.old.items ++ map (λ name. (block.now.dialog, name)) block.now.tabs) }
{
    for name in block.tabs.as_slice() {
        tabs.push(Tab {
            dialog: block.dialog.as_slice(),
            control: name.as_slice(),
        })?;
    }
    Ok(())
}

// The order of Tab.
fn order<'a>(alloc: Global, desc: &'a Desc) -> Result<Vec<Tab<'a>>, AllocError>
    ensures { IfOk result (λ tabs. map lent_tab tabs.items ≡ tab_order desc.now) }
{
    let mut tabs = Vec::new(alloc);
    for dialog in desc.dialogs.as_slice() {
        add_order(&mut tabs, dialog)?;
    }
    Ok(tabs)
}

fn add_order<'a>(tabs: &mut Vec<Tab<'a>>, dialog: &'a Dialog) -> Result<(), AllocError>
    ensures { OnOk result (map lent_tab tabs.new.items
        ≡ map lent_tab tabs.old.items ++ map (λ name. (dialog_name dialog.now, name)) (tabs_of dialog.now)) }
{
    for node in dialog.views.as_slice() {
        if let Some(name) = control_name(&node.kind) {
            tabs.push(Tab {
                dialog: dialog.head().name.as_slice(),
                control: name.as_slice(),
            })?;
        }
    }
    Ok(())
}

fn at<'a>(tabs: &'a [Tab], place: usize) -> Option<&'a Tab<'a>>
    ensures { option_copied result ≡ slice_get tabs.now place }
{
    tabs.get(place)
}

// The first place at which they differ, counted from 1.
fn first_difference(given: &[Tab], order: &[Tab]) -> Option<usize>
    ensures { MatchOption result (map lent_tab given.now ≡ map lent_tab order.now)
        (DifferFirst (map lent_tab given.now) (map lent_tab order.now)) }
{
    for before in 0..given.len().max(order.len()) {
        if !is_same(at(given, before), at(order, before)) {
            return Some(before + 1);
        }
    }
    None
}

/// Finds the first place, counted from 1, at which the tab lines differ from the order of Tab.
pub fn first_tab(alloc: Global, desc: &Desc, blocks: &[Block]) -> Result<Option<usize>, AllocError>
    ensures { IfOk result (λ place. MatchOption place (tab_lines blocks.now ≡ tab_order desc.now)
        (DifferFirst (tab_lines blocks.now) (tab_order desc.now))) }
{
    let given = lines(alloc, blocks)?;
    let order = order(alloc, desc)?;
    Ok(first_difference(&given, &order))
}
