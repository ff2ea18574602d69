//! A description by its lines.

ghost use Rattle.std.specs.Prelude.{◌≡◌, IfOk, IsTrue, map};
ghost use Rattle.std.specs.List.{All};
ghost use Rattle.tv_explain.specs.Inside.{in_frame, ruled};
ghost use Rattle.tv_explain.specs.Outline.{IsInOrder, IsMenuInOrder};

use crate::inside::{Body, InDialog};
use crate::lines::{Listed, are_in_order};
use std::alloc::{AllocError, Global};
use std::marker::Model;
use tv_model::{Desc, Dialog, Menu, StatusItem, Window};

/// A description, gone through once, however many faults it has: its declarations are found by their lines. Contracts see the
/// description.
#[derive(Drop)]
pub struct Outline<'a> {
    desc: &'a Desc,
    in_windows: Vec<Body<'a>>,
    in_dialogs: Vec<InDialog<'a>>,
    is_in_order: bool,
}

impl<'a> Model for Outline<'a> {
    ghost use Rattle.std.specs.Prelude.{◌≡◌, IsTrue, map};
    ghost use Rattle.tv_explain.specs.Inside.{in_frame, ruled};
    ghost use Rattle.tv_explain.specs.Outline.{IsInOrder};
    ghost use Rattle.tv_model.specs.declared.desc.Desc.{Desc};

    ghost Value = { Desc };

    ghost view = { λ outline. outline.desc.now };

    ghost invariant = { λ outline.
        (outline.in_windows.items ≡ map in_frame outline.desc.now.windows)
        × (outline.in_dialogs.items ≡ map (ruled outline.desc.now.version) outline.desc.now.dialogs)
        × (IsTrue outline.is_in_order → IsInOrder outline.desc.now) };
}

fn are_menus_in_order(menus: &[Menu]) -> bool
    ensures { IsTrue result → All IsMenuInOrder menus.now }
{
    for menu in menus {
        if !are_in_order(menu.items.as_slice()) {
            return false;
        }
    }
    true
}

// Whether these declarations stand in the order of their lines, as they do where they were read.
fn is_in_order(desc: &Desc) -> bool
    ensures { IsTrue result → IsInOrder desc.now }
{
    are_in_order(desc.menus.as_slice())
        && are_menus_in_order(desc.menus.as_slice())
        && are_in_order(desc.status.as_slice())
        && are_in_order(desc.windows.as_slice())
        && are_in_order(desc.dialogs.as_slice())
}

fn in_windows<'a>(alloc: Global, desc: &'a Desc) -> Result<Vec<Body<'a>>, AllocError>
    ensures { IfOk result (λ windows. windows.items ≡ map in_frame desc.now.windows) }
{
    let mut windows = Vec::new(alloc);
    for window in desc.windows.as_slice() {
        windows.push(Body::of_window(alloc, window)?)?;
    }
    Ok(windows)
}

fn in_dialogs<'a>(alloc: Global, desc: &'a Desc) -> Result<Vec<InDialog<'a>>, AllocError>
    ensures { IfOk result (λ dialogs. dialogs.items ≡ map (ruled desc.now.version) desc.now.dialogs) }
{
    let mut dialogs = Vec::new(alloc);
    for dialog in desc.dialogs.as_slice() {
        dialogs.push(InDialog::new(alloc, desc.version, dialog)?)?;
    }
    Ok(dialogs)
}

impl<'a> Outline<'a> {
    /// Goes through a description.
    pub fn new(alloc: Global, desc: &'a Desc) -> Result<Outline<'a>, AllocError>
        ensures { IfOk result (λ outline. outline ≡ desc.now) }
    {
        let in_windows = in_windows(alloc, desc)?;
        let in_dialogs = in_dialogs(alloc, desc)?;
        let is_in_order = is_in_order(desc);
        Ok(Outline {
            desc,
            in_windows,
            in_dialogs,
            is_in_order,
        })
    }

    /// Returns the description.
    pub fn desc(&self) -> &'a Desc
        ensures { result.now ≡ self.now }
    {
        self.desc
    }

    /// Returns the menus.
    pub fn menus(&self) -> Listed<'a, Menu>
        ensures { result ≡ self.now.menus }
    {
        Listed::new(self.desc.menus.as_slice(), self.is_in_order)
    }

    /// Returns the status items.
    pub fn status(&self) -> Listed<'a, StatusItem>
        ensures { result ≡ self.now.status }
    {
        Listed::new(self.desc.status.as_slice(), self.is_in_order)
    }

    /// Returns the windows.
    pub fn windows(&self) -> Listed<'a, Window>
        ensures { result ≡ self.now.windows }
    {
        Listed::new(self.desc.windows.as_slice(), self.is_in_order)
    }

    /// Returns the dialogs.
    pub fn dialogs(&self) -> Listed<'a, Dialog>
        ensures { result ≡ self.now.dialogs }
    {
        Listed::new(self.desc.dialogs.as_slice(), self.is_in_order)
    }

    /// Returns what stands in the windows.
    pub fn in_windows(&self) -> &[Body<'a>]
        ensures { result.now ≡ map in_frame self.now.windows }
    {
        self.in_windows.as_slice()
    }

    /// Returns what stands in the dialogs.
    pub fn in_dialogs(&self) -> &[InDialog<'a>]
        ensures { result.now ≡ map (ruled self.now.version) self.now.dialogs }
    {
        self.in_dialogs.as_slice()
    }

    /// Whether all that it declares outside windows and dialogs stands in the order of its lines.
    pub fn is_in_order(&self) -> bool
        ensures { IsTrue result → IsInOrder self.now }
    {
        self.is_in_order
    }
}
