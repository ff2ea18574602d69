//! F2: dialogs not within the desktop, and views not within their owners.

ghost use Rattle.std.specs.Prelude.{◌≡◌, ◌<◌, length, take, option_and_then, option_copied, slice_get, slice_index_or, IfOk};
ghost use Rattle.tv_model.specs.Faults.Places.{is_off_desktop, is_outside};
ghost use Rattle.tv_model.specs.Description.Panes.{room_in};
ghost use Rattle.tv_model.specs.Faults.Each.{each_after};
ghost use Rattle.tv_overlaps.specs.Standing.{IsOwningPane};

use crate::area::Area;
use crate::owner::owners;
use std::alloc::{AllocError, Global};
use tv_model::{Desc, Dialog, Node};

/// Whether the dialog isn't within the desktop.
pub fn is_off_desktop(desc: &Desc, dialog: &Dialog) -> bool
    ensures { result ≡ is_off_desktop desc.now dialog.now }
{
    !Area::of_node(&dialog.node).is_within(&Area::desktop(desc))
}

// Where the views of an owner may be.
fn room_in(frame: &Node, owner: Option<&Node>) -> Area
    ensures { result ≡ room_in frame.now (option_copied owner.entry) }
{
    match owner {
        Some(pane) => Area::whole(pane),
        None => Area::interior(frame),
    }
}

// The pane that is the owner, where there is one.
fn pane_of(views: &[Node], owner: Option<usize>) -> Option<&Node>
    ensures { option_copied result ≡ option_and_then (slice_get views.now) owner }
{
    views.get(owner?)
}

// Whether the view at this place isn't within its pane, or within the frame of its window or dialog.
fn is_outside(frame: &Node, views: &[Node], owner: Option<usize>, place: usize) -> bool
    requires owner { IsOwningPane views.now place owner }
    requires within { place < length views.now }
    ensures { (view : Node) → result ≡ is_outside frame.now (take place views.now) (slice_index_or views.now place view) }
{
    let room = room_in(frame, pane_of(views, owner));
    !Area::of_node(&views[place]).is_within(&room)
}

/// Returns for each view whether it isn't within its pane, or within the frame of its window or dialog.
pub fn are_outside(alloc: Global, frame: &Node, views: &[Node]) -> Result<Vec<bool>, AllocError>
    ensures { IfOk result (λ outside. outside.items ≡ each_after (is_outside frame.now) views.now) }
{
    let owners = owners(alloc, views)?;
    let mut outside = Vec::new(alloc);
    for (place, owner) in owners.iter().enumerate() {
        outside.push(is_outside(frame, views, *owner, place))?;
    }
    Ok(outside)
}
