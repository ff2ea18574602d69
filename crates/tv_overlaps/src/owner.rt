//! Panes in which views stand, and siblings of views.

ghost use Rattle.std.specs.Prelude.{◌≡◌, ◌<◌, ◌≤◌, suc, length, slice_index_or, take, IfOk};
ghost use Rattle.tv_model.specs.Description.Rules.{stands_over};
ghost use Rattle.tv_overlaps.specs.Standing.{AreFirstOwners, AreFirstPlaces, AreOwners, AreSiblingsNumbered, IsLastAbove, IsFirstSibling, IsOwningPane};

use std::alloc::{AllocError, Global};
use tv_model::{Id, Node};

// The last view before this place that is at most so deep. The owners of the views before the place are known: the way
// from owner to owner leaves out what no later view can stand in, so that in a pass over all places each is passed once.
fn last_within(owners: &[Option<usize>], views: &[Node], place: usize, depth: u8) -> Option<usize>
    requires known { AreFirstOwners owners.now views.now }
    requires room { place ≤ length owners.now }
    requires fits { place ≤ length views.now }
    ensures { IsLastAbove views.now (suc depth) place result }
{
    let mut nearest = place.checked_sub(1);
    while let Some(earlier) = nearest {
        if views[earlier].depth <= depth {
            return nearest;
        }
        nearest = owners[earlier];
    }
    None
}

// The pane in which the view at this place stands. The owners of the views before it are known.
fn owner_at(owners: &[Option<usize>], views: &[Node], place: usize) -> Option<usize>
    requires known { AreFirstOwners owners.now views.now }
    requires room { place ≤ length owners.now }
    requires fits { place < length views.now }
    ensures { IsOwningPane views.now place result }
{
    let depth = views[place].depth;
    let nearest = last_within(owners, views, place, depth)?;
    if views[nearest].depth < depth {
        Some(nearest)
    } else {
        owners[nearest]
    }
}

/// Returns for each view the place of the pane in which it stands, or `None` where that is its window or dialog.
pub fn owners(alloc: Global, views: &[Node]) -> Result<Vec<Option<usize>>, AllocError>
    ensures { IfOk result (λ owners. AreOwners owners.items views.now) }
{
    let mut owners = Vec::new(alloc);
    for place in 0..views.len() {
        owners.push(owner_at(&owners, views, place))?;
    }
    Ok(owners)
}

// The place of the first sibling of the view at this place. The owners and the first siblings of those before it are
// known.
fn first_sibling(owners: &[Option<usize>], firsts: &[usize], views: &[Node], place: usize) -> usize
    requires owners { AreFirstOwners owners.now views.now }
    requires room { place ≤ length owners.now }
    requires known { length firsts.now ≡ place }
    requires fits { place < length views.now }
    ensures { IsFirstSibling firsts.now views.now place result }
{
    let depth = views[place].depth;
    match last_within(owners, views, place, depth) {
        Some(nearest) if views[nearest].depth == depth => firsts[nearest],
        _ => place,
    }
}

/// Returns for each view the place of the first of its siblings, the views that have the same owner. For the first one
/// that is its own place.
pub fn siblings(alloc: Global, views: &[Node]) -> Result<Vec<usize>, AllocError>
    ensures siblings { IfOk result (λ firsts. AreSiblingsNumbered firsts.items views.now) }
    ensures first { IfOk result (λ firsts. AreFirstPlaces firsts.items) }
{
    let owners = owners(alloc, views)?;
    let mut firsts = Vec::new(alloc);
    for place in 0..views.len() {
        firsts.push(first_sibling(&owners, &firsts, views, place))?;
    }
    Ok(firsts)
}

/// Whether the view of this id is the view at this place or a pane around it.
pub fn stands_over(owners: &[Option<usize>], views: &[Node], target: Id, place: usize) -> bool
    requires owners { AreOwners owners.now views.now }
    requires within { place < length views.now }
    ensures { (view : Node) → result ≡ stands_over target (take place views.now) (slice_index_or views.now place view) }
{
    let mut around = Some(place);
    while let Some(place) = around {
        if views[place].id == target {
            return true;
        }
        around = owners[place];
    }
    false
}
