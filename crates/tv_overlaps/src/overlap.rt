//! F3: views that overlap an earlier sibling and may not.

ghost use Rattle.std.specs.Prelude.{◌≡◌, fold, length, max, zip, IfOk};
ghost use Rattle.tv_model.specs.Faults.Places.{overlaps_earlier};
ghost use Rattle.tv_model.specs.Faults.Each.{each_after};
ghost use Rattle.tv_overlaps.specs.Placing.{placed_from};
ghost use Rattle.tv_overlaps.specs.Standing.{AreSiblingsNumbered};

use crate::area::Area;
use crate::owner::siblings;
use crate::placed::{Placed, weight};
use crate::siblings::mark_siblings;
use std::alloc::{AllocError, Global};
use tv_model::Node;

// The views that have points, by what they take of their owners.
fn placed(alloc: Global, views: &[Node], owners: &[usize]) -> Result<Vec<Placed>, AllocError>
    requires { length owners.now ≡ length views.now }
    ensures { IfOk result (λ items. items.items ≡ placed_from 0 (zip owners.now views.now)) }
{
    let mut items = Vec::new(alloc);
    for (place, view) in views.iter().enumerate() {
        let area = Area::of_node(view);
        if area.has_points() {
            items.push(Placed {
                place,
                owner: owners[place],
                rows: area.rows(),
                columns: area.columns(),
                weight: weight(&view.kind),
            })?;
        }
    }
    Ok(items)
}

// The greatest number of an owner.
fn last_owner(items: &[Placed]) -> usize
    ensures { result ≡ fold (λ last item. max last item.owner) 0 items.now }
{
    items.iter().fold(0, |last, item| last.max(item.owner))
}

// Which views overlap an earlier sibling and may not, where siblings have the same number.
fn overlaps_among(
    alloc: Global,
    views: &[Node],
    siblings: &[usize],
) -> Result<Vec<bool>, AllocError>
    requires { AreSiblingsNumbered siblings.now views.now }
    ensures { IfOk result (λ found. found.items ≡ each_after overlaps_earlier views.now) }
{
    let items = placed(alloc, views, siblings)?;
    let mut marks = vec![in alloc; false; views.len()]?;
    mark_siblings(alloc, &mut marks, 0, last_owner(&items), &items)?;
    Ok(marks)
}

/// Returns for each view whether it overlaps an earlier sibling and may not.
///
/// Takes about n log² n steps for n views, where comparing all pairs would take n².
pub fn overlaps(alloc: Global, views: &[Node]) -> Result<Vec<bool>, AllocError>
    ensures { IfOk result (λ found. found.items ≡ each_after overlaps_earlier views.now) }
{
    let siblings = siblings(alloc, views)?;
    overlaps_among(alloc, views, &siblings)
}
