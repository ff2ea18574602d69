//! Views that clash with an earlier sibling.

ghost use Rattle.std.specs.Prelude.{◌≡◌, true, filter, length, IfOk, OnOk};
ghost use Rattle.std.specs.List.{All};
ghost use Rattle.tv_overlaps.specs.Marks.{AreMarked, IsPlacedItem, collide_as_siblings, is_owned};

use crate::placed::{Placed, rows_of};
use crate::rows::mark_rows;
use std::alloc::{AllocError, Global};

// The items of these owners.
fn owned(
    alloc: Global,
    first: usize,
    last: usize,
    items: &[Placed],
) -> Result<Vec<Placed>, AllocError>
    ensures { IfOk result (λ owned. owned.items ≡ filter (is_owned first last) items.now) }
{
    items
        .iter()
        .filter(|item| first <= item.owner && item.owner <= last)
        .copied()
        .collect(alloc)
}

/// Marks the items that clash with an earlier one of the same owner. The owners are numbered `first` to `last`.
pub fn mark_siblings(
    alloc: Global,
    marks: &mut [bool],
    first: usize,
    last: usize,
    items: &[Placed],
) -> Result<(), AllocError>
    requires items { All (IsPlacedItem (length marks.old)) items.now }
    requires owners { All (λ item. is_owned first last item ≡ true) items.now }
    ensures len { length marks.new ≡ length marks.old }
    ensures marks { OnOk result (AreMarked collide_as_siblings items.now marks.old marks.new) }
{
    if items.len() < 2 {
        return Ok(());
    }
    if last <= first {
        return mark_rows(alloc, marks, rows_of(items), items);
    }
    let middle = first + (last - first) / 2;
    mark_siblings(
        alloc,
        marks,
        first,
        middle,
        &owned(alloc, first, middle, items)?,
    )?;
    mark_siblings(
        alloc,
        marks,
        middle + 1,
        last,
        &owned(alloc, middle + 1, last, items)?,
    )
}
