//! Views that clash with an earlier one in some point.

ghost use Rattle.std.specs.Prelude.{◌≡◌, true, filter, length, IfOk, OnOk};
ghost use Rattle.std.specs.List.{All, list_any};
ghost use Rattle.tv_overlaps.specs.Marks.{AreMarked, IsPlacedItem, collide, enters, meets};

use crate::columns::mark_columns;
use crate::placed::{Placed, columns_of};
use crate::span::Span;
use std::alloc::{AllocError, Global};

// So many items are compared in pairs, which is faster than to part them. A lawful window or dialog has no more.
const FEW: usize = 64;

// The items that have rows of this half, and not all rows.
fn inner(alloc: Global, rows: Span, half: Span, items: &[Placed]) -> Result<Vec<Placed>, AllocError>
    ensures { IfOk result (λ inner. inner.items ≡ filter (λ item. enters rows half item.rows) items.now) }
{
    items
        .iter()
        .filter(|item| item.rows.enters(&rows, &half))
        .copied()
        .collect(alloc)
}

// Whether the item clashes with one of those before it and shares a point with it.
fn is_hit(before: &[Placed], item: &Placed) -> bool
    ensures { result ≡ list_any (λ other. collide other item.now) before.now }
{
    before.iter().any(|other| other.collides(item))
}

// Marks the items that clash with an earlier one and share a point with it, each beside all those before it.
fn mark_few(marks: &mut [bool], items: &[Placed])
    requires { All (IsPlacedItem (length marks.old)) items.now }
    ensures { AreMarked collide items.now marks.old marks.new }
{
    for (i, item) in items.iter().enumerate() {
        if is_hit(&items[..i], item) {
            marks[item.place] = true;
        }
    }
}

/// Marks the items that clash with an earlier one and share a point with it. They have something in the rows.
pub fn mark_rows(
    alloc: Global,
    marks: &mut [bool],
    rows: Span,
    items: &[Placed],
) -> Result<(), AllocError>
    requires items { All (IsPlacedItem (length marks.old)) items.now }
    requires rows { All (λ item. meets rows item.rows ≡ true) items.now }
    ensures len { length marks.new ≡ length marks.old }
    ensures marks { OnOk result (AreMarked collide items.now marks.old marks.new) }
{
    if items.len() <= FEW {
        mark_few(marks, items);
        return Ok(());
    }
    // What fills the rows shares one with every other item there. Two that don't share one in one of the halves.
    mark_columns(alloc, marks, rows, columns_of(items), items)?;
    let Some((upper, lower)) = rows.halves() else {
        return Ok(());
    };
    mark_rows(alloc, marks, upper, &inner(alloc, rows, upper, items)?)?;
    mark_rows(alloc, marks, lower, &inner(alloc, rows, lower, items)?)
}
