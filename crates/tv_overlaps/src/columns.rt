//! Views that clash with an earlier one in some column, where one of the two fills certain rows.

ghost use Rattle.std.specs.Prelude.{◌≡◌, true, filter, length, IfOk, OnOk};
ghost use Rattle.std.specs.List.{All, list_any};
ghost use Rattle.tv_overlaps.specs.Marks.{AreMarked, IsPlacedItem, collide_filling, collide_wide, span_covers, enters, meets};

use crate::heaviest::Heaviest;
use crate::placed::Placed;
use crate::span::Span;
use std::alloc::{AllocError, Global};

// The weight that one point has room for.
const ROOM: u8 = 3;

// Marks the items that clash with an earlier one, where one of the two fills the rows, and one the columns.
fn mark_wide(marks: &mut [bool], rows: Span, columns: Span, items: &[Placed])
    requires { All (IsPlacedItem (length marks.old)) items.now }
    ensures { AreMarked (collide_wide rows columns) items.now marks.old marks.new }
{
    let mut heaviest = Heaviest::none();
    for item in items {
        let fills = item.rows.covers(&rows);
        let wide = item.columns.covers(&columns);
        if heaviest.beside(fills, wide) > ROOM - item.weight {
            marks[item.place] = true;
        }
        heaviest.pass(item.weight, fills, wide);
    }
}

// Whether one of them fills the rows.
fn some_fill(rows: Span, items: &[Placed]) -> bool
    ensures { result ≡ list_any (λ item. span_covers item.rows rows) items.now }
{
    items.iter().any(|item| item.rows.covers(&rows))
}

// The items that have columns of this half, and not all columns.
fn inner(
    alloc: Global,
    columns: Span,
    half: Span,
    items: &[Placed],
) -> Result<Vec<Placed>, AllocError>
    ensures { IfOk result (λ inner. inner.items ≡ filter (λ item. enters columns half item.columns) items.now) }
{
    items
        .iter()
        .filter(|item| item.columns.enters(&columns, &half))
        .copied()
        .collect(alloc)
}

/// Marks the items that clash with an earlier one and share a column with it, where one of the two fills the rows.
pub fn mark_columns(
    alloc: Global,
    marks: &mut [bool],
    rows: Span,
    columns: Span,
    items: &[Placed],
) -> Result<(), AllocError>
    requires items { All (IsPlacedItem (length marks.old)) items.now }
    requires columns { All (λ item. meets columns item.columns ≡ true) items.now }
    ensures len { length marks.new ≡ length marks.old }
    ensures marks { OnOk result (AreMarked (collide_filling rows) items.now marks.old marks.new) }
{
    if items.len() < 2 || !some_fill(rows, items) {
        return Ok(());
    }
    // What is as wide as the columns meets every other item there. Two that aren't meet in one of the halves.
    mark_wide(marks, rows, columns, items);
    let Some((left, right)) = columns.halves() else {
        return Ok(());
    };
    mark_columns(
        alloc,
        marks,
        rows,
        left,
        &inner(alloc, columns, left, items)?,
    )?;
    mark_columns(
        alloc,
        marks,
        rows,
        right,
        &inner(alloc, columns, right, items)?,
    )
}
