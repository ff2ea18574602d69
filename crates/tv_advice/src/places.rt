//! What is told of a place: F2 and F3.

use crate::index::Index;
use crate::moves::{elsewhere, has_height, inside_mend};
use crate::naming::{called, word_of, x_word};
use crate::owner::{Owner, is_free};
use crate::room::{Axis, AxisWords, Extent, Room, extent_text};
use crate::saying::{LinePart, Saying};
use std::alloc::{AllocError, Global};
use tv_faults::least_width;
use tv_model::{Kind, Node};

// What is said of the columns or rows that are outside.
fn outside_label(
    alloc: Global,
    axis: Axis,
    own: Extent,
    room: Extent,
) -> Result<String, AllocError> {
    let text = extent_text(alloc, axis, own)?;
    let Extent { first, last } = room;
    let AxisWords {
        one,
        several,
        all,
        ..
    } = axis.words();
    if last < first {
        return format!(in alloc; "{text}, but there are no {several} inside");
    }
    if first == last {
        return format!(in alloc; "{text}, but the only {one} inside is {first}");
    }
    let those = if own.first == own.last { all } else { "those" };
    format!(in alloc; "{text}, but {those} inside are {first} to {last}")
}

// Whether there are too many for the room, from a place inside on.
fn is_too_long(own: Extent, room: Extent) -> bool {
    room.first <= own.first && room.count() < own.count()
}

// The word with the columns or rows that are outside: where they begin, or how many they are.
fn outside_word(kind: &Kind, axis: Axis, own: Extent, room: Extent) -> usize {
    let (at, has_count) = match axis {
        Axis::Columns => (x_word(kind), true),
        Axis::Rows => (x_word(kind).saturating_add(1), has_height(kind)),
    };
    if has_count && is_too_long(own, room) {
        at.saturating_add(2)
    } else {
        at
    }
}

// What is told of a node that doesn't fit into its owner's room: of its columns, or of its rows where those fit.
fn outside_in(
    alloc: Global,
    index: &Index,
    node: &Node,
    owner: Owner,
    message: &str,
) -> Result<Saying, AllocError> {
    let place = Room::of(node);
    let axis = if place.columns.is_within(owner.room.columns) {
        Axis::Rows
    } else {
        Axis::Columns
    };
    let (own, room) = (place.along(axis), owner.room.along(axis));
    let label = outside_label(alloc, axis, own, room)?;
    let mend = inside_mend(alloc, index, node, owner, axis)?;
    let part = LinePart::word(outside_word(&node.kind, axis, own, room));
    Saying::new(alloc, message, part, &label, &mend)
}

/// Tells how a view lies outside its pane, window or dialog.
pub fn outside_owner(
    alloc: Global,
    index: &Index,
    node: &Node,
    owner: &Node,
) -> Result<Saying, AllocError> {
    let (word, around) = (word_of(&node.kind), word_of(&owner.kind));
    let message = format!(in alloc; "this {word} lies outside its {around}")?;
    let saying = outside_in(alloc, index, node, Owner::of(owner), &message)?;
    let label = if owner.kind.is_pane() {
        "width and height"
    } else {
        "width and height with the frame"
    };
    saying.with_other(alloc, LinePart::Words { first: 4, count: 2 }, label)
}

/// Tells how a dialog lies outside the desktop.
pub fn off_desktop(alloc: Global, index: &Index, node: &Node) -> Result<Saying, AllocError> {
    let screen = Owner {
        word: "screen",
        room: Room::desktop(index.desc()),
        node: None,
    };
    let message = "this dialog lies outside the desktop";
    let saying = outside_in(alloc, index, node, screen, message)?;
    let label = "columns and rows, the bar and the status line among them";
    saying.with_other(alloc, LinePart::Words { first: 1, count: 2 }, label)
}

// The words of a node's line with its column, its row and its width.
fn place_part(kind: &Kind) -> LinePart {
    LinePart::Words {
        first: x_word(kind),
        count: 3,
    }
}

// Where a node stands.
fn place_text(alloc: Global, node: &Node) -> Result<String, AllocError> {
    let Room { columns, rows } = Room::of(node);
    let across = extent_text(alloc, Axis::Columns, columns)?;
    let down = extent_text(alloc, Axis::Rows, rows)?;
    format!(in alloc; "{across}, {down}")
}

// Where the node could begin, of these places of it.
fn free_place(index: &Index, node: &Node, room: Room, places: [Room; 2]) -> Option<Room> {
    places.into_iter().find(|place| place.is_within(room) && is_free(index, node, *place))
}

// How many columns the node could be narrower, so as to end before the other one.
fn narrower(index: &Index, node: &Node, other: &Node) -> Option<i64> {
    let own = Room::of(node);
    let end = Room::of(other).columns.first.saturating_sub(1);
    let left = own.with(Axis::Columns, own.columns.up_to(end));
    let is_enough = i64::from(least_width(&node.kind)) <= left.columns.count();
    (is_enough && is_free(index, node, left)).then_some(own.columns.last.saturating_sub(end))
}

// The column and the row at which the node could begin beside the other one, below or above it.
fn free_places(index: &Index, node: &Node, other: &Node, room: Room) -> (Option<i64>, Option<i64>) {
    let (own, taken) = (Room::of(node), Room::of(other));
    let before = taken.columns.first.saturating_sub(own.columns.count());
    let above = taken.rows.first.saturating_sub(own.rows.count());
    let beside = [
        own.with(Axis::Columns, own.columns.moved_to(taken.columns.next())),
        own.with(Axis::Columns, own.columns.moved_to(before)),
    ];
    let below = [
        own.with(Axis::Rows, own.rows.moved_to(taken.rows.next())),
        own.with(Axis::Rows, own.rows.moved_to(above)),
    ];
    let column = free_place(index, node, room, beside).map(|place| place.columns.first);
    let row = free_place(index, node, room, below).map(|place| place.rows.first);
    (column, row)
}

// What is said where neither of two views finds room.
const MOVE_ONE: &str = "move or shrink one of the two";

// How to bring the node out of the other one's way.
fn overlap_mend(
    alloc: Global,
    index: &Index,
    node: &Node,
    other: &Node,
    owner: Owner,
) -> Result<String, AllocError> {
    match free_places(index, node, other, owner.room) {
        (Some(column), Some(row)) => {
            format!(in alloc; "begin at column {column}, or at row {row}")
        }
        (Some(column), None) => format!(in alloc; "begin at column {column}"),
        (None, Some(row)) => format!(in alloc; "begin at row {row}"),
        (None, None) => match narrower(index, node, other) {
            Some(by) => format!(in alloc; "make it {by} narrower"),
            None => elsewhere(alloc, index, node, owner, MOVE_ONE),
        },
    }
}

/// Tells how a view of a dialog overlaps another one in the same pane or dialog, its owner.
pub fn overlap(
    alloc: Global,
    index: &Index,
    owner: Option<&Node>,
    node: &Node,
    other: &Node,
) -> Result<Saying, AllocError> {
    let word = word_of(&node.kind);
    let first = called(alloc, other)?;
    let message = format!(in alloc; "this {word} overlaps {first}")?;
    let mend = match owner {
        Some(owner) => overlap_mend(alloc, index, node, other, Owner::of(owner))?,
        None => String::from_str(alloc, MOVE_ONE)?,
    };
    let (own, taken) = (place_text(alloc, node)?, place_text(alloc, other)?);
    let saying = Saying::new(alloc, &message, place_part(&node.kind), &own, &mend)?;
    saying.with_other(alloc, place_part(&other.kind), &taken)
}
