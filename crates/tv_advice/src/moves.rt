//! How to bring back inside what lies outside of what it stands in.

use crate::index::Index;
use crate::owner::{Owner, free_room, is_free, may_grow};
use crate::room::{Axis, AxisWords, Extent, Room};
use std::alloc::{AllocError, Global};
use tv_faults::least_width;
use tv_model::{Kind, Node};

/// Says where a view could begin that finds no room in its own columns and rows, or what has to be done.
pub fn elsewhere(
    alloc: Global,
    index: &Index,
    node: &Node,
    owner: Owner,
    otherwise: &str,
) -> Result<String, AllocError> {
    if let Some(room) = free_room(index, node, owner.room) {
        let (column, row) = (room.columns.first, room.rows.first);
        return format!(in alloc; "begin at column {column} in row {row}");
    }
    further_down(alloc, index, node, owner, otherwise)
}

// How a view could begin below all that its owner has, if the owner can be higher, or what has to be done.
fn further_down(
    alloc: Global,
    index: &Index,
    node: &Node,
    owner: Owner,
    otherwise: &str,
) -> Result<String, AllocError> {
    let own = Room::of(node);
    let (word, count, row) = (owner.word, own.rows.count(), owner.room.rows.next());
    let below = own.with(Axis::Rows, own.rows.moved_to(row));
    let fits = own.columns.is_within(owner.room.columns) && is_free(index, node, below);
    if fits && may_grow(index, owner, Axis::Rows, count) {
        format!(in alloc; "make the {word} {count} higher, and begin at row {row}")
    } else {
        String::from_str(alloc, otherwise)
    }
}

// The least rows of what has a height of its own.
fn least_height(kind: &Kind) -> i64 {
    match kind {
        Kind::Window(_) | Kind::Dialog(_) => 3,
        _ => 1,
    }
}

/// Whether its line has its height.
pub fn has_height(kind: &Kind) -> bool {
    matches!(
        kind,
        Kind::Window(_) | Kind::Dialog(_) | Kind::Text(_) | Kind::List(_) | Kind::Pane(_)
    )
}

// Whether a node of the kind can have so few columns or rows.
fn may_shrink(kind: &Kind, axis: Axis, count: i64) -> bool {
    match axis {
        Axis::Columns => i64::from(least_width(kind)) <= count,
        Axis::Rows => has_height(kind) && least_height(kind) <= count,
    }
}

// What is said where a view fits nowhere.
const CROWDED: &str = "move or shrink what stands around it, to make room";

// How to bring columns back inside of which there are not too many.
fn move_columns(
    alloc: Global,
    index: &Index,
    node: &Node,
    owner: Owner,
) -> Result<String, AllocError> {
    let (own, room) = (Room::of(node), owner.room.columns);
    let over = own.columns.last.saturating_sub(room.last);
    let latest = own.columns.first.saturating_sub(over);
    let is_before = own.columns.first < room.first;
    let (place, bound) = if is_before {
        (room.first, "earliest")
    } else {
        (latest, "latest")
    };
    let moved = own.with(Axis::Columns, own.columns.moved_to(place));
    let left = own.columns.count().saturating_sub(over);
    let may_shrink = !is_before && may_shrink(&node.kind, Axis::Columns, left);
    match (is_free(index, node, moved), may_shrink) {
        (true, false) => format!(in alloc; "begin at column {place} at the {bound}"),
        (true, true) => format!(in alloc;
            "begin at column {place} at the {bound}, or make it {over} narrower"
        ),
        (false, true) => format!(in alloc; "make it {over} narrower"),
        (false, false) => elsewhere(alloc, index, node, owner, CROWDED),
    }
}

// How to bring rows back inside of which there are not too many.
fn move_rows(
    alloc: Global,
    index: &Index,
    node: &Node,
    owner: Owner,
) -> Result<String, AllocError> {
    let (own, room, word) = (Room::of(node), owner.room.rows, owner.word);
    let over = own.rows.last.saturating_sub(room.last);
    let latest = own.rows.first.saturating_sub(over);
    let is_before = own.rows.first < room.first;
    let (place, turn) = if is_before {
        (room.first, "down")
    } else {
        (latest, "up")
    };
    let moved = own.with(Axis::Rows, own.rows.moved_to(place));
    let may_grow = !is_before && may_grow(index, owner, Axis::Rows, over);
    match (is_free(index, node, moved), may_grow) {
        (true, false) => format!(in alloc; "move it {turn} to row {place}"),
        (true, true) => format!(in alloc;
            "move it {turn} to row {place}, or make the {word} {over} higher"
        ),
        (false, true) => format!(in alloc; "make the {word} {over} higher"),
        (false, false) => elsewhere(alloc, index, node, owner, CROWDED),
    }
}

/// What is too long for its owner: by how many columns or rows, and what may change.
#[derive(Clone, Copy)]
struct Excess {
    axis: Axis,
    over: i64,
    /// Where it has to begin, if it begins before what is inside.
    begin: Option<i64>,
    may_shrink: bool,
    may_grow: bool,
}

// How many columns or rows there are too many for the room, from a place inside on if the first is inside.
fn excess_of(own: Extent, room: Extent) -> i64 {
    if room.first <= own.first {
        own.last.saturating_sub(room.last)
    } else {
        own.count().saturating_sub(room.count())
    }
}

// Where what begins before the room has to begin.
fn begin_of(own: Extent, room: Extent) -> Option<i64> {
    (own.first < room.first).then_some(room.first)
}

fn excess_along(index: &Index, node: &Node, owner: Owner, axis: Axis) -> Excess {
    let place = Room::of(node);
    let (own, room) = (place.along(axis), owner.room.along(axis));
    let over = excess_of(own, room);
    let begun = place.with(axis, own.moved_to(own.first.max(room.first)));
    let left = own.count().saturating_sub(over);
    Excess {
        axis,
        over,
        begin: begin_of(own, room),
        may_shrink: may_shrink(&node.kind, axis, left),
        may_grow: may_grow(index, owner, axis, over) && is_free(index, node, begun),
    }
}

// Where it has to begin, before what else has to be done.
fn begin_text(alloc: Global, axis: Axis, begin: Option<i64>) -> Result<String, AllocError> {
    let one = axis.words().one;
    match begin {
        Some(first) => format!(in alloc; "begin at {one} {first}, and "),
        None => Ok(String::new(alloc)),
    }
}

// How to mend what is too long for an owner that is called so.
fn excess_mend(alloc: Global, excess: Excess, word: &str) -> Result<String, AllocError> {
    let Excess { axis, over, .. } = excess;
    let AxisWords { less, more, .. } = axis.words();
    let begin = begin_text(alloc, axis, excess.begin)?;
    match (excess.may_shrink, excess.may_grow) {
        (true, true) => {
            let or = if begin.is_empty() { ", or" } else { " or" };
            format!(in alloc; "{begin}make it {over} {less}{or} the {word} {over} {more}")
        }
        (true, false) => format!(in alloc; "{begin}make it {over} {less}"),
        (false, true) => format!(in alloc; "{begin}make the {word} {over} {more}"),
        (false, false) => String::from_str(alloc, CROWDED),
    }
}

/// Says how to bring a node's columns or rows back inside of its owner.
pub fn inside_mend(
    alloc: Global,
    index: &Index,
    node: &Node,
    owner: Owner,
    axis: Axis,
) -> Result<String, AllocError> {
    if owner.room.along(axis).count() < Room::of(node).along(axis).count() {
        return excess_mend(alloc, excess_along(index, node, owner, axis), owner.word);
    }
    match axis {
        Axis::Columns => move_columns(alloc, index, node, owner),
        Axis::Rows => move_rows(alloc, index, node, owner),
    }
}
