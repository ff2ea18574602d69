//! What views, windows and dialogs stand in, and whether there is room for them.

use crate::index::Index;
use crate::naming::word_of;
use crate::room::{Axis, Room};
use tv_model::{Desc, Node};

/// What something may stand in.
#[derive(Clone, Copy)]
pub struct Owner<'a> {
    pub word: &'a str,
    pub room: Room,
    /// The pane, the window or the dialog, if it isn't the screen.
    pub node: Option<&'a Node>,
}

impl<'a> Owner<'a> {
    /// Returns a pane, a window or a dialog.
    pub fn of(node: &'a Node) -> Owner<'a> {
        Owner {
            word: word_of(&node.kind),
            room: Room::inside(node),
            node: Some(node),
        }
    }
}

/// Whether a view can take this room: nothing that stands in the same pane or dialog is in its way.
pub fn is_free(index: &Index, node: &Node, room: Room) -> bool {
    let declared = index.declared(node.id.0);
    match (declared.owner, index.kin(declared)) {
        (Some(owner), Some(kin)) => kin.is_free(owner, node, room),
        _ => true,
    }
}

/// Finds a room inside of what a view stands in where nothing is in its way.
pub fn free_room(index: &Index, node: &Node, around: Room) -> Option<Room> {
    let declared = index.declared(node.id.0);
    match (declared.owner, index.kin(declared)) {
        (Some(owner), Some(kin)) => kin.free_room(owner, node, around),
        _ => None,
    }
}

// The most columns and rows of a window, a dialog, a pane or the screen.
const WIDEST: i64 = 132;

const HIGHEST: i64 = 60;

// Whether a window, a dialog, a pane or the screen can have so many columns and rows.
fn may_have(columns: i64, rows: i64) -> bool {
    columns <= WIDEST && rows <= HIGHEST
}

// Whether the screen can have so many columns or rows more.
fn screen_may_grow(desc: &Desc, axis: Axis, count: i64) -> bool {
    let (width, height) = (i64::from(desc.width), i64::from(desc.height));
    match axis {
        Axis::Columns => may_have(width.saturating_add(count), height),
        Axis::Rows => may_have(width, height.saturating_add(count)),
    }
}

// Whether a pane, a window or a dialog can take this room, which is larger than its own.
fn may_take(index: &Index, node: &Node, grown: Room) -> bool {
    if !may_have(grown.columns.count(), grown.rows.count()) {
        return false;
    }
    match index.declared(node.id.0).owner {
        Some(around) => grown.is_within(Room::inside(around)) && is_free(index, node, grown),
        None => node.kind.is_window() || grown.is_within(Room::desktop(index.desc())),
    }
}

/// Whether an owner can have so many columns or rows more, without a fault that it hasn't now.
pub fn may_grow(index: &Index, owner: Owner, axis: Axis, count: i64) -> bool {
    match owner.node {
        Some(node) => may_take(index, node, Room::of(node).grown_by(axis, count)),
        None => screen_may_grow(index.desc(), axis, count),
    }
}
