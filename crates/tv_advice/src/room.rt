//! Columns and rows, and what stands in them.

use std::alloc::{AllocError, Global};
use tv_model::{Desc, Kind, Node};

/// Columns or rows.
#[derive(Clone, Copy)]
pub enum Axis {
    Columns,
    Rows,
}

/// What one is called, several are and all are, and what has fewer or more of them.
#[derive(Clone, Copy)]
pub struct AxisWords {
    pub one: &'static str,
    pub several: &'static str,
    pub all: &'static str,
    pub less: &'static str,
    pub more: &'static str,
}

impl Axis {
    /// Returns its words.
    pub fn words(self) -> AxisWords {
        match self {
            Axis::Columns => AxisWords {
                one: "column",
                several: "columns",
                all: "the columns",
                less: "narrower",
                more: "wider",
            },
            Axis::Rows => AxisWords {
                one: "row",
                several: "rows",
                all: "the rows",
                less: "lower",
                more: "higher",
            },
        }
    }
}

/// Columns or rows, the first and the last.
#[derive(Clone, Copy)]
pub struct Extent {
    pub first: i64,
    pub last: i64,
}

impl Extent {
    /// Returns so many from this one on.
    pub fn from(first: i32, count: i64) -> Extent {
        let first = i64::from(first);
        Extent {
            first,
            last: first.saturating_add(count).saturating_sub(1),
        }
    }

    /// Returns how many there are.
    pub fn count(self) -> i64 {
        self.last.saturating_sub(self.first).saturating_add(1)
    }

    /// Whether all of them are among these.
    pub fn is_within(self, room: Extent) -> bool {
        room.first <= self.first && self.last <= room.last
    }

    /// Returns as many from another one on.
    pub fn moved_to(self, first: i64) -> Extent {
        Extent {
            first,
            last: first.saturating_add(self.count()).saturating_sub(1),
        }
    }

    /// Returns those up to this one.
    pub fn up_to(self, last: i64) -> Extent {
        Extent { last, ..self }
    }

    /// Returns so many more.
    pub fn longer(self, by: i64) -> Extent {
        self.up_to(self.last.saturating_add(by))
    }

    /// Returns the one behind the last.
    pub fn next(self) -> i64 {
        self.last.saturating_add(1)
    }

    // Whether some are among both.
    fn meets(self, other: Extent) -> bool {
        let first = self.first.max(other.first);
        let last = self.last.min(other.last);
        first <= last && self.first <= self.last && other.first <= other.last
    }
}

// How many there are, as a signed number.
fn signed(count: usize) -> i64 {
    i64::try_from(count).unwrap_or(i64::MAX)
}

/// Returns the rows of a node.
pub fn height(kind: &Kind) -> i64 {
    match kind {
        Kind::Window(head) => i64::from(head.h),
        Kind::Dialog(head) => i64::from(head.h),
        Kind::Text(shown) => i64::from(shown.h),
        Kind::List(list) => i64::from(list.h),
        Kind::Pane(pane) => i64::from(pane.h),
        Kind::CheckBoxes(boxes) => signed(boxes.items.as_slice().len()),
        Kind::RadioButtons(radios) => signed(radios.items.as_slice().len()),
        Kind::Label(_) | Kind::Button(_) | Kind::Input(_) => 1,
    }
}

/// Where something stands, or may stand.
#[derive(Clone, Copy)]
pub struct Room {
    pub columns: Extent,
    pub rows: Extent,
}

impl Room {
    /// Returns what a node takes.
    pub fn of(node: &Node) -> Room {
        Room {
            columns: Extent::from(node.x, i64::from(node.w)),
            rows: Extent::from(node.y, height(&node.kind)),
        }
    }

    /// Returns what is inside an owner: a pane has no frame.
    pub fn inside(owner: &Node) -> Room {
        let (w, h) = (i64::from(owner.w), height(&owner.kind));
        if owner.kind.is_pane() {
            return Room {
                columns: Extent::from(0, w),
                rows: Extent::from(0, h),
            };
        }
        Room {
            columns: Extent::from(1, w.saturating_sub(2)),
            rows: Extent::from(1, h.saturating_sub(2)),
        }
    }

    /// Returns the screen without its first and last row.
    pub fn desktop(desc: &Desc) -> Room {
        Room {
            columns: Extent::from(0, i64::from(desc.width)),
            rows: Extent::from(1, i64::from(desc.height).saturating_sub(2)),
        }
    }

    /// Returns its columns or its rows.
    pub fn along(self, axis: Axis) -> Extent {
        match axis {
            Axis::Columns => self.columns,
            Axis::Rows => self.rows,
        }
    }

    /// Returns it with these columns or rows in place of its own.
    pub fn with(self, axis: Axis, extent: Extent) -> Room {
        match axis {
            Axis::Columns => Room {
                columns: extent,
                ..self
            },
            Axis::Rows => Room {
                rows: extent,
                ..self
            },
        }
    }

    /// Returns it with so many columns or rows more.
    pub fn grown_by(self, axis: Axis, count: i64) -> Room {
        self.with(axis, self.along(axis).longer(count))
    }

    /// Returns it begun beside another one, below it, and below it at the left of what is around both.
    pub fn places_at(self, other: Room, around: Room) -> [Room; 3] {
        let below = self.rows.moved_to(other.rows.next());
        [
            Room {
                columns: self.columns.moved_to(other.columns.next()),
                rows: self.rows.moved_to(other.rows.first),
            },
            Room {
                columns: self.columns.moved_to(other.columns.first),
                rows: below,
            },
            Room {
                columns: self.columns.moved_to(around.columns.first),
                rows: below,
            },
        ]
    }

    /// Whether it is all in the other.
    pub fn is_within(self, other: Room) -> bool {
        self.columns.is_within(other.columns) && self.rows.is_within(other.rows)
    }

    /// Whether the two have a place in common.
    pub fn meets(self, other: Room) -> bool {
        self.columns.meets(other.columns) && self.rows.meets(other.rows)
    }
}

/// Columns or rows by their numbers.
pub fn extent_text(alloc: Global, axis: Axis, extent: Extent) -> Result<String, AllocError> {
    let Extent { first, last } = extent;
    let AxisWords { one, several, .. } = axis.words();
    if first == last {
        format!(in alloc; "{one} {first}")
    } else {
        format!(in alloc; "{several} {first} to {last}")
    }
}
