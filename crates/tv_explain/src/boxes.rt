//! The owner of a view, and a sibling that it overlaps: the other lines of F2 and F3.

ghost use Rattle.std.specs.Prelude.{◌≡◌, ◌&&◌, ◌+ℤ◌, int_lt, option_copied};
ghost use Rattle.tv_model.specs.Description.Nodes.{height_of};
ghost use Rattle.tv_model.specs.Description.Panes.{owner_of};
ghost use Rattle.tv_model.specs.Description.Rectangles.{overlap, place_of_node};
ghost use Rattle.tv_model.specs.Faults.Places.{need_own_places};
ghost use Rattle.tv_explain.specs.Boxes.{overlapped, owner_line};

use tv_model::{Kind, Node};
use tv_overlaps::height;

// The pane in which a view stands, the views before it being these.
fn owner_of<'a>(before: &'a [Node], node: &Node) -> Option<&'a Node>
    ensures { option_copied result ≡ owner_of before.now node.now }
{
    before.iter().rev().find(|other| other.depth < node.depth)
}

/// Returns the line of the pane in which a view stands, or of the frame of its window or dialog.
pub fn owner_line(frame: &Node, before: &[Node], node: &Node) -> u32
    ensures { result ≡ owner_line frame.now before.now node.now }
{
    match owner_of(before, node) {
        Some(pane) => pane.id.0,
        None => frame.id.0,
    }
}

// A node's columns: the first, and the one after the last.
fn columns(node: &Node) -> (i128, i128)
    ensures from { result.0 ≡ node.now.x }
    ensures to { result.1 ≡ node.now.x +ℤ node.now.w }
{
    let x = i128::from(node.x);
    (x, x + i128::from(node.w))
}

// Its rows.
fn rows(node: &Node) -> (i128, i128)
    ensures from { result.0 ≡ node.now.y }
    ensures to { result.1 ≡ node.now.y +ℤ height_of node.now.kind }
{
    let y = i128::from(node.y);
    (y, y + height(&node.kind))
}

// Whether both have places, and one of the first is one of the second.
fn meet(one: (i128, i128), other: (i128, i128)) -> bool
    ensures { result ≡ ((int_lt one.0 one.1 && int_lt other.0 other.1) && (int_lt one.0 other.1 && int_lt other.0 one.1)) }
{
    one.0 < one.1 && other.0 < other.1 && one.0 < other.1 && other.0 < one.1
}

// Whether the two have a point in common.
fn overlap(one: &Node, other: &Node) -> bool
    ensures { result ≡ overlap (place_of_node one.now) (place_of_node other.now) }
{
    meet(columns(one), columns(other)) && meet(rows(one), rows(other))
}

// Whether one of the two is a pane, or both are controls.
fn need_own_places(one: &Kind, other: &Kind) -> bool
    ensures { result ≡ need_own_places one.now other.now }
{
    one.is_pane() || other.is_pane() || (one.is_control() && other.is_control())
}

/// Finds the nearest of the earlier siblings that the view overlaps and may not.
pub fn overlapped<'a>(before: &'a [Node], node: &Node) -> Option<&'a Node>
    ensures { option_copied result ≡ overlapped before.now node.now }
{
    before
        .iter()
        .rev()
        .take_while(|other| node.depth <= other.depth)
        .filter(|other| other.depth == node.depth)
        .find(|other| need_own_places(&other.kind, &node.kind) && overlap(other, node))
}
