//! Rectangles of nodes as sets of points.

ghost use Rattle.std.specs.Prelude.{◌≡◌, ◌↔◌, IsTrue, ℤ, ◌≤ℤ◌, ◌<ℤ◌, pos, neg_ℤ, ◌&&◌};
ghost use Rattle.tv_cells.specs.Rectangle.{IsIn};
ghost use Rattle.tv_model.specs.Description.Nodes.{height_of};
ghost use Rattle.tv_model.specs.Description.Rectangles.{desktop, has_points, interior, is_within, place_of_node, whole_area};
ghost use Rattle.tv_overlaps.specs.Placing.{columns, rows};

use crate::span::Span;
use std::marker::Model;
use tv_model::{Desc, Kind, Node};

/// A rectangle of any size and place, half open: it has its left column and its top row, and lacks the right column
/// and the bottom row. It is wide enough for the sums of any two coordinates of a description.
#[derive(Clone, Copy)]
pub struct Area {
    left: i128,
    top: i128,
    right: i128,
    bottom: i128,
}

impl Model for Area {
    ghost use Rattle.tv_cells.specs.declared.rect.Rect.{Rect};

    ghost Value = { Rect };

    ghost view = { λ s. record { a = record { x = s.left; y = s.top }; b = record { x = s.right; y = s.bottom } } };

    ghost inverse = { λ r. record { left = r.a.x; top = r.a.y; right = r.b.x; bottom = r.b.y } };
}

/// Returns how many rows a node has.
pub fn height(kind: &Kind) -> i128
    ensures value { result ≡ height_of kind.now }
    ensures low { neg_ℤ (pos 2147483648) ≤ℤ result }
    ensures high { result <ℤ pos 18446744073709551616 }
{
    match kind {
        Kind::Window(head) => i128::from(head.h),
        Kind::Dialog(head) => i128::from(head.h),
        Kind::Text(shown) => i128::from(shown.h),
        Kind::List(list) => i128::from(list.h),
        Kind::Pane(pane) => i128::from(pane.h),
        Kind::CheckBoxes(boxes) => boxes.items.as_slice().len() as i128,
        Kind::RadioButtons(radios) => radios.items.as_slice().len() as i128,
        Kind::Label(_) | Kind::Button(_) | Kind::Input(_) => 1,
    }
}

impl Area {
    /// Returns the place of a node, seen from its owner.
    pub fn of_node(node: &Node) -> Area
        ensures { result ≡ place_of_node node.now }
    {
        let x = i128::from(node.x);
        let y = i128::from(node.y);
        Area {
            left: x,
            top: y,
            right: x + i128::from(node.w),
            bottom: y + height(&node.kind),
        }
    }

    /// Returns a dialog or window without its frame, as its views see it.
    pub fn interior(node: &Node) -> Area
        ensures { result ≡ interior node.now }
    {
        Area {
            left: 1,
            top: 1,
            right: i128::from(node.w) - 1,
            bottom: height(&node.kind) - 1,
        }
    }

    /// Returns all of a pane, as its views see it.
    pub fn whole(node: &Node) -> Area
        ensures { result ≡ whole_area node.now }
    {
        Area {
            left: 0,
            top: 0,
            right: i128::from(node.w),
            bottom: height(&node.kind),
        }
    }

    /// Returns the screen without its first and last row.
    pub fn desktop(desc: &Desc) -> Area
        ensures { result ≡ desktop desc.now }
    {
        Area {
            left: 0,
            top: 1,
            right: i128::from(desc.width),
            bottom: i128::from(desc.height) - 1,
        }
    }

    /// Returns its rows.
    pub fn rows(&self) -> Span
        ensures { result ≡ rows self.now }
    {
        Span {
            low: self.top,
            high: self.bottom,
        }
    }

    /// Returns its columns.
    pub fn columns(&self) -> Span
        ensures { result ≡ columns self.now }
    {
        Span {
            low: self.left,
            high: self.right,
        }
    }

    /// Whether it has a point.
    pub fn has_points(&self) -> bool
        ensures { result ≡ has_points self.now }
    {
        self.left < self.right && self.top < self.bottom
    }

    /// Whether every point of it lies in the other. An empty one lies in all.
    pub fn is_within(&self, other: &Area) -> bool
        ensures value { result ≡ is_within self.now other.now }
        ensures points { IsTrue result ↔ ((x y : ℤ) → IsIn self.now x y → IsIn other.now x y) }
    {
        if !self.has_points() {
            return true;
        }
        other.columns().covers(&self.columns()) && other.rows().covers(&self.rows())
    }
}
