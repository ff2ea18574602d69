//! Windows that several tests use, and what they show.

ghost use Rattle.std.specs.Prelude.{◌≤◌, ◌≤ℤ◌, pos, length, IfSome};
ghost use Rattle.tv_faces.specs.Corners.{IsCorner};
ghost use Rattle.tv_model.specs.Description.Rectangles.{corner_of};
ghost use Rattle.tv_window.specs.Head.{IsLimitedWindowHead, declared_window_head};

use crate::samples::reads;
use std::alloc::Global;
use std::test::Fail;
use tv_cells::{Point, Screen};
use tv_group::Group;
use tv_model::{Id, Kind, Node, WindowHead};
use tv_valid::Chars;
use tv_window::Window;

/// The declaration of a window of four rows, in a line of the description.
pub fn window_node(
    alloc: Global,
    line: u32,
    number: i32,
    corner: Point,
    width: i32,
    title: Chars,
) -> Node
    requires number { (pos 0 ≤ℤ number) × (number ≤ℤ pos 9) }
    requires across { (pos 0 ≤ℤ corner.x) × (corner.x ≤ℤ pos 50) }
    requires down { (pos 0 ≤ℤ corner.y) × (corner.y ≤ℤ pos 50) }
    requires width { (pos 0 ≤ℤ width) × (width ≤ℤ pos 50) }
    requires title { length title ≤ 120 }
    ensures head { IfSome (declared_window_head result) IsLimitedWindowHead }
    ensures corner { IsCorner (corner_of result) }
{
    Node {
        id: Id(line),
        depth: 0,
        x: corner.x,
        y: corner.y,
        w: width,
        kind: Kind::Window(WindowHead {
            name: Chars::new(alloc),
            h: 4,
            number,
            title,
        }),
    }
}

/// The window of a declaration, round a group.
pub fn window_round(node: &Node, body: Group) -> Result<Window, Fail>
    requires head { IfSome (declared_window_head node.now) IsLimitedWindowHead }
    requires corner { IsCorner (corner_of node.now) }
{
    Ok(Window::new(node, body).ok().ok_or("a window's node")?)
}

/// Fails unless the rows of a screen read so.
pub fn expect_rows(screen: &Screen, rows: &[&str; 10]) -> Result<(), Fail> {
    let mut y = 0;
    for row in rows {
        if !reads(screen, 0, y, row) {
            return Err(Fail::new(format_args!("row {y} reads otherwise")));
        }
        y = y.saturating_add(1);
    }
    Ok(())
}
