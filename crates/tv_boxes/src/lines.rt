//! The lines of a box's description: one declaration stands on each.

ghost use Rattle.std.specs.Prelude.{◌≡◌, IfOk};
ghost use Rattle.tv_boxes.specs.Lines.{at_line, on_lines};

use crate::size::size;
use std::alloc::{AllocError, Global};
use tv_model::{Id, Node};

/// Puts the node on a line.
pub(crate) fn at_line(line: u32, node: Node) -> Node
    ensures { result ≡ at_line line node }
{
    Node {
        id: Id(line),
        depth: node.depth,
        x: node.x,
        y: node.y,
        w: node.w,
        kind: node.kind,
    }
}

/// Puts each view on a line, the first on line 5, below the dialog's own line.
pub(crate) fn on_lines(alloc: Global, views: Vec<Node>) -> Result<Vec<Node>, AllocError>
    ensures { IfOk result (λ lined. lined.items ≡ on_lines views.items) }
{
    let mut lined = Vec::new(alloc);
    for view in views {
        let line = u32::from(size(lined.len())) + 5;
        lined.push(at_line(line, view))?;
    }
    Ok(lined)
}
