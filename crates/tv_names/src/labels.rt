//! F6: labels whose link is no control.

ghost use Rattle.std.specs.Prelude.{◌≡◌, IfOk};
ghost use Rattle.tv_model.specs.Faults.Names.{links_nothing};
ghost use Rattle.tv_model.specs.Faults.Each.{each_after};

use crate::names::Names;
use std::alloc::{AllocError, Global};
use tv_model::{Kind, Node};

// Whether the node is a label that is linked to no control.
fn links_nothing(names: &Names, node: &Node) -> bool
    ensures { result ≡ links_nothing names.now node.now }
{
    match &node.kind {
        Kind::Label(label) => match names.meant(&label.link) {
            Some(linked) => !linked.kind.is_control(),
            None => true,
        },
        _ => false,
    }
}

/// Returns for each view whether it is a label that is linked to no control.
pub fn unlinked_labels(alloc: Global, views: &[Node]) -> Result<Vec<bool>, AllocError>
    ensures { IfOk result (λ unlinked. unlinked.items ≡ each_after (λ _. links_nothing views.now) views.now) }
{
    let names = Names::new(alloc, views)?;
    let mut unlinked = Vec::new(alloc);
    for view in views {
        unlinked.push(links_nothing(&names, view))?;
    }
    Ok(unlinked)
}
