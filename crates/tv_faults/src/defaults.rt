//! F11: second default buttons.

ghost use Rattle.std.specs.Prelude.{◌≡◌, IfOk};
ghost use Rattle.tv_model.specs.Faults.Starts.{is_second_default};
ghost use Rattle.tv_model.specs.Faults.Each.{each_after};

use std::alloc::{AllocError, Global};
use tv_model::Node;

/// Returns for each view whether it is a default button after another one.
pub fn second_defaults(alloc: Global, views: &[Node]) -> Result<Vec<bool>, AllocError>
    ensures { IfOk result (λ second. second.items ≡ each_after is_second_default views.now) }
{
    let mut has_default = false;
    let mut second = Vec::new(alloc);
    for view in views {
        second.push(view.is_default() && has_default)?;
        has_default |= view.is_default();
    }
    Ok(second)
}
