//! F1: names that were given before.

ghost use Rattle.std.specs.Prelude.{◌≡◌, ◌∷◌, ◌++◌, [], List, IfOk, map};
ghost use Rattle.tv_model.specs.declared.node.Node.{Node};
ghost use Rattle.tv_model.specs.Faults.Names.{dialog_named_again, names_again, window_named_again};
ghost use Rattle.tv_model.specs.Faults.Each.{each_after};
ghost use Rattle.tv_names.specs.Named.{AreNamesOf};

use std::alloc::{AllocError, Global};
use std::collections::HashSet;
use tv_model::{Desc, Node, Window};

// The names that some declarations give.
#[derive(Drop)]
struct GivenNames<'a> {
    names: HashSet<&'a [char]>,
}

impl<'a> GivenNames<'a> {
    fn new(alloc: Global) -> GivenNames<'a>
        ensures { AreNamesOf [] result.names }
    {
        GivenNames {
            names: HashSet::new(alloc),
        }
    }

    // Notes the name that the declaration gives. Returns whether it was given before.
    fn give(&mut self, node: &'a Node) -> Result<bool, AllocError>
        ensures { (before : List Node) → AreNamesOf before self.old.names → IfOk result (λ again.
            (again ≡ names_again before node.now) × AreNamesOf (before ++ node.now ∷ []) self.new.names) }
    {
        match node.kind.name() {
            Some(name) => {
                let is_new = self.names.insert(name.as_slice())?;
                Ok(!is_new)
            }
            None => Ok(false),
        }
    }

    fn give_windows(&mut self, windows: &'a [Window]) -> Result<(), AllocError>
        requires { AreNamesOf [] self.old.names }
        ensures { IfOk result (λ _. AreNamesOf (map (λ window. window.node) windows.now) self.new.names) }
    {
        for window in windows {
            self.give(&window.node)?;
        }
        Ok(())
    }
}

/// Returns for each view whether it gives a name that was given before it.
pub fn names_again(alloc: Global, views: &[Node]) -> Result<Vec<bool>, AllocError>
    ensures { IfOk result (λ again. again.items ≡ each_after names_again views.now) }
{
    let mut given = GivenNames::new(alloc);
    let mut again = Vec::new(alloc);
    for view in views {
        again.push(given.give(view)?)?;
    }
    Ok(again)
}

/// Returns for each window whether it has the name of one before it.
pub fn windows_named_again(alloc: Global, windows: &[Window]) -> Result<Vec<bool>, AllocError>
    ensures { IfOk result (λ again. again.items ≡ each_after window_named_again windows.now) }
{
    let mut given = GivenNames::new(alloc);
    let mut again = Vec::new(alloc);
    for window in windows {
        again.push(given.give(&window.node)?)?;
    }
    Ok(again)
}

/// Returns for each dialog whether it has the name of a window, or of a dialog before it.
pub fn dialogs_named_again(alloc: Global, desc: &Desc) -> Result<Vec<bool>, AllocError>
    ensures { IfOk result (λ again. again.items ≡ each_after (dialog_named_again desc.now) desc.now.dialogs) }
{
    let mut given = GivenNames::new(alloc);
    given.give_windows(desc.windows.as_slice())?;
    let mut again = Vec::new(alloc);
    for dialog in desc.dialogs.as_slice() {
        again.push(given.give(&dialog.node)?)?;
    }
    Ok(again)
}
