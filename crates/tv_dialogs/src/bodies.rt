//! Dialogs that are made round the bodies of a description, or given up again.

ghost use Rattle.std.specs.Prelude.{◌≡◌, ◌≤◌, ◌+◌, ◌++◌, All, IfErr, IfOk, map, reverse, vec_capacity, vec_len};
ghost use Rattle.tv_machine.specs.Dialog.Sound.{IsSoundDialog};
ghost use Rattle.tv_dialogs.specs.Bodies.{AreFreshBodies, AreNew, kept_body};

use crate::kept::Kept;
use std::alloc::{AllocError, Global};
use tv_group::GroupOf;
use tv_model::Dialog as Declared;
use tv_view::View;

// Takes the dialogs apart, the last one first, and puts their bodies behind the others.
fn give_back<V: View>(mut kept: Vec<Kept<V>>, bodies: &mut Vec<GroupOf<V>>)
    requires { vec_len bodies.old + vec_len kept ≤ vec_capacity bodies.old }
    ensures { bodies.new.items ≡ bodies.old.items ++ map kept_body (reverse kept.items) }
{
    while let Some(last) = kept.pop() {
        let Kept { dialog, .. } = last;
        bodies.push_reserved(dialog.into_body());
    }
}

/// Makes the dialogs round these bodies, in order.
///
/// # Errors
///
/// `AllocError`, with the bodies as they were.
pub(crate) fn keep_all<V: View>(
    alloc: Global,
    dialogs: &[Declared],
    mut bodies: Vec<GroupOf<V>>,
) -> Result<Vec<Kept<V>>, (AllocError, Vec<GroupOf<V>>)>
    requires sound { All IsSoundDialog dialogs.now }
    requires fresh { AreFreshBodies V.meaning dialogs.now bodies.items }
    ensures kept { IfOk result (λ kept. AreNew V.meaning dialogs.now kept.items) }
    ensures back { IfErr result (λ e. e.1.items ≡ bodies.items) }
{
    let mut kept = match Vec::with_capacity(alloc, dialogs.len()) {
        Ok(kept) => kept,
        Err(error) => return Err((error, bodies)),
    };
    while let Some(body) = bodies.pop() {
        match Kept::new(alloc, &dialogs[bodies.len()], body) {
            Ok(made) => kept.push_reserved(made),
            Err(body) => {
                bodies.push_reserved(body);
                give_back(kept, &mut bodies);
                return Err((AllocError, bodies));
            }
        }
    }
    kept.reverse();
    Ok(kept)
}
