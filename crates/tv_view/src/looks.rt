//! What a control's environment says of it.

ghost use Rattle.std.specs.Prelude.{◌≡◌, ◌↔◌, IsTrue};
ghost use Rattle.tv_view.specs.Colours.{has_focus, is_lent_default, is_id};

use crate::env::Env;
use tv_model::Id;

fn is_id(other: Option<Id>, id: Id) -> bool
    ensures { result ≡ is_id other id }
{
    match other {
        Some(other) => other == id,
        None => false,
    }
}

/// Whether the control of the id had the focus when the event came.
pub fn has_focus(env: &Env, id: Id) -> bool
    ensures { result ≡ has_focus env.now id }
{
    is_id(env.focus, id)
}

/// Whether Enter presses the button of the id.
pub fn is_default_now(env: &Env, id: Id) -> bool
    ensures { result ≡ is_lent_default env.now id }
{
    is_id(env.default_now, id)
}

/// Whether owners of the same kind lend the same palettes in two environments.
pub fn has_same_colours(old: &Env, new: &Env) -> bool
    ensures { IsTrue result ↔ (new.now.owner ≡ old.now.owner) × (new.now.chain.now ≡ old.now.chain.now) }
{
    old.owner == new.owner && old.chain.is(new.chain)
}
