//! Views: what each of them answers, becomes and shows, said on its meaning; and what every control keeps.
#![tactic(auto)]

mod env;
mod fault;
mod leaf_core;
mod looks;
mod points;
mod reaction;
mod view;

pub use env::{Env, Rules};
pub use fault::ControlFault;
pub use leaf_core::LeafCore;
pub use looks::{has_focus, has_same_colours, is_default_now};
pub use points::{column_of, contains, row_of, without_edge};
pub use reaction::Reaction;
pub use view::View;
