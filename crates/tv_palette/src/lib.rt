//! Colours: palettes, the look-up along a chain of them, and the roles that views paint.
#![tactic(auto)]

mod chain;
mod palette;
mod role;

pub use chain::Chain;
pub use palette::Palette;
pub use role::{
    BarRole, ButtonRole, ClusterRole, FrameRole, InputRole, LabelRole, ListRole, Owner, Role,
    StatusRole,
};
