//! What happens to views: events and the queue of posted ones, commands and the flags of a view.
#![tactic(auto)]

mod commands;
mod event;
mod flags;
mod mask;
mod pending;

pub use commands::CommandSet;
pub use event::{Command, Event, Key, Phase};
pub use flags::{Options, State};
pub use mask::Mask;
pub use pending::Pending;
