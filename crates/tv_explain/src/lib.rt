//! Faults explained: where each stands in the user's own text, which of its reasons it has, and which other line has to do
//! with it.
#![tactic(auto)]

mod boxes;
mod explaining;
mod groups;
mod heads;
mod inputs;
mod inside;
mod keys;
mod letters;
mod limits;
mod lines;
mod outline;
mod places;
mod rules;
mod views;
mod why;

pub use explaining::{Explained, explain};
pub use groups::{FaultGroup, RuleFault, ViewFault, group_of};
pub use places::{Places, lines_stand_at_their_places};
pub use tv_faults::Line;
pub use why::{Reason, Why};
