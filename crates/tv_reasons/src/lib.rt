//! Why an input refuses a text, in words.
#![tactic(auto)]

mod line;
mod telling;
mod wanted;

pub use line::Line;
pub use telling::reason;
pub use wanted::Wanted;
