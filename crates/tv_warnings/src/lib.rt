//! What a sound description is warned of: ends and controls that no user reaches, ends that a hidden input refuses, texts that are
//! cut, and commands that do nothing.
#![tactic(auto)]

mod finding;
mod looking;
mod met;
mod notes;
mod page;
mod saying;
mod sayings;
mod standing;
mod warning;

pub use finding::{BlockedEnd, End, Finding, Member, RefusedEnd, Unknown};
pub use looking::findings;
pub use warning::{Warned, warn};
