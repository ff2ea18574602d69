//! What a run does: the flat machine, in definitions alone, which has neither views nor phases nor posted events; they stand
//! in specs/. And what a script asks of it.
#![tactic(auto)]

mod field;
mod script;

pub use field::is_field;
pub use script::Item;
