//! The laws of all runs of a sound description, with what its certificate names.
#![tactic(auto)]

mod laws;

pub use laws::runs_go_by_laws;
