//! The picture language as a plain slow program, and the library compared with it over short pictures; worked
//! examples of pictures and of the domains of inputs.
#![tactic(auto)]

mod plain;
mod tree;

pub use plain::{begins, is_member};
pub use tree::{Mark, Tree, spell};

#[cfg(test)]
mod answers;
#[cfg(test)]
mod domains;
#[cfg(test)]
mod examples;
#[cfg(test)]
mod grammar;
#[cfg(test)]
mod large;
#[cfg(test)]
mod reading;
#[cfg(test)]
mod texts;
