//! Texts of inputs, and what an input asks of its text.
#![tactic(auto)]

mod chars;
mod domain;
mod input;
mod range;
mod sequence;
mod text;

pub use chars::Chars;
pub use domain::{Domain, DomainFault};
pub use input::{DomainSpec, InputSpec};
pub use sequence::Sequence;
pub use text::Text;
