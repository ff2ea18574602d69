//! A description at work for a caller that knows it by a handle: what is asked by number, and texts that are shown in the caller's
//! room.
#![tactic(auto)]

mod acting;
mod answer;
mod asked;
mod held;
mod looking;

pub use answer::{Answer, Told};
pub use asked::{Asked, Look};
pub use held::Held;
