//! Windows: frames round groups of views, one over the other, and the open ones of a run.
#![tactic(auto)]

mod damage;
mod desk;
mod head;
mod places;
mod stack;
mod window;

pub use desk::{Desk, DeskOf, Hit};
pub use stack::draw_stack;
pub use tv_faces::Frame;
pub use window::{Window, WindowOf, WrongKind};
