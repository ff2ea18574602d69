//! Where views stand: F2, views outside their owners, and F3, views that overlap.
#![tactic(auto)]

mod area;
mod columns;
mod heaviest;
mod outside;
mod overlap;
mod owner;
mod placed;
mod rows;
mod siblings;
mod span;

pub use area::height;
pub use outside::{are_outside, is_off_desktop};
pub use overlap::overlaps;
pub use owner::{owners, stands_over};
