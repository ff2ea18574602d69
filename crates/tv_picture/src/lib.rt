//! Pictures: small patterns that say what may be typed into an input.
#![tactic(auto)]

mod code;
mod fault;
mod parser;
mod parts;
mod picture;
mod places;
mod reading;
mod row;
mod shortest;
mod table;

pub use fault::PictureFault;
pub use picture::{Picture, Status};
