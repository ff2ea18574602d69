//! The world of the program in memory: two files, an input at its end, and an album that takes no picture.
#![tactic(auto)]

mod closed_album;
mod closed_input;
mod shelf;
mod words;

pub use closed_album::ClosedAlbum;
pub use closed_input::ClosedInput;
pub use shelf::{NamedText, Shelf};
pub use words::words_in;
