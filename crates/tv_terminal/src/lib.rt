//! What a terminal sends, as keys, characters and the mouse; what it is sent, so that it shows a screen; and a screen drawn
//! as SVG.
#![tactic(auto)]

mod action;
mod bell;
mod character;
mod colour;
mod decoder;
mod element;
mod hand;
mod note;
mod numbers;
mod painter;
mod reading;
mod sameness;
mod span;
mod strip;
mod svg;
mod table;

pub use action::{Action, Size};
pub use bell::ring;
pub use colour::Colours;
pub use decoder::Decoder;
pub use painter::Painter;
pub use svg::{strips_are_rows, write_svg};
