//! A program of one's own in a terminal: it is told what the user does, and what it draws is shown.
#![tactic(auto)]

mod host;
mod living;
mod program;
mod show;

pub use living::live;
pub use program::{News, Next, Program};
pub use tv_play::{Parting, Piece, Pieces, PlayFault};
