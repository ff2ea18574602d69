//! A dialog in a terminal: what the user does, piece by piece, what the terminal shows of it, and what is logged.
#![tactic(auto)]

mod cursor;
mod edge;
mod ends;
mod journal;
mod live;
mod monitor;
mod outputs;
mod parting;
mod pieces;
mod player;
mod playing;
mod refusal;
mod session;
mod show;

pub use cursor::find_cursor;
pub use edge::{brought, heard_can_be_said};
pub use ends::{Step, nothing_can_happen, step_of};
pub use live::Live;
pub use outputs::{NoTape, Outputs};
pub use parting::{Parting, PlayFault};
pub use pieces::{Piece, Pieces};
pub use playing::play;
