//! What events can reach in a dialog: goals, the rules that may hold, and what is never reached.
#![tactic(auto)]

mod answer;
mod case;
mod choices;
mod closed;
mod giving;
mod goal;
mod mask;
mod reached;
mod reason;
mod shown;

pub use answer::{Answer, Reason};
pub use case::starts_outside;
pub use closed::is_closed;
pub use goal::Goal;
pub use mask::Mask;
pub use reached::{
    closed_holds, ends_are_given, marks_move, never_reached, runs_within, texts_move,
};
pub use reason::reason_against;
