//! What the users of a description can't reach or see: goals with the events that reach them, and texts that are cut.
#![tactic(auto)]

mod answering;
mod asking;
mod conflict;
mod cuts;
mod driver;
mod idle;
mod listing;
mod member;
mod outline;
mod path;
mod plan;
mod refusing;
mod running;
mod seen;
mod walk;
mod way;
mod wording;

pub use answering::answer;
pub use asking::{DialogWays, Way, all_ways, goals_of, ways_in, ways_to};
pub use conflict::{Conflict, conflict_against, first_showing};
pub use cuts::{Cut, Lost, cuts_of};
pub use idle::{idle_commands, idle_commands_do_nothing};
pub use listing::{put_way, put_ways};
pub use refusing::{Refusal, unseen_refusal};
pub use seen::cuts_are_lost;
pub use wording::{put_events, put_script, ways_are_scripts};
