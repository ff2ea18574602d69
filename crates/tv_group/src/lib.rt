//! Groups of views: a group means its leaves, opened out; and what the views of a dialog must be for a state of the flat
//! machine's dialog, in definitions and lemmas.
#![tactic(auto)]

mod ask;
mod bounds;
mod draw;
mod each;
mod focus;
mod fresh;
mod group;
mod handle;
mod search;
mod stack;
mod values;

pub use focus::{Advanced, Dir};
pub use group::{Group, GroupOf, Member, MemberOf, TooDeep};
pub use handle::is_pass;
pub use stack::Stack;
