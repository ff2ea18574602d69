//! The faults that no description of dialogs should have.
#![tactic(auto)]

mod bodies;
mod defaults;
mod domains;
mod ends;
mod judge;
mod judged;
mod lengths;
mod limits;
mod line;
mod list;
mod numbers;
mod openings;
mod own;
mod starts;
mod wide;

pub use bodies::sharing_rules;
pub use line::Line;
pub use list::faults;
pub use numbers::{
    is_lawful_amount, is_lawful_button, is_lawful_command, is_lawful_corner, is_lawful_count,
    is_lawful_height, is_lawful_width, least_width,
};
pub use starts::starts_outside;
pub use tv_names::marks;
