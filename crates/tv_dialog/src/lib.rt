//! Modal dialogs over any views.
#![tactic(auto)]

mod command;
mod condition;
mod dialog;
mod fault;
mod head;
mod log;
mod log_lines;
mod open;
mod plan;
mod request;
mod ruled;
mod rules;
mod step;
mod turn;

pub use dialog::{Dialog, DialogOf};
pub use fault::DialogFault;
pub use log_lines::LogLines;
pub use step::is_close_mark;
