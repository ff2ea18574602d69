//! The dialogs of a run: one may be open, and each keeps the record that it opens with.
#![tactic(auto)]

mod bodies;
mod colours;
mod dialogs;
mod dragging;
mod drawing;
mod handed;
mod kept;
mod laying;
mod opening;
mod records;
mod stepping;

pub use dialogs::{Dialogs, DialogsOf};
