//! The laws of every run of the flat machine: what each event keeps, so that a dialog can always be used and left; the order of
//! Tab, and what letters act on; what is logged, saved and shown again.
#![tactic(auto)]

mod letters;
mod order;
mod records;
mod runs;

pub use letters::shortcuts_act;
pub use order::tab_goes_round;
pub use records::{dialog_shows_record, dialogs_can_be_left, records_are_kept};
pub use runs::{dialog_stays_fit, runs_are_safe, runs_stay_fit, sheets_are_laid};
