//! Answers: what a log says of the fields of dialogs, and a description that begins with it.
#![tactic(auto)]

mod answers;
mod entries;
mod field_values;
mod filling;
mod laws;
mod log_line;
mod misfit;
mod progress;
mod reading;

pub use answers::{Answer, Answers};
pub use entries::FieldEntries;
pub use filling::filled;
pub use laws::{ends_are_read, log_is_answered, log_is_read, opens_as_answered, script_is_typed};
pub use misfit::{Misfit, MisfitKind};
pub use reading::{AnswersFault, read_answers};
