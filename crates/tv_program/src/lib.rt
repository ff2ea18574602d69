//! What the program does, as calls over bytes, readers and writers; and the pictures of the screens of a run.
#![tactic(auto)]

mod accept_fault;
mod album;
mod answer_fault;
mod answering;
mod check_fault;
mod checking;
mod drawing;
mod fill_fault;
mod filling;
mod message;
mod naming;
mod nowhere;
mod picture_fault;
mod playing;
mod reading;
mod run_answers;
mod run_fault;
mod running;
mod shots;
mod terminal;
mod trouble;

pub use accept_fault::AcceptFault;
pub use album::{Album, AlbumFault};
pub use answer_fault::{AnswerFault, Ending};
pub use answering::{answer_text, begun_texts_are_alike};
pub use check_fault::CheckFault;
pub use checking::{accept_files, accept_text, check};
pub use drawing::{draw, draw_shots};
pub use fill_fault::FillFault;
pub use filling::{NamedLog, fill_text, read_sound};
pub use message::report;
pub use picture_fault::{DrawingFault, ShotFault};
pub use playing::{read_checked, run, run_from};
pub use run_answers::run_is_answered;
pub use run_fault::RunFault;
pub use running::picture;
pub use shots::picture_shots;
pub use terminal::{play, play_from};
pub use trouble::Trouble;
