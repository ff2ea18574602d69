//! What the crates of tests share: descriptions, tables of texts and what is answered about them, writers in memory, and views.
//!
//! A call of a library stands here in one function that answers with a text. What its contract says is long, and what it hands
//! out is large: a test that makes the call itself has both before it.
#![tactic(auto)]

mod accepting;
pub mod button_views;
pub mod certificates;
mod certifying;
pub mod descriptions;
mod dialogs;
mod findings;
pub mod large;
mod planning;
mod printing;
mod tables;
mod writers;

pub use accepting::{AcceptingLater, expect_accepted};
pub use certifying::{Certifying, PrintingCertificate};
pub use dialogs::FirstDialog;
pub use findings::{Findings, Reading, expect_finding};
pub use planning::{Planning, PlanningWith};
pub use printing::{Printing, expect_canonical};
pub use tables::{Question, expect_answer, expect_answers, expect_row, expect_rows};
pub use writers::{Idle, Memory};
