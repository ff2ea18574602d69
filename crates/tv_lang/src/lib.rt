//! The language of descriptions: what texts spell, read and printed.
#![tactic(auto)]

mod description;
mod line;
mod node;
mod printer;
mod printing;
mod progress;
mod stage;
mod terms;
mod views;

pub use description::{LangFault, parse};
pub use line::{Line, ascii};
pub use printer::description_text;
pub use printing::print;
