//! The program over whatever runtime its `main` hands to it.
#![tactic(auto)]

mod arguments;
mod boxing;
mod help;
mod starting;

pub use arguments::{parse, read_task};
pub use boxing::run_main;
pub use starting::start;
pub use tv_files::{NoTask, Task};
