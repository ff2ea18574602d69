//! Checks descriptions of text-mode dialogs, and runs them on scripts of keys and mouse events or in a terminal.
#![tactic(auto)]

use std::process::ExitCode;
use tv_main::start;

fn main(rt: HostRuntime) -> ExitCode {
    ExitCode::from(start(&rt, rt.stderr(), rt.stderr()))
}
