//! Runs whose writer fails or takes few bytes, and a large one.

use crate::calls::{Call, expect_cut, expect_cuts, expect_stop, expect_whole};
use std::test::Fail;
use tv_test_support::descriptions::CANCEL;
use tv_test_support::large::{large_buttons_description, large_buttons_log};

// What `shot` writes at the start of the dialog, with the log before it.
const SHOWN: &str = "\
open a
focus c
shot 20 10
:                    :
:....................:
:..+=[x] Q =====+....:
:..| < Cancel > |....:
:..|            |....:
:..+============+....:
:....................:
:....................:
:....................:
:                    :
";

// Shows the dialog.
const SHOT: Call<'static> = Call::Run { script: "shot\n" };

#[test]
fn failing_writer(rt: HostRuntime) -> Result<(), Fail> {
    let begun = "open a\nfocus c\nshot 20 10\n:   ";
    expect_cut(&SHOT, rt.alloc(), CANCEL, begun, 30, 4096)?;
    expect_cuts(&SHOT, rt.alloc(), CANCEL, SHOWN, 4096)
}

#[test]
fn writer_of_one_byte_a_call(rt: HostRuntime) -> Result<(), Fail> {
    expect_whole(&SHOT, rt.alloc(), CANCEL, SHOWN, 1)
}

#[test]
fn writer_that_takes_nothing(rt: HostRuntime) -> Result<(), Fail> {
    expect_stop(&SHOT, rt.alloc(), CANCEL)
}

// Where there is memory, nothing is refused for the want of it.
#[test]
fn large_run(rt: HostRuntime) -> Result<(), Fail> {
    let desc = large_buttons_description(rt.alloc())?;
    let focused = large_buttons_log(rt.alloc(), 2000)?;
    let keys = "key Tab\n".repeat(rt.alloc(), 2000)?;
    let script = format!(in rt.alloc(); "{keys}type \"  \"\n")?;
    let presses = "press b16\ncommand 116\n".repeat(rt.alloc(), 2)?;
    let written = format!(in rt.alloc(); "{focused}{presses}")?;
    let call = Call::Run { script: &script };
    expect_whole(&call, rt.alloc(), &desc, &written, 4096)
}
