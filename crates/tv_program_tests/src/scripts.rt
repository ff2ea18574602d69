//! Scripts of as many items and bytes as there may be, and longer ones.

use crate::calls::Call;
use std::alloc::Global;
use std::test::Fail;
use tv_script::{Script, ScriptFault};
use tv_test_support::descriptions::CANCEL;
use tv_test_support::{Question, expect_answer};

// What the reader of scripts says, for a screen of 20 columns and 10 rows.
#[derive(Clone, Copy)]
struct ReadScripts;

impl Question for ReadScripts {
    fn answer(&self, alloc: Global, text: &[u8]) -> Result<String, Fail> {
        match script_fault(alloc, text) {
            None => Ok(String::from_str(alloc, "performed\n")?),
            Some(fault) => fault_told(alloc, fault),
        }
    }
}

fn script_fault(alloc: Global, text: &[u8]) -> Option<ScriptFault> {
    Script::parse(alloc, text, 20, 10).err()
}

fn fault_told(alloc: Global, fault: ScriptFault) -> Result<String, Fail> {
    match fault {
        ScriptFault::NoMemory => Err(Fail::new("no memory")),
        ScriptFault::Syntax(line) => Ok(format!(in alloc; "syntax at line {line}\n")?),
        ScriptFault::OffScreen(line) => Ok(format!(in alloc; "off screen at line {line}\n")?),
        ScriptFault::TooLong => Ok(String::from_str(alloc, "too long\n")?),
    }
}

// What comes of a script that types so many spaces and goes on by this line.
fn expect_typed<Q: Question>(
    question: &Q,
    alloc: Global,
    count: usize,
    line: &str,
    wanted: &str,
) -> Result<(), Fail> {
    let spaces = " ".repeat(alloc, count)?;
    let script = format!(in alloc; "type \"{spaces}\"\n{line}\n")?;
    expect_answer(question, alloc, &script, wanted)
}

// What a run writes whose script is left after its first line, as too long. The first space ends the dialog.
const RUN_TOO_LONG: &str = "\
open a
focus c
press c
end a cancel
tvdlg: NAME: too long
status 1
";

// A script has at most 100,000 items, of which each typed character is one. Of one line what is no line comes first, then what
// is off the screen.
#[test]
fn items_of_scripts(rt: HostRuntime) -> Result<(), Fail> {
    for &(count, line, wanted) in &[
        (100_000, "type \"\"", "performed\n"),
        (100_001, "", "too long\n"),
        (99_999, "key Tab", "performed\n"),
        (99_999, "type \"  \"", "too long\n"),
        (100_000, "shot", "too long\n"),
        (100_000, "key Foo", "syntax at line 2\n"),
        (100_001, "key Foo", "too long\n"),
    ] {
        expect_typed(&ReadScripts, rt.alloc(), count, line, wanted)?;
    }
    let off = "off screen at line 2\n";
    expect_typed(&ReadScripts, rt.alloc(), 100_000, "down 20 0", off)?;
    let call = Call::Perform { desc: CANCEL };
    expect_typed(&call, rt.alloc(), 100_000, "shot", RUN_TOO_LONG)
}

fn expect_comment(call: &Call<'_>, alloc: Global, length: usize, wanted: &str) -> Result<(), Fail> {
    let script = "#".repeat(alloc, length)?;
    expect_answer(call, alloc, &script, wanted)
}

#[test]
fn lengths_of_scripts(rt: HostRuntime) -> Result<(), Fail> {
    let call = Call::Perform { desc: CANCEL };
    let performed = "open a\nfocus c\nstatus 0\n";
    expect_comment(&call, rt.alloc(), 1_048_576, performed)?;
    let refused = "open a\nfocus c\ntvdlg: NAME: too long\nstatus 1\n";
    expect_comment(&call, rt.alloc(), 1_048_577, refused)
}
