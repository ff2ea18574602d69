//! The program's calls, each made in one place, and what is told of them.

use std::alloc::Global;
use std::test::Fail;
use tv_io::{FileReader, Writer};
use tv_lang::parse;
use tv_program::{Trouble, accept_files, accept_text, check, report, run};
use tv_test_support::button_views::{buttons, no_views};
use tv_test_support::{Idle, Memory, Question, expect_row};

/// A call of the program about a text.
#[derive(Clone, Copy)]
pub enum Call<'a> {
    /// Checks the description that the text spells.
    Check,
    /// Accepts a description with the certificate that the text spells.
    AcceptFiles { desc: &'a str },
    /// The same, where the description was read before.
    AcceptText { desc: &'a str },
    /// Runs a script on the description that the text spells, through buttons.
    Run { script: &'a str },
    /// Runs the script that the text spells on a description, through buttons.
    Perform { desc: &'a str },
    /// Runs a script on the description that the text spells, without any views.
    RunBare { script: &'a str },
}

impl Call<'_> {
    /// Makes the call, with what it writes going to a writer.
    pub fn make<W: Writer>(&self, alloc: Global, text: &[u8], out: &mut W) -> Result<(), Trouble> {
        match self {
            Call::Check => check_into(alloc, text, out),
            Call::AcceptFiles { desc } => accept_files_into(alloc, desc.as_bytes(), text, out),
            Call::AcceptText { desc } => accept_text_into(alloc, desc.as_bytes(), text, out),
            Call::Run { script } => run_into(alloc, text, script.as_bytes(), out),
            Call::Perform { desc } => run_into(alloc, desc.as_bytes(), text, out),
            Call::RunBare { script } => run_bare_into(alloc, text, script.as_bytes(), out),
        }
    }
}

fn check_into<W: Writer>(alloc: Global, text: &[u8], out: &mut W) -> Result<(), Trouble> {
    Ok(check(alloc, text, out)?)
}

fn accept_files_into<W: Writer>(
    alloc: Global,
    desc: &[u8],
    certificate: &[u8],
    out: &mut W,
) -> Result<(), Trouble> {
    Ok(accept_files(alloc, desc, certificate, out)?)
}

fn accept_text_into<W: Writer>(
    alloc: Global,
    desc: &[u8],
    certificate: &[u8],
    out: &mut W,
) -> Result<(), Trouble> {
    let desc = parse(alloc, desc)?;
    Ok(accept_text(alloc, desc, certificate, out)?)
}

/// Runs a script on a description, whose controls are to be buttons.
pub fn run_into<W: Writer>(
    alloc: Global,
    desc: &[u8],
    script: &[u8],
    out: &mut W,
) -> Result<(), Trouble> {
    run(alloc, desc, &mut FileReader::new(script), &buttons, out)?;
    Ok(())
}

fn run_bare_into<W: Writer>(
    alloc: Global,
    desc: &[u8],
    script: &[u8],
    out: &mut W,
) -> Result<(), Trouble> {
    run(alloc, desc, &mut FileReader::new(script), &no_views, out)?;
    Ok(())
}

/// Tells of a fault. Returns the status.
pub fn report_into<W: Writer, E: Writer>(fault: &Trouble, out: &mut W, err: &mut E) -> u8 {
    report(fault, "NAME", out, err)
}

/// What stands on standard output, then what stands on standard error, then the status.
impl Question for Call<'_> {
    fn answer(&self, alloc: Global, text: &[u8]) -> Result<String, Fail> {
        let mut out = Memory::ample(alloc)?;
        match self.make(alloc, text, &mut out) {
            Ok(()) => streams_told(alloc, out.taken(), b"", 0),
            Err(fault) => fault_told(alloc, out, &fault),
        }
    }
}

// What is told of a fault, on what was written before: what stands on standard output, then what stands on standard error,
// then the status.
fn fault_told(alloc: Global, mut out: Memory, fault: &Trouble) -> Result<String, Fail> {
    let mut err = Memory::ample(alloc)?;
    let status = report_into(fault, &mut out, &mut err);
    streams_told(alloc, out.taken(), err.taken(), status)
}

// Each line on standard error begins with the program's name, and none on standard output does.
fn streams_told(alloc: Global, out: &[u8], err: &[u8], status: u8) -> Result<String, Fail> {
    let out = str::from_utf8(out)?;
    let err = str::from_utf8(err)?;
    if out.starts_with("tvdlg: ") || err.is_empty() == err.starts_with("tvdlg: ") {
        return Err(Fail::new("a text stands on the wrong stream"));
    }
    Ok(format!(in alloc; "{out}{err}status {status}\n")?)
}

// What is told of a call: `made`, or its fault.
fn told<W: Writer>(
    call: &Call<'_>,
    alloc: Global,
    text: &str,
    out: &mut W,
) -> Result<String, Fail> {
    match call.make(alloc, text.as_bytes(), out) {
        Ok(()) => Ok(String::from_str(alloc, "made\n")?),
        Err(fault) => fault_told(alloc, Memory::ample(alloc)?, &fault),
    }
}

// What the program tells where a writer fails.
const UNWRITTEN: &str = "tvdlg: cannot write\nstatus 3\n";

/// Fails where a call isn't stopped by a writer that takes nothing, and where it calls that writer again.
pub fn expect_stop(call: &Call<'_>, alloc: Global, text: &str) -> Result<(), Fail> {
    let mut out = Idle { calls: 0 };
    let told = told(call, alloc, text, &mut out)?;
    if told.as_str() == UNWRITTEN && out.calls == 1 {
        return Ok(());
    }
    let calls = out.calls;
    Err(Fail::new(format_args!("after {calls} calls of the writer: {told}")))
}

/// Fails where a call writes something else than the beginning of its whole output to a writer that fails after so many bytes.
pub fn expect_cut(
    call: &Call<'_>,
    alloc: Global,
    text: &str,
    whole: &str,
    room: usize,
    most_a_call: usize,
) -> Result<(), Fail> {
    let mut out = Memory::new(alloc, room, most_a_call)?;
    let told = told(call, alloc, text, &mut out)?;
    let is_begun = out.taken().len() == room && whole.as_bytes().starts_with(out.taken());
    if is_begun && told.as_str() == UNWRITTEN {
        return Ok(());
    }
    Err(Fail::new(format_args!("at {room}: {told}")))
}

/// The same after each number of bytes that is too small, and with room for all of it.
pub fn expect_cuts(
    call: &Call<'_>,
    alloc: Global,
    text: &str,
    whole: &str,
    most_a_call: usize,
) -> Result<(), Fail> {
    for room in 0..whole.len() {
        expect_cut(call, alloc, text, whole, room, most_a_call)?;
    }
    expect_whole(call, alloc, text, whole, most_a_call)
}

/// Fails where a call doesn't write this to a writer that has room for just that, and takes so many bytes a call.
pub fn expect_whole(
    call: &Call<'_>,
    alloc: Global,
    text: &str,
    whole: &str,
    most_a_call: usize,
) -> Result<(), Fail> {
    let mut out = Memory::new(alloc, whole.len(), most_a_call)?;
    let told = told(call, alloc, text, &mut out)?;
    if told.as_str() == "made\n" && out.taken() == whole.as_bytes() {
        return Ok(());
    }
    Err(Fail::new(format_args!("by {most_a_call} bytes a call: {told}")))
}
