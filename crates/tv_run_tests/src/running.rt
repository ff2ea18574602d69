//! Scripts that are run on descriptions over boxed controls.

use crate::making::views;
use crate::probes::Journal;
use std::alloc::{AllocError, Global};
use std::rc::Rc;
use std::test::Fail;
use tv_check::Checked;
use tv_io::{FileReader, Reader, Writer};
use tv_program::{RunFault, run};
use tv_session::Session;
use tv_test_support::Memory;

/// Runs a script on a description over boxed controls, by the program's own call. Where there is a journal, the button `y`
/// notes there what it is told.
pub fn run_into<W: Writer>(
    alloc: Global,
    desc: &str,
    script: &str,
    journal: Option<&Rc<Journal>>,
    out: &mut W,
) -> Result<(), RunFault> {
    let mut script = FileReader::new(script.as_bytes());
    run_on(alloc, desc, &mut script, journal, out)
}

/// The same, with a script that comes from a reader.
pub fn run_on<R: Reader, W: Writer>(
    alloc: Global,
    desc: &str,
    script: &mut R,
    journal: Option<&Rc<Journal>>,
    out: &mut W,
) -> Result<(), RunFault> {
    play_on(alloc, desc, script, journal, out)?;
    Ok(())
}

// The same, and hands back the session as the script left it.
fn play_on<R: Reader, W: Writer>(
    alloc: Global,
    desc: &str,
    script: &mut R,
    journal: Option<&Rc<Journal>>,
    out: &mut W,
) -> Result<Session, RunFault> {
    let make = move |alloc: Global, checked: &Checked| views(alloc, checked, journal);
    run(alloc, desc.as_bytes(), script, &make, out)
}

// More than any of these runs writes.
const ROOM: usize = 65_536;

/// What a run writes.
pub fn ran(alloc: Global, desc: &str, script: &str) -> Result<Memory, Fail> {
    let mut out = Memory::new(alloc, ROOM, ROOM)?;
    match run_into(alloc, desc, script, None, &mut out) {
        Ok(()) => Ok(out),
        Err(fault) => Err(Fail::new(format_args!("{fault:?} in {script}"))),
    }
}

/// The session that a script leaves, run on a description over boxed controls.
pub fn played(alloc: Global, desc: &str, script: &str) -> Result<Session, Fail> {
    let mut reader = FileReader::new(script.as_bytes());
    let mut out = Memory::new(alloc, ROOM, ROOM)?;
    match play_on(alloc, desc, &mut reader, None, &mut out) {
        Ok(session) => Ok(session),
        Err(fault) => Err(Fail::new(format_args!("{fault:?} in {script}"))),
    }
}

// Fails where a run writes something else than this.
fn expect_written(alloc: Global, desc: &str, script: &str, wanted: &str) -> Result<(), Fail> {
    let out = ran(alloc, desc, script)?;
    let found = str::from_utf8(out.taken())?;
    if found == wanted {
        return Ok(());
    }
    Err(Fail::new(format_args!("written:\n{found}wanted:\n{wanted}of:\n{desc}in:\n{script}")))
}

/// Fails where a run writes something else than this. A description of version 1 is run as one of version 2 too: it says the same.
pub fn expect_run(alloc: Global, desc: &str, script: &str, wanted: &str) -> Result<(), Fail> {
    expect_written(alloc, desc, script, wanted)?;
    match in_version_two(alloc, desc)? {
        Some(later) => expect_written(alloc, &later, script, wanted),
        None => Ok(()),
    }
}

// A description of version 1 as one of version 2.
fn in_version_two(alloc: Global, desc: &str) -> Result<Option<String>, AllocError> {
    match desc.strip_prefix("tvd 1\n") {
        Some(rest) => Ok(Some(format!(in alloc; "tvd 2\n{rest}")?)),
        None => Ok(None),
    }
}

/// The lines that a text gives with `; ` between them.
pub fn lines(alloc: Global, text: &str) -> Result<String, AllocError> {
    let mut lines = text.replace(alloc, "; ", "\n")?;
    if !lines.is_empty() {
        lines.push('\n')?;
    }
    Ok(lines)
}
