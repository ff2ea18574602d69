//! Every task on texts that are at every limit at once, by the program's own call, with its own controls.

use crate::gallery::Gallery;
use crate::shelf::Shelf;
use crate::sink::Sink;
use crate::user::User;
use std::alloc::{AllocError, Global};
use std::test::Fail;
use tv_files::{BufferedStream, Stream, World};
use tv_main::run_main;
use tv_program::accept_files;
use tv_script::Script;
use tv_test_support::Memory;
use tv_test_support::large::{
    LARGE_SCRIPT, filled, large_certificate, large_description, large_log,
};

/// The most bytes of a description, and of a certificate.
pub const MOST: usize = 262_144;

// The most bytes of a script.
const MOST_OF_SCRIPT: usize = 1_048_576;

// More than any of these tasks writes.
const ROOM: usize = 10_000_000;

// The keys of the script, as a terminal sends them.
const SENT: &[u8] =
    b"\x1b[27;1u\x1b9\x1b1\x1b[27;1u\x1b[11~\x1b[27;1u\x1b[12~\x1b[27;1u\x1b[13~\x1b[27;1u\x1b[14~\x1b[27;1u\
    \x1b[15~\x1b[27;1u\x1b[17~\x1b[27;1u\x1b[18~\x1b[27;1u\x1b[19~\x1b[27;1u";

/// The description, as long as one may be.
pub fn full_description(alloc: Global) -> Result<String, Fail> {
    let desc = large_description(alloc)?;
    filled(alloc, &desc, MOST)
}

fn full_certificate(alloc: Global) -> Result<String, Fail> {
    let certificate = large_certificate(alloc)?;
    filled(alloc, &certificate, MOST)
}

fn full_script(alloc: Global) -> Result<String, Fail> {
    filled(alloc, LARGE_SCRIPT, MOST_OF_SCRIPT)
}

fn words(alloc: Global, line: &str) -> Result<Vec<String>, AllocError> {
    let mut words = Vec::new(alloc);
    for word in line.split(' ') {
        words.push(String::from_str(alloc, word)?)?;
    }
    Ok(words)
}

// What hangs after a command line, with a user who sends the keys of the script, and its status.
fn status(
    alloc: Global,
    line: &str,
    files: Shelf<'_>,
    out: &mut Sink,
    err: &mut Sink,
) -> Result<(String, u8), Fail> {
    let out = BufferedStream::new(alloc, out)?;
    let err = BufferedStream::new(alloc, err)?;
    let mut world = World {
        files,
        album: Gallery::new(alloc, 12),
        pieces: User::new(SENT, false),
        out,
        err,
    };
    status_in(alloc, line, &mut world)
}

// The same in a world.
fn status_in<O: Stream, E: Stream>(
    alloc: Global,
    line: &str,
    world: &mut World<Shelf<'_>, Gallery, User<'_>, O, E>,
) -> Result<(String, u8), Fail> {
    let status = run_main(alloc, Ok(words(alloc, line)?), world);
    Ok((world.album.shown()?, status))
}

// The lines of a text that don't draw anything, and then how many rows of shots and how many pictures there are.
fn summary(alloc: Global, text: &str) -> Result<String, Fail> {
    let mut told = String::new(alloc);
    let mut rows = 0_u32;
    let mut pictures = 0_u32;
    for line in text.lines() {
        if line.starts_with(":") {
            rows = rows.saturating_add(1);
        } else if line.starts_with("<svg") {
            pictures = pictures.saturating_add(1);
        } else if !line.starts_with("<") && !line.starts_with(" ") {
            told.push_str(line)?;
            told.push('\n')?;
        }
    }
    let counts = format!(in alloc; "{rows} rows, {pictures} pictures\n")?;
    told.push_str(&counts)?;
    Ok(told)
}

// What a command line comes to on the full description and this text beside it: the summary of what it printed and of the
// pictures beside the text, its message and its status.
fn told(alloc: Global, line: &str, beside: &str) -> Result<String, Fail> {
    let description = full_description(alloc)?;
    let mut out = Sink::new(alloc, ROOM, true);
    let mut err = Sink::new(alloc, ROOM, true);
    let files = Shelf::new(&description, beside);
    let (shown, status) = status(alloc, line, files, &mut out, &mut err)?;
    let mut printed = String::from_str(alloc, str::from_utf8(out.taken())?)?;
    printed.push_str(&shown)?;
    let message = match str::from_utf8(err.taken())?.split_once("tvdlg: ") {
        Some((_, message)) => message,
        None => "",
    };
    let summary = summary(alloc, &printed)?;
    Ok(format!(in alloc; "{summary}{message}status {status}\n")?)
}

fn expect_told(
    rt: HostRuntime,
    line: &str,
    beside: &str,
    text: &str,
    end: &str,
) -> Result<(), Fail> {
    let alloc = rt.alloc();
    let told = told(alloc, line, beside)?;
    let wanted = format!(in alloc; "{text}{end}")?;
    if told == wanted {
        return Ok(());
    }
    Err(Fail::new(format_args!("told:\n{told}wanted:\n{wanted}")))
}

#[test]
fn lengths(rt: HostRuntime) -> Result<(), Fail> {
    let alloc = rt.alloc();
    assert_eq!(rt; full_description(alloc)?.len(), MOST);
    assert_eq!(rt; full_certificate(alloc)?.len(), MOST);
    assert_eq!(rt; full_script(alloc)?.len(), MOST_OF_SCRIPT);
    Ok(())
}

#[test]
fn check(rt: HostRuntime) -> Result<(), Fail> {
    let certificate = large_certificate(rt.alloc())?;
    expect_told(
        rt,
        "tvdlg check FILE",
        "",
        &certificate,
        "0 rows, 0 pictures\nstatus 0\n",
    )
}

#[test]
fn accept(rt: HostRuntime) -> Result<(), Fail> {
    let certificate = full_certificate(rt.alloc())?;
    expect_told(
        rt,
        "tvdlg accept FILE BESIDE",
        &certificate,
        "accepted\n",
        "0 rows, 0 pictures\nstatus 0\n",
    )
}

#[test]
fn run(rt: HostRuntime) -> Result<(), Fail> {
    let script = full_script(rt.alloc())?;
    let log = large_log(rt.alloc())?;
    expect_told(
        rt,
        "tvdlg run FILE BESIDE",
        &script,
        &log,
        "720 rows, 0 pictures\nstatus 0\n",
    )
}

// The log is that of the script, without shots. The user sends nothing more then.
#[test]
fn play(rt: HostRuntime) -> Result<(), Fail> {
    let log = large_log(rt.alloc())?;
    let log = log.replace(rt.alloc(), "shot 132 60\n", "")?;
    expect_told(
        rt,
        "tvdlg play FILE",
        "",
        &log,
        "0 rows, 0 pictures\nstatus 4\n",
    )
}

#[test]
fn picture(rt: HostRuntime) -> Result<(), Fail> {
    let script = full_script(rt.alloc())?;
    expect_told(
        rt,
        "tvdlg picture FILE BESIDE",
        &script,
        "",
        "0 rows, 1 pictures\nstatus 0\n",
    )
}

const PICTURES: &str = "\
BESIDE-1.svg
BESIDE-2.svg
BESIDE-3.svg
BESIDE-4.svg
BESIDE-5.svg
BESIDE-6.svg
BESIDE-7.svg
BESIDE-8.svg
BESIDE-9.svg
BESIDE-10.svg
BESIDE-11.svg
BESIDE-12.svg
";

#[test]
fn pictures(rt: HostRuntime) -> Result<(), Fail> {
    let script = full_script(rt.alloc())?;
    expect_told(
        rt,
        "tvdlg picture FILE BESIDE --all",
        &script,
        PICTURES,
        "0 rows, 12 pictures\nstatus 0\n",
    )
}

// Of a script no more is explained than a description may have.
#[test]
fn explain(rt: HostRuntime) -> Result<(), Fail> {
    let script = filled(rt.alloc(), LARGE_SCRIPT, MOST)?;
    expect_told(
        rt,
        "tvdlg explain FILE BESIDE",
        &script,
        "",
        "0 rows, 0 pictures\nstatus 0\n",
    )
}

// The calls that the program has in another form.
#[test]
fn calls(rt: HostRuntime) -> Result<(), Fail> {
    let alloc = rt.alloc();
    let description = full_description(alloc)?;
    let certificate = full_certificate(alloc)?;
    let mut out = Memory::ample(alloc)?;
    let accepted = accept_files(
        alloc,
        description.as_bytes(),
        certificate.as_bytes(),
        &mut out,
    );
    assert!(rt; accepted.is_ok());
    let script = full_script(alloc)?;
    assert!(rt; Script::parse(alloc, script.as_bytes(), 132, 60).is_ok());
    Ok(())
}
