//! Long paths, and texts as long as they may be.

use crate::endings::{RUN, expect_endings, expect_told};
use crate::gallery::Gallery;
use crate::sink::Sink;
use crate::user::User;
use std::alloc::{AllocError, Global};
use std::test::Fail;
use tv_files::{AlbumFault, DirectStream, FileStore, ReadFault, Task, World, run_program};
use tv_io::FileReader;
use tv_test_support::Memory;
use tv_test_support::button_views::buttons;
use tv_test_support::certificates::CANCEL_CERTIFICATE;
use tv_test_support::descriptions::CANCEL;

/// One file, under a path of any length.
#[derive(Drop)]
struct Lone<'a> {
    path: &'a str,
    text: &'a str,
}

impl<'a> FileStore for Lone<'a> {
    ghost use Rattle.std.specs.Prelude.{None, false};

    type File = FileReader<&'a [u8]>;

    type Made = Memory;

    ghost known = { λ _. record { contents = λ _. None; absent = λ _. false; opened = None; made = None; failures = None } };

    ghost made_at = { λ _ _. ⊥ };

    fn open(&mut self, path: &str) -> Result<FileReader<&'a [u8]>, ReadFault> {
        if path == self.path {
            Ok(FileReader::new(self.text.as_bytes()))
        } else {
            Err(ReadFault::Read)
        }
    }

    fn make(&mut self, _alloc: Global, _path: &str) -> Result<Memory, AlbumFault> {
        Err(AlbumFault::Write)
    }
}

// What stands on standard output, then what stands on standard error, then the status, where the description of one button is
// the only file, under this path.
fn lone_ending(alloc: Global, path: &str, task: Task<'_>) -> Result<String, Fail> {
    let files = Lone { path, text: CANCEL };
    let mut out = Sink::new(alloc, 10_000, true);
    let mut err = Sink::new(alloc, 10_000, true);
    let status = status(alloc, files, task, &mut out, &mut err);
    let text = str::from_utf8(out.taken())?;
    let message = str::from_utf8(err.taken())?;
    Ok(format!(in alloc; "{text}{message}status {status}\n")?)
}

// Fails where something else stands there.
fn expect_lone(alloc: Global, path: &str, task: Task<'_>, wanted: &str) -> Result<(), Fail> {
    let told = lone_ending(alloc, path, task)?;
    expect_told(&told, wanted)
}

fn status(alloc: Global, files: Lone<'_>, task: Task<'_>, out: &mut Sink, err: &mut Sink) -> u8 {
    let mut world = World {
        files,
        album: Gallery::new(alloc, 0),
        pieces: User::silent(),
        out: DirectStream::new(out),
        err: DirectStream::new(err),
    };
    run_program(alloc, Ok(task), &buttons, &mut world)
}

// A path of 4,000 bytes.
fn long_path(alloc: Global, name: &str) -> Result<String, AllocError> {
    let mut path = "folder/".repeat(alloc, 571)?;
    path.push_str(name)?;
    Ok(path)
}

#[test]
fn long_paths(rt: HostRuntime) -> Result<(), Fail> {
    let alloc = rt.alloc();
    let path = long_path(alloc, "a.t")?;
    assert_eq!(rt; path.len(), 4000);
    let file = path.as_str();
    let wanted = format!(in alloc; "{CANCEL_CERTIFICATE}status 0\n")?;
    expect_lone(alloc, file, Task::Check { file }, &wanted)?;
    let wanted = format!(in alloc; "open a\nfocus c\ntvdlg: {path}: syntax at line 1\nstatus 1\n")?;
    expect_lone(alloc, file, Task::Run { file, script: file }, &wanted)
}

// Each path is taken as it stands, and there is memory for it.
#[test]
fn odd_paths(rt: HostRuntime) -> Result<(), Fail> {
    const PATHS: [&str; 10] = ["", " ", " a", "a ", "a b", "-", ".", "NONE", "ä", "a\nb"];
    let alloc = rt.alloc();
    let wanted = format!(in alloc; "{CANCEL_CERTIFICATE}status 0\n")?;
    for &path in &PATHS {
        expect_lone(alloc, path, Task::Check { file: path }, &wanted)?;
    }
    Ok(())
}

#[test]
fn long_paths_of_missing_files(rt: HostRuntime) -> Result<(), Fail> {
    let alloc = rt.alloc();
    let path = long_path(alloc, "b.t")?;
    let task = Task::Check {
        file: path.as_str(),
    };
    let wanted = format!(in alloc; "tvdlg: cannot read {path}\nstatus 3\n")?;
    expect_lone(alloc, "a.t", task, &wanted)
}

// A script of 262,146 bytes, more than a description may have. Its last line ends the dialog.
fn long_script(alloc: Global) -> Result<String, AllocError> {
    let mut script = "# a comment\n".repeat(alloc, 21_844)?;
    script.push_str("# the end\nkey Esc\n")?;
    Ok(script)
}

#[test]
fn long_scripts_are_run_whole(rt: HostRuntime) -> Result<(), Fail> {
    let script = long_script(rt.alloc())?;
    assert_eq!(rt; script.len(), 262_146);
    let told = "open a\nfocus c\nend a cancel\nstatus 0\nopened 12\n";
    expect_endings(rt.alloc(), &[(RUN, CANCEL, script.as_str(), told)])
}
