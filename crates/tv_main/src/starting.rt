//! The streams, files and words of a runtime, handed to the program.

ghost use Rattle.std.specs.IoError.{error_kind};
ghost use Rattle.tv_main.specs.Asking.{TellsNoWords};

use crate::boxing::run_main;
use std::alloc::Global;
use std::io::Write;
use std::rt::{Clock, Env, Files};
use std::{env, io};
use tv_files::{
    BufferedStream, DirectStream, NoTask, RuntimeAlbum, RuntimeFiles, TerminalInput, TimedReader,
    World, tell_no_memory,
};

/// Carries out what the words of the command line ask for, over a runtime's files, its input and output, and `errors`, to which
/// messages go and the screen of what is played. Returns the program's status.
///
/// Where there is no memory for what output keeps back, that is told to `last`, which is standard error once more.
pub fn start<R: Files + Env + Clock + Input + Print + AllocGlobal, E: Write + Drop>(
    rt: &R,
    errors: E,
    last: E,
) -> u8 {
    let alloc = rt.alloc();
    let (Ok(out), Ok(err)) = (
        BufferedStream::new(alloc, io::writer(rt)),
        BufferedStream::new(alloc, errors),
    ) else {
        return tell_no_memory(&mut DirectStream::new(last));
    };
    let mut world = World {
        files: RuntimeFiles::new(rt),
        album: RuntimeAlbum::new(rt, alloc),
        pieces: TerminalInput::new(TimedReader::new(rt.reader(), rt)),
        out,
        err,
    };
    run_main(alloc, words(rt), &mut world)
}

// The words of the command line, of which the first names the program.
fn words<R: Env + AllocGlobal>(rt: &R) -> Result<Vec<String>, NoTask> {
    match env::args(rt) {
        Ok(words) => Ok(words.collect::<Vec<String>>(rt.alloc())?),
        Err(error) => Err(no_words(rt.alloc(), &error)),
    }
}

// Tells why the words aren't there. Where one isn't text, the message is empty.
fn no_words(alloc: Global, error: &io::Error) -> NoTask
    ensures { TellsNoWords (error_kind error.now) result }
{
    match error.kind() {
        io::ErrorKind::OutOfMemory => NoTask::NoMemory,
        _ => NoTask::Usage(String::new(alloc)),
    }
}
