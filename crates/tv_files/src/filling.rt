//! What filling a description with answers does with its files.

ghost use Rattle.std.specs.Prelude.{MatchResult};
ghost use Rattle.tv_files.specs.Ends.{end_of, end_of_failure};
ghost use Rattle.tv_files.specs.Filling.{FillsFiles, IsSoundAs, IsUnsound};
ghost use Rattle.tv_files.specs.Tasks.{EndsFirst, HasRead};

use crate::Answered;
use crate::failure::Failure;
use crate::file_store::FileStore;
use crate::tasks::{read_file, read_up_to};
use std::alloc::Global;
use tv_io::Writer;
use tv_model::Desc;
use tv_program::{NamedLog, Trouble, fill_text, read_sound};

/// The most bytes of answers.
pub(crate) const LONGEST_LOG: usize = 1_048_576;

/// Writes the canonical text of a file's description, its fields beginning with what a file's log answers. What doesn't fit
/// the description is told on `err`, under the path of the log, and the fields stay as they are declared.
///
/// The log is looked for only once the description is found sound.
pub fn fill_file<'a, F: FileStore, W: Writer, E: Writer>(
    files: &mut F,
    alloc: Global,
    paths: Answered<'a>,
    out: &mut W,
    err: &mut E,
) -> Result<(), Failure<'a>>
    ensures { FillsFiles (F.known files.old) (F.known files.new) paths.entry.file.now paths.entry.answers.now
        (record { out = W.seen out.old; told = E.seen err.old })
        (record { out = W.seen out.new; told = E.seen err.new }) (end_of result) }
{
    let desc = sound(files, alloc, paths.file)?;
    let text = read_up_to(files, alloc, paths.answers, LONGEST_LOG)?;
    let log = NamedLog {
        name: paths.answers,
        text: text.as_slice(),
    };
    match fill_text(alloc, desc, log, out, err) {
        Ok(()) => Ok(()),
        Err(fault) => Err(Failure::new(paths.file, paths.answers, Trouble::from(fault))),
    }
}

// Reads the description of a file, where it has no faults.
pub(crate) fn sound<'a, F: FileStore>(
    files: &mut F,
    alloc: Global,
    file: &'a str,
) -> Result<Desc, Failure<'a>>
    ensures { MatchResult result
        (λ desc. HasRead (IsSoundAs desc) (F.known files.old) (F.known files.new) file.now)
        (λ failure. EndsFirst IsUnsound (F.known files.old) (F.known files.new) file.now (end_of_failure failure)) }
{
    let text = read_file(files, alloc, file)?;
    match read_sound(alloc, text.as_slice()) {
        Ok(desc) => Ok(desc),
        Err(fault) => Err(Failure::Fault {
            fault: Trouble::from(fault),
            path: file,
        }),
    }
}
