//! What giving answered dialogs their ends does with its files.

ghost use Rattle.tv_program.specs.Playing.{IsMismade, Makes};
ghost use Rattle.tv_files.specs.Ends.{end_of};
ghost use Rattle.tv_files.specs.Filling.{AnswersFiles};

use crate::Answered;
use crate::failure::Failure;
use crate::file_store::FileStore;
use crate::filling::{LONGEST_LOG, sound};
use crate::tasks::read_up_to;
use std::alloc::Global;
use tv_check::Checked;
use tv_io::Writer;
use tv_program::{NamedLog, Trouble, answer_text};
use tv_session::{BuildFault, Views};
use tv_view::View;

/// Gives each dialog of a file's description that a file's log answers its end, with the answers in its fields, through the
/// views that `views` makes of it, and writes the logs of that. What doesn't fit the description is told on `err`, under the
/// path of the log, and no dialog is given its end then.
///
/// The log is looked for only once the description is found sound.
pub fn answer_file<
    'a,
    V: View,
    F: FileStore,
    M: Fn(Global, &Checked) -> Result<Views<V>, BuildFault>,
    W: Writer,
    E: Writer,
>(
    files: &mut F,
    alloc: Global,
    paths: Answered<'a>,
    views: &M,
    out: &mut W,
    err: &mut E,
) -> Result<(), Failure<'a>>
    requires { M.IsAlwaysCallable views.now }
    ensures { AnswersFiles (IsMismade (Makes M.Fn views.now) V.meaning) (F.known files.old) (F.known files.new)
        paths.entry.file.now paths.entry.answers.now
        (record { out = W.seen out.old; told = E.seen err.old })
        (record { out = W.seen out.new; told = E.seen err.new }) (end_of result) }
{
    let desc = sound(files, alloc, paths.file)?;
    let text = read_up_to(files, alloc, paths.answers, LONGEST_LOG)?;
    let log = NamedLog {
        name: paths.answers,
        text: text.as_slice(),
    };
    match answer_text(alloc, desc, log, views, out, err) {
        Ok(()) => Ok(()),
        Err(fault) => Err(Failure::new(paths.file, paths.answers, Trouble::from(fault))),
    }
}
