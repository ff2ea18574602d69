//! What each subcommand does with its files.

ghost use Rattle.std.specs.Prelude.{◌≡◌, [], ◌∷◌, MatchResult};
ghost use Rattle.tv_io.specs.Reading.{IsRead};
ghost use Rattle.tv_program.specs.Playing.{IsMismade, Makes};
ghost use Rattle.tv_files.specs.declared.done.Done.TheVariants.{Whole};
ghost use Rattle.tv_files.specs.Ends.{done_in, end_of, end_of_failure};
ghost use Rattle.tv_files.specs.Files.{IsFileOf, IsTapeOf, Opens, longest};
ghost use Rattle.tv_files.specs.Performing.{PerformsTask, PlaysIn};
ghost use Rattle.tv_files.specs.Tasks.{AcceptsFiles, ChecksFile, EndsFirst, GivesText, HasRead, IsSpelledAs, IsUngiven};
ghost use Rattle.tv_files.specs.Tasks.{IsUnopened, IsUnread, IsUnspelled, RunsFiles, TellsVersion};
ghost use Rattle.tv_files.specs.World.{known_world};

use crate::answering::answer_file;
use crate::boxes::write_box;
use crate::explaining::{explain_file, explain_files};
use crate::failure::Failure;
use crate::file_store::FileStore;
use crate::filling::fill_file;
use crate::picturing::{picture_all, picture_file};
use crate::recording::record_file;
use crate::warning::warn_file;
use crate::way::way_file;
use crate::ways::ways_file;
use crate::{Answered, Done, Inquiry, Scripted, Task, World};
use std::alloc::Global;
use tv_check::Checked;
use tv_io::{Reader, Writer, read_text, write_all};
use tv_lang::parse;
use tv_model::Desc;
use tv_play::{NoTape, Outputs, Pieces};
use tv_program::{Album, Trouble, accept_text, check, play, run};
use tv_session::{BuildFault, Views};
use tv_terminal::Colours;
use tv_view::View;

/// The most bytes of a description, a certificate, or a text that is explained beside a description.
pub(crate) const LONGEST: usize = 262_144;

/// What is told where the terminal can't be read.
pub(crate) const TERMINAL: &str = "standard input";

/// The program's name and version.
const VERSION: &str = "tvdlg 1.0.0\n";

/// Does what is asked for, and writes its result to the world's `out`.
///
/// `views` makes the views of a description that is run, drawn, played or answered; no other task calls it. The world's `album` takes the
/// pictures of a task that draws more than one. Its `pieces` are the keys of a description that is played, and its `err` takes the
/// screen of that, or what doesn't fit of answers.
pub fn perform<
    'a,
    V: View,
    F: FileStore,
    A: Album,
    M: Fn(Global, &Checked) -> Result<Views<V>, BuildFault>,
    P: Pieces,
    T: Writer,
    W: Writer,
>(
    alloc: Global,
    task: Task<'a>,
    views: &M,
    world: &mut World<F, A, P, W, T>,
) -> Result<Done, Failure<'a>>
    requires { M.IsAlwaysCallable views.now }
    ensures { let known = known_world F.known A.hung P.heard W.seen T.seen in
        PerformsTask (IsMismade (Makes M.Fn views.now) V.meaning) (IsTapeOf F.Made.seen F.made_at) task.entry
        (known world.old) (known world.new) (done_in result) (end_of result) }
{
    match task {
        Task::Check { file } => whole(check_file(&mut world.files, alloc, file, &mut world.out)),
        Task::Accept { file, certificate } => {
            whole(accept_file(&mut world.files, alloc, file, certificate, &mut world.out))
        }
        Task::Run { file, script } => {
            let paths = Scripted { file, script };
            whole(run_file(&mut world.files, alloc, paths, views, &mut world.out))
        }
        Task::Play { file, colours } => play_file(alloc, file, colours, views, world),
        Task::Record {
            file,
            script,
            colours,
        } => {
            let paths = Scripted { file, script };
            record_file(alloc, paths, colours, views, world)
        }
        Task::Picture { file, script } => {
            let paths = Scripted { file, script };
            whole(picture_file(&mut world.files, alloc, paths, views, &mut world.out))
        }
        Task::PictureAll { file, script } => {
            let paths = Scripted { file, script };
            whole(picture_all(&mut world.files, alloc, paths, views, &mut world.album))
        }
        Task::Fill { file, answers } => {
            let paths = Answered { file, answers };
            let out = &mut world.out;
            let err = &mut world.err;
            whole(fill_file(&mut world.files, alloc, paths, out, err))
        }
        Task::Answer { file, answers } => {
            let paths = Answered { file, answers };
            let out = &mut world.out;
            let err = &mut world.err;
            whole(answer_file(&mut world.files, alloc, paths, views, out, err))
        }
        Task::Box { words } => whole(write_box(alloc, words, &mut world.out)),
        Task::Explain { file, manner } => {
            let inquiry = Inquiry { file, manner };
            explain_file(&mut world.files, alloc, inquiry, &mut world.out)
        }
        Task::ExplainBoth {
            file,
            beside,
            manner,
        } => {
            let inquiry = Inquiry { file, manner };
            explain_files(&mut world.files, alloc, inquiry, beside, &mut world.out)
        }
        Task::Ways { file } => ways_file(&mut world.files, alloc, file, &mut world.out),
        Task::Way { file, wanted } => {
            way_file(&mut world.files, alloc, file, wanted, &mut world.out)
        }
        Task::Warn {
            file,
            manner,
            denies,
        } => {
            let inquiry = Inquiry { file, manner };
            warn_file(&mut world.files, alloc, inquiry, denies, &mut world.out)
        }
        Task::Version => whole(tell_version(&mut world.out)),
    }
}

/// Writes the program's name and version.
pub fn tell_version<'a, W: Writer>(out: &mut W) -> Result<(), Failure<'a>>
    ensures { TellsVersion (W.seen out.old) (W.seen out.new) (end_of result) }
{
    match write_all(out, VERSION.as_bytes()) {
        Ok(()) => Ok(()),
        Err(_) => Err(Failure::Fault {
            fault: Trouble::Write,
            path: "",
        }),
    }
}

/// Writes the certificate of the description in a file.
pub fn check_file<'a, F: FileStore, W: Writer>(
    files: &mut F,
    alloc: Global,
    file: &'a str,
    out: &mut W,
) -> Result<(), Failure<'a>>
    ensures { ChecksFile (F.known files.old) (F.known files.new) file.now (W.seen out.old) (W.seen out.new) (end_of result) }
{
    let text = read_file(files, alloc, file)?;
    match check(alloc, text.as_slice(), out) {
        Ok(()) => Ok(()),
        Err(fault) => Err(Failure::new(file, file, Trouble::from(fault))),
    }
}

/// Writes `accepted` where a file's certificate is that of a file's description.
///
/// The certificate is looked for only once the description is read.
pub fn accept_file<'a, F: FileStore, W: Writer>(
    files: &mut F,
    alloc: Global,
    file: &'a str,
    certificate: &'a str,
    out: &mut W,
) -> Result<(), Failure<'a>>
    ensures { AcceptsFiles (F.known files.old) (F.known files.new) file.now certificate.now (W.seen out.old)
        (W.seen out.new) (end_of result) }
{
    let desc = described(files, alloc, file)?;
    let text = read_file(files, alloc, certificate)?;
    match accept_text(alloc, desc, text.as_slice(), out) {
        Ok(()) => Ok(()),
        Err(fault) => Err(Failure::new(file, certificate, Trouble::from(fault))),
    }
}

/// Performs a file's script on a file's description through the views that `views` makes of it, and writes its output.
///
/// Both files are opened before anything is read, the description first. Then the description is read to its end; the script
/// is read only once the description has passed and its views are made, and performed as it comes: each line when its end
/// has come, with what was written before passed on. So the script may be a pipe or a terminal.
///
/// Where the script is at fault, or can't be read any more, what the lines before it wrote was written.
pub fn run_file<
    'a,
    V: View,
    F: FileStore,
    M: Fn(Global, &Checked) -> Result<Views<V>, BuildFault>,
    W: Writer,
>(
    files: &mut F,
    alloc: Global,
    paths: Scripted<'a>,
    views: &M,
    out: &mut W,
) -> Result<(), Failure<'a>>
    requires { M.IsAlwaysCallable views.now }
    ensures { RunsFiles (IsMismade (Makes M.Fn views.now) V.meaning) (F.known files.old)
        (F.known files.new) paths.entry.file.now paths.entry.script.now (W.seen out.old)
        (W.seen out.new) (end_of result) }
{
    let mut description = open(files, paths.file)?;
    let mut events = open(files, paths.script)?;
    let text = read(alloc, &mut description, paths.file, LONGEST)?;
    match run(alloc, text.as_slice(), &mut events, views, out) {
        Ok(_) => Ok(()),
        Err(fault) => Err(Failure::of_run(paths.file, paths.script, fault)),
    }
}

/// Plays a file's description in a terminal, through the views that `views` makes of it: hears the world's `pieces`, shows what
/// they leave on its `err`, in `colours`, and writes the log to its `out`. No picture is drawn.
///
/// The terminal isn't touched before the description has passed and its views are made.
pub fn play_file<
    'a,
    V: View,
    F: FileStore,
    A: Album,
    M: Fn(Global, &Checked) -> Result<Views<V>, BuildFault>,
    P: Pieces,
    T: Writer,
    W: Writer,
>(
    alloc: Global,
    file: &'a str,
    colours: Colours,
    views: &M,
    world: &mut World<F, A, P, W, T>,
) -> Result<Done, Failure<'a>>
    requires { M.IsAlwaysCallable views.now }
    ensures { let known = known_world F.known A.hung P.heard W.seen T.seen in
        PlaysIn (IsMismade (Makes M.Fn views.now) V.meaning) colours file.now (known world.old)
        (known world.new) (done_in result) (end_of result) }
{
    let text = read_file(&mut world.files, alloc, file)?;
    let mut tape = NoTape;
    let mut outputs = Outputs {
        screen: &mut world.err,
        colours,
        log: &mut world.out,
        tape: &mut tape,
    };
    match play(
        alloc,
        text.as_slice(),
        &mut world.pieces,
        views,
        &mut outputs,
    ) {
        Ok(parting) => Ok(Done::from(parting)),
        Err(fault) => Err(Failure::of_run(file, TERMINAL, fault)),
    }
}

// The answer of a task that nobody breaks off.
fn whole<'a>(answer: Result<(), Failure<'a>>) -> Result<Done, Failure<'a>>
    ensures done { done_in result ≡ Whole }
    ensures end { end_of result ≡ end_of answer.entry }
{
    answer?;
    Ok(Done::Whole)
}

// Reads the description of a file.
fn described<'a, F: FileStore>(
    files: &mut F,
    alloc: Global,
    file: &'a str,
) -> Result<Desc, Failure<'a>>
    ensures { MatchResult result
        (λ desc. HasRead (IsSpelledAs desc) (F.known files.old) (F.known files.new) file.now)
        (λ failure. EndsFirst IsUnspelled (F.known files.old) (F.known files.new) file.now (end_of_failure failure)) }
{
    let text = read_file(files, alloc, file)?;
    match parse(alloc, text.as_slice()) {
        Ok(desc) => Ok(desc),
        Err(fault) => Err(Failure::Fault {
            fault: Trouble::from(fault),
            path: file,
        }),
    }
}

// Opens the file of a description, or of a text beside it, and reads its text.
pub(crate) fn read_file<'a, F: FileStore>(
    files: &mut F,
    alloc: Global,
    path: &'a str,
) -> Result<Vec<u8>, Failure<'a>>
    ensures { MatchResult result
        (λ text. GivesText longest (F.known files.old) (F.known files.new) (path.now ∷ []) path.now text.items)
        (λ failure. IsUnread longest (F.known files.old) (F.known files.new) (path.now ∷ []) path.now (end_of_failure failure)) }
{
    read_up_to(files, alloc, path, LONGEST)
}

// Opens a file and reads its text, to one byte past the limit.
pub(crate) fn read_up_to<'a, F: FileStore>(
    files: &mut F,
    alloc: Global,
    path: &'a str,
    limit: usize,
) -> Result<Vec<u8>, Failure<'a>>
    ensures { MatchResult result
        (λ text. GivesText limit (F.known files.old) (F.known files.new) (path.now ∷ []) path.now text.items)
        (λ failure. IsUnread limit (F.known files.old) (F.known files.new) (path.now ∷ []) path.now (end_of_failure failure)) }
{
    let mut file = open(files, path)?;
    read(alloc, &mut file, path, limit)
}

// Opens a file.
pub(crate) fn open<'a, F: FileStore>(files: &mut F, path: &'a str) -> Result<F::File, Failure<'a>>
    ensures { MatchResult result
        (λ file. Opens (F.known files.old) (F.known files.new) (path.now ∷ [])
        × IsFileOf (F.known files.old) path.now (F.File.seen file))
        (λ failure. IsUnopened (F.known files.old) (F.known files.new) (path.now ∷ []) path.now (end_of_failure failure)) }
{
    match files.open(path) {
        Ok(file) => Ok(file),
        Err(unread) => Err(Failure::of_file(path, unread)),
    }
}

// Reads the text of a file that was opened, to one byte past the limit.
pub(crate) fn read<'a, R: Reader>(
    alloc: Global,
    file: &mut R,
    path: &'a str,
    limit: usize,
) -> Result<Vec<u8>, Failure<'a>>
    ensures { MatchResult result
        (λ text. IsRead limit (R.seen file.old) (R.seen file.new) text.items)
        (λ failure. IsUngiven limit (R.seen file.old) (R.seen file.new) path.now (end_of_failure failure)) }
{
    match read_text(alloc, file, limit) {
        Ok(text) => Ok(text),
        Err(unread) => Err(Failure::of_file(path, unread)),
    }
}
