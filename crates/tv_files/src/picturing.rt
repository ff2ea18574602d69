//! Pictures of screens.

ghost use Rattle.tv_files.specs.Ends.{end_of};
ghost use Rattle.tv_files.specs.Picturing.{PicturesAll, PicturesFiles};
ghost use Rattle.tv_program.specs.Playing.{IsMismade, Makes};

use crate::Scripted;
use crate::failure::Failure;
use crate::file_store::FileStore;
use crate::tasks::{LONGEST, open, read};
use std::alloc::Global;
use tv_check::Checked;
use tv_io::Writer;
use tv_program::{Album, DrawingFault, picture, picture_shots};
use tv_session::{BuildFault, Views};
use tv_view::View;

/// Runs a file's script on a file's description, through the views that `views` makes of it, and writes the screen that it
/// leaves as SVG.
///
/// Both files are opened before anything is read.
pub fn picture_file<
    'a,
    V: View,
    F: FileStore,
    M: Fn(Global, &Checked) -> Result<Views<V>, BuildFault>,
    W: Writer,
>(
    files: &mut F,
    alloc: Global,
    paths: Scripted<'a>,
    views: &M,
    out: &mut W,
) -> Result<(), Failure<'a>>
    requires { M.IsAlwaysCallable views.now }
    ensures { PicturesFiles (IsMismade (Makes M.Fn views.now) V.meaning) (F.known files.old)
        (F.known files.new) paths.entry.file.now paths.entry.script.now (W.seen out.old)
        (W.seen out.new) (end_of result) }
{
    let mut description = open(files, paths.file)?;
    let mut events = open(files, paths.script)?;
    let text = read(alloc, &mut description, paths.file, LONGEST)?;
    match picture(alloc, text.as_slice(), &mut events, views, out) {
        Ok(()) => Ok(()),
        Err(fault) => Err(Failure::of_run(paths.file, paths.script, fault)),
    }
}

/// Runs a file's script on a file's description, through the views that `views` makes of it, and draws the screen at each `shot`
/// into an album, under the script's path with a number.
///
/// Both files are opened before anything is read, and the script is read to its end before the first picture is drawn.
pub fn picture_all<
    'a,
    V: View,
    F: FileStore,
    M: Fn(Global, &Checked) -> Result<Views<V>, BuildFault>,
    A: Album,
>(
    files: &mut F,
    alloc: Global,
    paths: Scripted<'a>,
    views: &M,
    album: &mut A,
) -> Result<(), Failure<'a>>
    requires { M.IsAlwaysCallable views.now }
    ensures { PicturesAll (IsMismade (Makes M.Fn views.now) V.meaning) (F.known files.old)
        (F.known files.new) paths.entry.file.now paths.entry.script.now (A.hung album.old)
        (A.hung album.new) (end_of result) }
{
    let mut description = open(files, paths.file)?;
    let mut events = open(files, paths.script)?;
    let text = read(alloc, &mut description, paths.file, LONGEST)?;
    match picture_shots(
        alloc,
        text.as_slice(),
        &mut events,
        views,
        paths.script,
        album,
    ) {
        Ok(()) => Ok(()),
        Err(DrawingFault::Run(fault)) => Err(Failure::of_run(paths.file, paths.script, fault)),
        Err(DrawingFault::Shot(shot)) => Err(Failure::of_shot(paths.script, shot)),
    }
}
