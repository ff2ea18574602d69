//! A run in a terminal, recorded in a file.

ghost use Rattle.tv_files.specs.Ends.{done_in, end_of};
ghost use Rattle.tv_files.specs.Files.{IsTapeOf};
ghost use Rattle.tv_files.specs.Recording.{RecordsIn};
ghost use Rattle.tv_files.specs.World.{known_world};
ghost use Rattle.tv_program.specs.Playing.{IsMismade, Makes};

use crate::failure::Failure;
use crate::file_store::FileStore;
use crate::tasks::{TERMINAL, read_file};
use crate::{Done, Scripted, World};
use std::alloc::Global;
use tv_check::Checked;
use tv_io::Writer;
use tv_play::{Outputs, Pieces};
use tv_program::{Album, play_from, read_checked};
use tv_session::{BuildFault, Views};
use tv_terminal::Colours;
use tv_view::View;

/// Plays a file's description in a terminal as `play_file` does, and writes what the user did into a file, as a script that `run`
/// and `picture` take.
///
/// That file is made once the description has passed, in place of what it held.
pub fn record_file<
    'a,
    V: View,
    F: FileStore,
    A: Album,
    M: Fn(Global, &Checked) -> Result<Views<V>, BuildFault>,
    P: Pieces,
    T: Writer,
    W: Writer,
>(
    alloc: Global,
    paths: Scripted<'a>,
    colours: Colours,
    views: &M,
    world: &mut World<F, A, P, W, T>,
) -> Result<Done, Failure<'a>>
    requires { M.IsAlwaysCallable views.now }
    ensures { let known = known_world F.known A.hung P.heard W.seen T.seen in
        RecordsIn (IsMismade (Makes M.Fn views.now) V.meaning) (IsTapeOf F.Made.seen F.made_at) colours
        paths.entry.file.now paths.entry.script.now (known world.old) (known world.new) (done_in result) (end_of result) }
{
    let text = read_file(&mut world.files, alloc, paths.file)?;
    let checked = match read_checked(alloc, text.as_slice()) {
        Ok(checked) => checked,
        Err(fault) => return Err(Failure::of_run(paths.file, TERMINAL, fault)),
    };
    let mut tape = match world.files.make(alloc, paths.script) {
        Ok(tape) => tape,
        Err(fault) => return Err(Failure::of_tape(paths.script, fault)),
    };
    let mut outputs = Outputs {
        screen: &mut world.err,
        colours,
        log: &mut world.out,
        tape: &mut tape,
    };
    match play_from(alloc, checked, &mut world.pieces, views, &mut outputs) {
        Ok(parting) => Ok(Done::from(parting)),
        Err(fault) => Err(Failure::of_record(paths.file, paths.script, fault)),
    }
}
