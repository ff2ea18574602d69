//! The program, from what it is asked for to its status.

ghost use Rattle.tv_files.specs.EndsWith.{EndsWith};
ghost use Rattle.tv_files.specs.Files.{IsTapeOf};
ghost use Rattle.tv_files.specs.World.{known_world};
ghost use Rattle.tv_program.specs.Playing.{IsMismade, Makes};

use crate::file_store::FileStore;
use crate::stream::Stream;
use crate::tasks::perform;
use crate::telling::{finish, tell_no_task};
use crate::{NoTask, Task, World};
use std::alloc::Global;
use tv_check::Checked;
use tv_play::Pieces;
use tv_program::Album;
use tv_session::{BuildFault, Views};
use tv_view::View;

/// Does what is asked for in this world, or tells why nothing is. `views` makes the views of a description that is run, drawn
/// or played. Returns the program's status.
pub fn run_program<
    V: View,
    F: FileStore,
    A: Album,
    M: Fn(Global, &Checked) -> Result<Views<V>, BuildFault>,
    P: Pieces,
    O: Stream,
    E: Stream,
>(alloc: Global, asked: Result<Task<'_>, NoTask>, views: &M, world: &mut World<F, A, P, O, E>) -> u8
    requires { M.IsAlwaysCallable views.now }
    ensures { let known = known_world F.known A.hung P.heard O.seen E.seen in
        EndsWith (IsMismade (Makes M.Fn views.now) V.meaning) (IsTapeOf F.Made.seen F.made_at) asked.entry
        (known world.old) (known world.new) result }
{
    match asked {
        Ok(task) => {
            let answer = perform(alloc, task, views, world);
            finish(&answer, &mut world.out, &mut world.err)
        }
        Err(no_task) => tell_no_task(no_task, &mut world.err),
    }
}
