//! The views of a run: the toolkit's own controls, each in a box.

ghost use Rattle.std.specs.Prelude.{◌≡◌, IfErr, IfOk, Result};
ghost use Rattle.tv_session.specs.declared.build_fault.BuildFault.TheVariants.{NoMemory};
ghost use Rattle.tv_files.specs.EndsWith.{EndsWith};
ghost use Rattle.tv_files.specs.Files.{IsTapeOf};
ghost use Rattle.tv_files.specs.World.{known_world};
ghost use Rattle.tv_files.specs.declared.no_task.NoTask.{NoTask as WhyNone};
ghost use Rattle.tv_files.specs.declared.task.Task.{Task as Wanted};
ghost use Rattle.tv_main.specs.Asking.{IsAskedBy};
ghost use Rattle.tv_app.specs.Control.{control_leaf};
ghost use Rattle.tv_app.specs.Views.{NoneMismatches};

use crate::arguments::read_task;
use std::alloc::{AllocError, Global};
use tv_app::{Control, views_by};
use tv_check::Checked;
use tv_files::{Album, FileStore, NoTask, Stream, Task, World, run_program};
use tv_play::Pieces;
use tv_session::{BuildFault, Views};
use tv_view::View;

/// Carries out what the words of a command line ask for in this world, or tells why there are none. Returns the program's
/// status.
pub fn run_main<F: FileStore, A: Album, P: Pieces, O: Stream, E: Stream>(
    alloc: Global,
    words: Result<Vec<String>, NoTask>,
    world: &mut World<F, A, P, O, E>,
) -> u8
    ensures { let known = known_world F.known A.hung P.heard O.seen E.seen in
        (asked : Result Wanted WhyNone) × IsAskedBy words asked
        × EndsWith (λ _. ⊥) (IsTapeOf F.Made.seen F.made_at) asked (known world.old) (known world.new) result }
{
    match words {
        Ok(words) => {
            let asked = read_task(alloc, words.as_slice());
            run_with_boxes(alloc, asked, world)
        }
        Err(no_task) => run_with_boxes(alloc, Err(no_task), world),
    }
}

// Carries out what is asked for, as `run_program` says, with the toolkit's own controls, each in a box, where a description is
// run, drawn or played. No session refuses them: they stand as they are declared.
fn run_with_boxes<F: FileStore, A: Album, P: Pieces, O: Stream, E: Stream>(
    alloc: Global,
    asked: Result<Task<'_>, NoTask>,
    world: &mut World<F, A, P, O, E>,
) -> u8
    ensures { let known = known_world F.known A.hung P.heard O.seen E.seen in
        EndsWith (λ _. ⊥) (IsTapeOf F.Made.seen F.made_at) asked.entry (known world.old) (known world.new) result }
{
    // `refused` says nothing: the tactic proves `same` only where it stands beside another clause.
    let boxed = |alloc: Global, control: Control| -> Result<Box<dyn View>, AllocError>
        ensures same { IfOk result (λ view. (View-box view).meaning view.value ≡ control_leaf control) }
        ensures refused { IfErr result (λ _. Unit {0}) }
    {
        match control {
            Control::Text(text) => Ok(Box::new(alloc, text)?),
            Control::Label(label) => Ok(Box::new(alloc, label)?),
            Control::Button(button) => Ok(Box::new(alloc, button)?),
            Control::Input(line) => Ok(Box::new(alloc, line)?),
            Control::CheckBoxes(boxes) => Ok(Box::new(alloc, boxes)?),
            Control::RadioButtons(radios) => Ok(Box::new(alloc, radios)?),
            Control::List(list) => Ok(Box::new(alloc, list)?),
        }
    };
    let views = |alloc: Global, checked: &Checked| -> Result<Views<Box<dyn View>>, BuildFault>
        ensures made { IfOk result (λ views. NoneMismatches
            (λ view. (View-box view).meaning view.value) checked.now views.windows.items views.bodies.items) }
        ensures refused { IfErr result (λ fault. fault ≡ NoMemory) }
    { Ok(views_by(alloc, checked, &boxed)?) };
    run_program(alloc, asked, &views, world)
}
