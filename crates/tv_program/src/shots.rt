//! A description's script, run for the pictures at its shots.

ghost use Rattle.tv_machine.specs.Run.{Session};
ghost use Rattle.tv_program.specs.Shots.{ShotsFrom, ShotsTo};
ghost use Rattle.tv_program.specs.Playing.{IsMismade, Makes};
ghost use Rattle.tv_script.specs.Performed.{FitsLargestScreen};

use crate::album::Album;
use crate::drawing::draw_shots;
use crate::picture_fault::DrawingFault;
use crate::playing::{begin, read_checked};
use crate::reading::read_script;
use std::alloc::Global;
use tv_check::Checked;
use tv_io::Reader;
use tv_script::{Script, Stage};
use tv_session::{BuildFault, Views, parts_are_lawful};
use tv_view::View;

/// Runs a script on a description, and draws the screen at each `shot` of it, as `draw_shots` does.
///
/// The description is read first, and its views are made, as for `run` of `tv_program`. Then the script is read to its end, before
/// the first picture is drawn.
///
/// # Errors
///
/// - `Run`: those of `run`, but `Write`. No picture was drawn, whichever line of the script is at fault.
/// - `Shot`: the first picture that fails. Those before it are there.
pub fn picture_shots<
    V: View,
    F: Fn(Global, &Checked) -> Result<Views<V>, BuildFault>,
    R: Reader,
    A: Album,
>(
    alloc: Global,
    desc: &[u8],
    script: &mut R,
    make: &F,
    name: &str,
    album: &mut A,
) -> Result<(), DrawingFault>
    requires { F.IsAlwaysCallable make.now }
    ensures { ShotsTo (IsMismade (Makes F.Fn make.now) V.meaning) desc.now name.now
        (R.seen script.old) (R.seen script.new) (A.hung album.old) (A.hung album.new) result }
{
    let checked = read_checked(alloc, desc)?;
    parts_are_lawful(checked.desc());
    let mut session = begin(alloc, checked, make)?;
    draw_script(alloc, &mut session, script, name, album)
}

// Reads a script to its end, and draws the screen at each `shot` of it.
fn draw_script<S: Stage, R: Reader, A: Album>(
    alloc: Global,
    stage: &mut S,
    script: &mut R,
    name: &str,
    album: &mut A,
) -> Result<(), DrawingFault>
    requires there { (s : Session) × S.stands stage.old s × FitsLargestScreen s.desc }
    ensures { (s : Session) → S.stands stage.old s
        → ShotsFrom s name.now (R.seen script.old) (R.seen script.new) (A.hung album.old) (A.hung album.new) result }
{
    let text = read_script(alloc, script)?;
    let desc = stage.desc();
    let script = Script::parse(alloc, text.as_slice(), desc.width, desc.height)?;
    draw_shots(alloc, stage, &script, name, album)?;
    Ok(())
}
