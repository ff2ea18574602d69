//! A description's script, run for the picture of its screen.

ghost use Rattle.tv_program.specs.Drawing.{PicturesTo};
ghost use Rattle.tv_program.specs.Playing.{IsMismade, Makes};

use crate::nowhere::Nowhere;
use crate::playing::run;
use crate::run_fault::RunFault;
use std::alloc::Global;
use tv_check::Checked;
use tv_io::{Reader, Writer};
use tv_script::Stage;
use tv_session::{BuildFault, Views};
use tv_terminal::write_svg;
use tv_view::View;

/// Runs a script on a description as `run` of `tv_program` does, and draws the screen that it leaves as SVG. The log and the
/// screens that the script asks for are dropped.
///
/// # Errors
///
/// Those of `run`: then nothing was written. `Write` comes where the writer failed, or took nothing.
pub fn picture<
    V: View,
    F: Fn(Global, &Checked) -> Result<Views<V>, BuildFault>,
    R: Reader,
    W: Writer,
>(alloc: Global, desc: &[u8], script: &mut R, make: &F, out: &mut W) -> Result<(), RunFault>
    requires { F.IsAlwaysCallable make.now }
    ensures { PicturesTo (IsMismade (Makes F.Fn make.now) V.meaning) desc.now
        (R.seen script.old) (R.seen script.new) (W.seen out.old) (W.seen out.new) result }
{
    let mut nowhere = Nowhere;
    let session = run(alloc, desc, script, make, &mut nowhere)?;
    match write_svg(session.screen(), out) {
        Ok(()) => Ok(()),
        Err(_) => Err(RunFault::Write),
    }
}
