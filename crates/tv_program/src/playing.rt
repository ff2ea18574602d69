//! A script performed on a description, as it comes.

ghost use Rattle.std.specs.Prelude.{IfErr, IfOk, List, ℕ};
ghost use Rattle.tv_machine.specs.Run.{started};
ghost use Rattle.tv_program.specs.Playing.{IsLawfulText, IsMismade, IsNoStart, Makes, RefusesDesc, RunsTo};
ghost use Rattle.tv_program.specs.Reading.{IsSoundText};
ghost use Rattle.tv_session.specs.Session.{StandsFor};

use crate::run_fault::RunFault;
use std::alloc::Global;
use tv_check::{Checked, examine};
use tv_io::{Reader, Writer};
use tv_lang::parse;
use tv_script::perform_from;
use tv_session::{BuildFault, SessionOf, Views, parts_are_lawful};
use tv_view::View;

/// Runs a script on a description through views that are made for it, as the script's bytes come. Writes the log and the
/// screens that it asks for, and hands back the session as the script left it.
///
/// The description is read first, then its faults are looked for, then the views are made and the session is begun; nothing
/// is written, and nothing of the script is read, before all of them have passed. Then the log is written, and each line of
/// the script is performed as soon as its end has come, or the reader is at its end. What was written is passed on before
/// each read.
///
/// # Errors
///
/// The first that comes of these.
///
/// - `Lang`, `Faults`: of the description.
/// - `View`: the views aren't as the description declares them.
/// - `Script`: of the script's first faulty line, or with a byte too many.
/// - `Read`, `Write`: the reader or the writer failed.
/// - `NoMemory`: nothing of the script was read, and no more than the log was written.
///
/// With `Script` and `Read` the lines before were performed, and their output was written, whole.
pub fn run<V: View, F: Fn(Global, &Checked) -> Result<Views<V>, BuildFault>, R: Reader, W: Writer>(
    alloc: Global,
    desc: &[u8],
    script: &mut R,
    make: &F,
    out: &mut W,
) -> Result<SessionOf<V>, RunFault>
    requires { F.IsAlwaysCallable make.now }
    ensures output { RunsTo (IsMismade (Makes F.Fn make.now) V.meaning) (λ session s. StandsFor V.meaning session s) desc.now
        (R.seen script.old) (R.seen script.new) (W.seen out.old) (W.seen out.new) result }
    ensures laws { IsLawfulText desc.now }
{
    let checked = read_checked(alloc, desc)?;
    run_from(alloc, checked, script, make, out)
}

/// Runs a script on a description that was read by `read_checked`. The run is that of `run` on the description's text.
///
/// So a caller can look at a description before it opens the script.
pub fn run_from<
    V: View,
    F: Fn(Global, &Checked) -> Result<Views<V>, BuildFault>,
    R: Reader,
    W: Writer,
>(
    alloc: Global,
    checked: Checked,
    script: &mut R,
    make: &F,
    out: &mut W,
) -> Result<SessionOf<V>, RunFault>
    requires { F.IsAlwaysCallable make.now }
    ensures { (text : List ℕ) → IsSoundText text checked
        → RunsTo (IsMismade (Makes F.Fn make.now) V.meaning) (λ session s. StandsFor V.meaning session s) text
        (R.seen script.old) (R.seen script.new) (W.seen out.old) (W.seen out.new) result }
{
    parts_are_lawful(checked.desc());
    let mut session = begin(alloc, checked, make)?;
    perform_from(alloc, &mut session, script, out)?;
    Ok(session)
}

/// Reads the description that a text spells, where it has no faults.
///
/// The errors are those of the text, then its faults.
pub fn read_checked(alloc: Global, text: &[u8]) -> Result<Checked, RunFault>
    ensures sound { IfOk result (λ checked. IsSoundText text.now checked) }
    ensures fault { IfErr result (λ fault. RefusesDesc text.now fault) }
{
    let desc = parse(alloc, text)?;
    Ok(examine(alloc, desc)?)
}

/// Begins a run through the views that are made for the description.
pub(crate) fn begin<V: View, F: Fn(Global, &Checked) -> Result<Views<V>, BuildFault>>(
    alloc: Global,
    checked: Checked,
    make: &F,
) -> Result<SessionOf<V>, RunFault>
    requires { F.IsAlwaysCallable make.now }
    ensures start { IfOk result (λ session. StandsFor V.meaning session (started checked)) }
    ensures fault { IfErr result (λ fault. IsNoStart (IsMismade (Makes F.Fn make.now) V.meaning) checked fault) }
{
    let views = make(alloc, &checked)?;
    match SessionOf::new(alloc, checked, views.windows, views.bodies) {
        Ok(session) => Ok(session),
        Err(refused) => Err(RunFault::from(refused.fault)),
    }
}
