//! Dialogs that are given the ends that a log answers.

ghost use Rattle.std.specs.Prelude.{◌≡◌, ◌++◌, false, string_bytes, zip, filter_map, All, IfErr, IfOk, List, ℕ};
ghost use Rattle.tv_io.specs.Pen.{Puts};
ghost use Rattle.tv_machine.specs.Run.{Session, commanded, quiet, started};
ghost use Rattle.tv_machine.specs.Session.Step.{takes_command};
ghost use Rattle.tv_lang.specs.CanonicalDescription.{CanBeSpelled};
ghost use Rattle.tv_program.specs.Answering.{AnswersTo, AreRuns, BeginsAlike, IsUnbegun, RefusesRun, begun_text, begun_with, ending_of, logged, run_log, runs_log};
ghost use Rattle.tv_program.specs.AnswerRuns.{AllEndBy, EndsAll, EndsBy, StandsBegun, outcome_of, run_of, runs_of};
ghost use Rattle.tv_program.specs.Playing.{IsMismade, Makes};
ghost use Rattle.tv_program.specs.Reading.{IsSoundText};
ghost use Rattle.tv_session.specs.Session.{StandsFor};

use crate::answer_fault::{AnswerFault, Ending};
use crate::filling::{NamedLog, tell_misfits};
use crate::playing::{begin, read_checked};
use crate::run_fault::RunFault;
use std::alloc::{AllocError, Global};
use tv_answers::{Answer, filled, read_answers};
use tv_check::Checked;
use tv_event::Command;
use tv_io::{Pen, Writer};
use tv_lang::print;
use tv_model::{Desc, Dialog};
use tv_script::put_waiting_log;
use tv_session::{BuildFault, SessionOf, Views};
use tv_valid::Chars;
use tv_view::View;

/// Gives each dialog that a log answers its end, and writes the logs of that: what a user would leave who opens the dialog
/// with these answers in its fields and ends it so. Each dialog has a run of its own, in description order, with the dialog
/// open at the start, so it needs no command that opens it.
///
/// All runs are begun before anything is written. What doesn't fit is told on `told`, under the name of the log.
///
/// # Errors
///
/// - `Answers`, `Run`, `NoAnswers`: nothing was written.
/// - `Misfits`: some lines of the log don't fit the description, which was told. Nothing was written.
/// - `Disabled`, `Refused`: this dialog didn't end. The logs up to there were written; the dialogs after it weren't run.
/// - `Write`: the writer failed.
pub fn answer_text<
    V: View,
    F: Fn(Global, &Checked) -> Result<Views<V>, BuildFault>,
    W: Writer,
    E: Writer,
>(
    alloc: Global,
    desc: Desc,
    log: NamedLog<'_>,
    make: &F,
    out: &mut W,
    told: &mut E,
) -> Result<(), AnswerFault>
    requires { F.IsAlwaysCallable make.now }
    ensures { AnswersTo (IsMismade (Makes F.Fn make.now) V.meaning) log.entry.name.now desc log.entry.text.now
        (record { out = W.seen out.old; told = E.seen told.old })
        (record { out = W.seen out.new; told = E.seen told.new }) result }
{
    let read = read_answers(alloc, &desc, log.text)?;
    let misfits = read.misfits.as_slice();
    if !misfits.is_empty() {
        tell_misfits(misfits, log.name, told);
        return Err(AnswerFault::Misfits);
    }
    let endings = endings_of(alloc, desc.dialogs.as_slice(), read.dialogs.as_slice())?;
    if endings.is_empty() {
        return Err(AnswerFault::NoAnswers);
    }
    let full = filled(alloc, desc, &read)?;
    let runs = begin_runs(alloc, full, endings, make)?;
    end_dialogs(runs, out)
}

/// A theorem, as a function without a body: what the text of a description with a dialog open spells is that description with
/// the dialog open, but for the numbers of lines. So each run of `answer_text` is one of the filled description.
pub fn begun_texts_are_alike(_desc: &Desc)
    requires { CanBeSpelled _desc.now }
    ensures { BeginsAlike _desc.now }
{}

// The end that a dialog is given, if it is answered.
fn ending_of(alloc: Global, dialog: &Dialog, answer: &Answer) -> Result<Option<Ending>, AllocError>
    ensures { IfOk result (λ ending. ending ≡ ending_of (dialog.now, answer.now)) }
{
    let Some(command) = answer.command else {
        return Ok(None);
    };
    let dialog = dialog.head().name.copy(alloc)?;
    Ok(Some(Ending { dialog, command }))
}

// The ends of all answered dialogs, in their order.
fn endings_of(
    alloc: Global,
    dialogs: &[Dialog],
    answers: &[Answer],
) -> Result<Vec<Ending>, AllocError>
    ensures { IfOk result (λ endings. endings.items ≡ filter_map ending_of (zip dialogs.now answers.now)) }
{
    let mut endings = Vec::new(alloc);
    for (dialog, answer) in dialogs.iter().zip(answers.iter()) {
        if let Some(ending) = ending_of(alloc, dialog, answer)? {
            endings.push(ending)?;
        }
    }
    Ok(endings)
}

/// A run that is begun with a dialog open, and the end that the dialog is given.
#[derive(Drop)]
struct BegunRun<V> {
    ending: Ending,
    session: SessionOf<V>,
}

// The text of the description, with the dialog of a name open at the start.
fn begun_text(alloc: Global, desc: &mut Desc, dialog: &Chars) -> Result<String, AllocError>
    ensures same { (name : List ℕ) → begun_with desc.new name ≡ begun_with desc.old name }
    ensures text { IfOk result (λ text. string_bytes text ≡ begun_text desc.old dialog.now) }
{
    desc.start = Some(dialog.copy(alloc)?);
    print(alloc, desc)
}

// Begins a run of the description with the dialog of a name open.
fn begin_run<V: View, F: Fn(Global, &Checked) -> Result<Views<V>, BuildFault>>(
    alloc: Global,
    desc: &mut Desc,
    dialog: &Chars,
    make: &F,
) -> Result<SessionOf<V>, RunFault>
    requires { F.IsAlwaysCallable make.now }
    ensures same { (name : List ℕ) → begun_with desc.new name ≡ begun_with desc.old name }
    ensures sound { IfOk result (λ session. IsSoundText (begun_text desc.old dialog.now) session.checked) }
    ensures start { IfOk result (λ session. StandsFor V.meaning session (started session.checked)) }
    ensures fault { IfErr result (λ fault. RefusesRun (IsMismade (Makes F.Fn make.now) V.meaning)
        (begun_text desc.old dialog.now) fault) }
{
    let text = begun_text(alloc, desc, dialog)?;
    let checked = read_checked(alloc, text.as_bytes())?;
    begin(alloc, checked, make)
}

// Begins a run of the description for each of the ends.
fn begin_runs<V: View, F: Fn(Global, &Checked) -> Result<Views<V>, BuildFault>>(
    alloc: Global,
    desc: Desc,
    endings: Vec<Ending>,
    make: &F,
) -> Result<Vec<BegunRun<V>>, RunFault>
    requires { F.IsAlwaysCallable make.now }
    ensures runs { IfOk result (λ runs. AreRuns desc endings.items (runs_of runs.items)) }
    ensures stand { IfOk result (λ runs. All (StandsBegun V.meaning) runs.items) }
    ensures fault { IfErr result (λ fault. IsUnbegun (IsMismade (Makes F.Fn make.now) V.meaning) desc endings.items fault) }
{
    let mut desc = desc;
    let mut runs = Vec::new(alloc);
    for ending in endings {
        let session = begin_run(alloc, &mut desc, &ending.dialog, make)?;
        if runs.push(BegunRun { ending, session }).is_err() {
            return Err(RunFault::NoMemory);
        }
    }
    Ok(runs)
}

// Gives the dialogs their ends, up to the first that doesn't end, and writes the logs.
fn end_dialogs<V: View, W: Writer>(runs: Vec<BegunRun<V>>, out: &mut W) -> Result<(), AnswerFault>
    requires { All (StandsBegun V.meaning) runs.items }
    ensures { EndsAll (runs_of runs.items) (W.seen out.old) (W.seen out.new) result }
{
    let mut pen = Pen {
        out,
        stopped: false,
    };
    put_runs(&mut pen, runs)
}

fn put_runs<V: View, W: Writer>(pen: &mut Pen<W>, runs: Vec<BegunRun<V>>) -> Result<(), AnswerFault>
    requires going { pen.old.stopped ≡ false }
    requires stand { All (StandsBegun V.meaning) runs.items }
    ensures text { Puts W.seen pen.old pen.new (runs_log (runs_of runs.items)) }
    ensures comes { AllEndBy (runs_of runs.items) pen.new.stopped result }
{
    for begun in runs {
        put_run(pen, begun)?;
    }
    Ok(())
}

// Gives the open dialog its end, and writes the log of the start, and that of the end.
fn put_run<V: View, W: Writer>(pen: &mut Pen<W>, run: BegunRun<V>) -> Result<(), AnswerFault>
    requires going { pen.old.stopped ≡ false }
    requires stands { StandsBegun V.meaning run }
    ensures text { Puts W.seen pen.old pen.new (run_log (run_of run)) }
    ensures comes { EndsBy (run_of run) pen.new.stopped result }
{
    let BegunRun {
        ending,
        mut session,
    } = run;
    let allowed = put_end(pen, &mut session, ending.command);
    let is_open = session.focus().is_some();
    outcome(ending, allowed, is_open, pen.stopped)
}

// Writes the log that isn't yet taken, gives a command, and writes the log of that. Returns whether the command was taken.
fn put_end<V: View, W: Writer>(
    pen: &mut Pen<W>,
    session: &mut SessionOf<V>,
    command: Command,
) -> bool
    requires { (s : Session) × StandsFor V.meaning session.old s }
    ensures text { (s : Session) → StandsFor V.meaning session.old s
        → Puts W.seen pen.old pen.new (logged s ++ logged (commanded (quiet s) command)) }
    ensures stands { (s : Session) → StandsFor V.meaning session.old s
        → StandsFor V.meaning session.new (quiet (commanded (quiet s) command)) }
    ensures taken { (s : Session) → StandsFor V.meaning session.old s
        → result ≡ takes_command s.desc (quiet s).state command.0 }
{
    put_waiting_log(pen, session);
    let taken = session.command(command);
    put_waiting_log(pen, session);
    taken
}

// What giving an end comes to: whether the command was taken, the dialog is still open, and the writer failed.
fn outcome(ending: Ending, allowed: bool, is_open: bool, unwritten: bool) -> Result<(), AnswerFault>
    ensures { result ≡ outcome_of ending allowed is_open unwritten }
{
    if unwritten {
        Err(AnswerFault::Write)
    } else if !is_open {
        Ok(())
    } else if allowed {
        Err(AnswerFault::Refused(ending))
    } else {
        Err(AnswerFault::Disabled(ending))
    }
}
