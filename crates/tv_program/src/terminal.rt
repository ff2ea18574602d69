//! A description played in a terminal.

ghost use Rattle.std.specs.Prelude.{List, ℕ};
ghost use Rattle.tv_program.specs.Playing.{IsLawfulText, IsMismade, Makes};
ghost use Rattle.tv_program.specs.Reading.{IsSoundText};
ghost use Rattle.tv_play.specs.Outputs.{HasSameOutputs, ports_with};
ghost use Rattle.tv_program.specs.Taped.{TapesRunAgain};
ghost use Rattle.tv_program.specs.Terminal.{PlaysText};

use crate::playing::{begin, read_checked};
use crate::run_fault::RunFault;
use std::alloc::Global;
use tv_check::Checked;
use tv_io::Writer;
use tv_play::{Outputs, Parting, Pieces};
use tv_session::{BuildFault, Views, parts_are_lawful};
use tv_view::View;

/// Plays a description in a terminal, through views that are made for it: takes what comes from the user in pieces, shows on the
/// outputs' `screen` what it leaves, in their `colours`, writes the log on `log`, and what the user did on `tape`, as a script. Tells
/// why it ended.
///
/// The description is read first, then its faults are looked for, then the views are made and the session is begun; nothing
/// is read or written before all of them have passed. What was written is passed on before each read.
///
/// `run` of the tape writes the log again, if it isn't too long for a script (`taped`).
///
/// # Errors
///
/// The first that comes of these.
///
/// - `Lang`, `Faults`: of the description.
/// - `View`: the views aren't as the description declares them.
/// - `NoMemory`: nothing was read or written.
/// - `Read`: what comes from the user can't be read. What came before was performed.
/// - `Write`, `Tape`: one of the writers failed, `Tape` that of the tape. The terminal is told to show its normal screen again, as far as it can be told.
///
/// It never answers `Script`.
pub fn play<
    V: View,
    F: Fn(Global, &Checked) -> Result<Views<V>, BuildFault>,
    P: Pieces,
    T: Writer,
    W: Writer,
    R: Writer,
>(
    alloc: Global,
    desc: &[u8],
    pieces: &mut P,
    make: &F,
    outputs: &mut Outputs<T, W, R>,
) -> Result<Parting, RunFault>
    requires { F.IsAlwaysCallable make.now }
    ensures same { HasSameOutputs outputs.old outputs.new }
    ensures output { PlaysText (IsMismade (Makes F.Fn make.now) V.meaning) outputs.old.colours desc.now
        (ports_with T.seen W.seen R.seen (P.heard pieces.old) outputs.old)
        (ports_with T.seen W.seen R.seen (P.heard pieces.new) outputs.new) result }
    ensures laws { IsLawfulText desc.now }
    ensures taped { TapesRunAgain desc.now }
{
    let checked = read_checked(alloc, desc)?;
    play_from(alloc, checked, pieces, make, outputs)
}

/// Plays a description that was read by `read_checked`. What comes of it is what comes of `play` on the description's text.
///
/// So a caller can look at a description before it touches the terminal.
pub fn play_from<
    V: View,
    F: Fn(Global, &Checked) -> Result<Views<V>, BuildFault>,
    P: Pieces,
    T: Writer,
    W: Writer,
    R: Writer,
>(
    alloc: Global,
    checked: Checked,
    pieces: &mut P,
    make: &F,
    outputs: &mut Outputs<T, W, R>,
) -> Result<Parting, RunFault>
    requires { F.IsAlwaysCallable make.now }
    ensures same { HasSameOutputs outputs.old outputs.new }
    ensures output { (text : List ℕ) → IsSoundText text checked
        → PlaysText (IsMismade (Makes F.Fn make.now) V.meaning) outputs.old.colours text
        (ports_with T.seen W.seen R.seen (P.heard pieces.old) outputs.old)
        (ports_with T.seen W.seen R.seen (P.heard pieces.new) outputs.new) result }
{
    parts_are_lawful(checked.desc());
    let mut session = begin(alloc, checked, make)?;
    Ok(tv_play::play(alloc, &mut session, pieces, outputs)?)
}
