//! A description, filled with what a log answers.

ghost use Rattle.std.specs.Prelude.{◌≡◌, IfErr, IfOk};
ghost use Rattle.tv_answers.specs.declared.misfit.MisfitKind.TheVariants.{NoDialog, NoEnd, NoField, NoValue};
ghost use Rattle.tv_answers.specs.Misfits.{kind_text, misfit_text};
ghost use Rattle.tv_io.specs.Pen.{Puts};
ghost use Rattle.tv_lang.specs.CanonicalDescription.{CanBeSpelled};
ghost use Rattle.tv_program.specs.Filling.{FillsTo, RefusesSound, misfit_message, misfit_messages};
ghost use Rattle.tv_program.specs.Reading.{IsSoundText};
ghost use Rattle.tv_program.specs.Report.{IsOffered};

use crate::fill_fault::FillFault;
use std::alloc::Global;
use tv_answers::{Misfit, MisfitKind, filled, read_answers};
use tv_check::faults;
use tv_event::Command;
use tv_io::{Pen, Writer, write_all};
use tv_lang::{parse, print};
use tv_model::Desc;
use tv_script::end_word;
use tv_valid::Chars;

/// A log that answers, and the name under which what doesn't fit in it is told.
#[derive(Clone, Copy)]
pub struct NamedLog<'a> {
    pub name: &'a str,
    pub text: &'a [u8],
}

/// Reads the description that a text spells, where it has no faults.
pub fn read_sound(alloc: Global, text: &[u8]) -> Result<Desc, FillFault>
    ensures sound { IfOk result (λ desc. IsSoundText text.now desc) }
    ensures fault { IfErr result (λ fault. RefusesSound text.now fault) }
{
    let desc = parse(alloc, text)?;
    let list = faults(alloc, &desc)?;
    if list.as_slice().is_empty() {
        Ok(desc)
    } else {
        Err(FillFault::Faults(list))
    }
}

/// Writes the canonical text of a description, its fields beginning with what a log answers. Tells what doesn't fit on
/// `told`, under the name of the log.
///
/// Nothing is written where the filled description isn't sound.
pub fn fill_text<W: Writer, E: Writer>(
    alloc: Global,
    desc: Desc,
    log: NamedLog<'_>,
    out: &mut W,
    told: &mut E,
) -> Result<(), FillFault>
    ensures { CanBeSpelled desc → FillsTo log.entry.name.now desc log.entry.text.now
        (record { out = W.seen out.old; told = E.seen told.old })
        (record { out = W.seen out.new; told = E.seen told.new }) result }
{
    let read = read_answers(alloc, &desc, log.text)?;
    let full = filled(alloc, desc, &read)?;
    let printed = print(alloc, &full)?;
    read_sound(alloc, printed.as_bytes())?;
    tell_misfits(read.misfits.as_slice(), log.name, told);
    write_all(out, printed.as_bytes())?;
    Ok(())
}

/// Tells what doesn't fit.
pub(crate) fn tell_misfits<E: Writer>(misfits: &[Misfit], name: &str, told: &mut E)
    ensures { IsOffered (E.seen told.old) (E.seen told.new) (misfit_messages name.now misfits.now) }
{
    let mut pen = Pen {
        out: told,
        stopped: false,
    };
    put_misfits(&mut pen, name.as_bytes(), misfits);
}

fn put_misfits<E: Writer>(pen: &mut Pen<E>, name: &[u8], misfits: &[Misfit])
    ensures { Puts E.seen pen.old pen.new (misfit_messages name.now misfits.now) }
{
    for misfit in misfits {
        put_misfit(pen, name, misfit);
    }
}

fn put_misfit<E: Writer>(pen: &mut Pen<E>, name: &[u8], misfit: &Misfit)
    ensures { Puts E.seen pen.old pen.new (misfit_message name.now misfit.now) }
{
    pen.put(b"tvdlg: ");
    pen.put(name);
    pen.put(b": ");
    put_text(pen, misfit);
    pen.put(b"\n");
}

fn put_text<E: Writer>(pen: &mut Pen<E>, misfit: &Misfit)
    ensures { Puts E.seen pen.old pen.new (misfit_text misfit.now) }
{
    put_kind(pen, &misfit.kind);
    pen.put(b" at line ");
    pen.put_place(misfit.line);
}

fn put_kind<E: Writer>(pen: &mut Pen<E>, kind: &MisfitKind)
    ensures { Puts E.seen pen.old pen.new (kind_text kind.now) }
{
    match kind {
        MisfitKind::NoDialog(name) => put_no_dialog(pen, name),
        MisfitKind::NoEnd(dialog, command) => put_no_end(pen, dialog, *command),
        MisfitKind::NoField(dialog, field) => put_no_field(pen, dialog, field),
        MisfitKind::NoValue(dialog, field) => put_no_value(pen, dialog, field),
    }
}

fn put_no_dialog<E: Writer>(pen: &mut Pen<E>, name: &Chars)
    ensures { Puts E.seen pen.old pen.new (kind_text (NoDialog name.now)) }
{
    pen.put(b"no dialog ");
    pen.put_chars(name.as_slice());
}

fn put_no_end<E: Writer>(pen: &mut Pen<E>, dialog: &Chars, command: Command)
    ensures { Puts E.seen pen.old pen.new (kind_text (NoEnd dialog.now command)) }
{
    pen.put(end_word(command));
    pen.put(b" of ");
    pen.put_chars(dialog.as_slice());
    pen.put(b" can't be so");
}

fn put_no_field<E: Writer>(pen: &mut Pen<E>, dialog: &Chars, field: &Chars)
    ensures { Puts E.seen pen.old pen.new (kind_text (NoField dialog.now field.now)) }
{
    pen.put(b"no field ");
    pen.put_chars(field.as_slice());
    pen.put(b" in ");
    pen.put_chars(dialog.as_slice());
}

fn put_no_value<E: Writer>(pen: &mut Pen<E>, dialog: &Chars, field: &Chars)
    ensures { Puts E.seen pen.old pen.new (kind_text (NoValue dialog.now field.now)) }
{
    pen.put_chars(field.as_slice());
    pen.put(b" of ");
    pen.put_chars(dialog.as_slice());
    pen.put(b" can't be so");
}
