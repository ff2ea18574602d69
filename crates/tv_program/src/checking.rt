//! Descriptions checked, and certificates accepted.

ghost use Rattle.std.specs.Prelude.{ℕ, List};
ghost use Rattle.tv_lang.specs.CanonicalDescription.{CanBeSpelled};
ghost use Rattle.tv_lang.specs.Faults.{Spells};
ghost use Rattle.tv_program.specs.CheckRun.{AcceptsTo, ChecksTo};

use crate::accept_fault::AcceptFault;
use crate::check_fault::CheckFault;
use std::alloc::Global;
use tv_check::{Certificate, accept, examine};
use tv_io::{Writer, write_all};
use tv_lang::parse;
use tv_model::Desc;

/// Writes the certificate of a description that has no faults.
///
/// Faults come as an error, and nothing is written then.
pub fn check<W: Writer>(alloc: Global, text: &[u8], out: &mut W) -> Result<(), CheckFault>
    ensures { ChecksTo text.now (W.seen out.old) (W.seen out.new) result }
{
    let desc = parse(alloc, text)?;
    let checked = examine(alloc, desc)?;
    let certificate = checked.certificate(alloc)?;
    let printed = certificate.print(alloc)?;
    write_all(out, printed.as_bytes())?;
    Ok(())
}

/// Writes `accepted` where the description is sound and the certificate is sound for it.
///
/// The description is read first, then the certificate; faults and differences are looked for after both.
pub fn accept_files<W: Writer>(
    alloc: Global,
    desc: &[u8],
    certificate: &[u8],
    out: &mut W,
) -> Result<(), AcceptFault>
    ensures { AcceptsTo desc.now certificate.now (W.seen out.old) (W.seen out.new) result }
{
    let desc = parse(alloc, desc)?;
    accept_text(alloc, desc, certificate, out)
}

/// Writes `accepted` where a description that was read is sound, and the certificate is sound for it.
///
/// So a caller can look for the certificate once the description is read. The outcome is that of `accept_files` on both.
pub fn accept_text<W: Writer>(
    alloc: Global,
    desc: Desc,
    certificate: &[u8],
    out: &mut W,
) -> Result<(), AcceptFault>
    requires { CanBeSpelled desc }
    ensures { (text : List ℕ) → Spells text desc → AcceptsTo text certificate.now (W.seen out.old) (W.seen out.new) result }
{
    let certificate = Certificate::read(alloc, certificate)?;
    if let Err((refusal, _)) = accept(alloc, desc, &certificate) {
        return Err(AcceptFault::from(refusal));
    }
    write_all(out, b"accepted\n")?;
    Ok(())
}
