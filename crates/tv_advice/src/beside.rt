//! All that there is to tell of a text beside a description: a script, or a certificate.

ghost use Rattle.std.specs.Prelude.{◌≡◌, IfOk, string_bytes};
ghost use Rattle.tv_lang.specs.CanonicalDescription.{CanBeSpelled};
ghost use Rattle.tv_advice.specs.Beside.{IsCompared, IsToldBeside, IsToldOfCertificate, IsToldOfScript};
ghost use Rattle.tv_advice.specs.Blocks.{IsBlockAt, off_screen};
ghost use Rattle.tv_script.specs.Scripts.{RefusesScript};

use crate::beginning::is_certificate;
use crate::forms::Language;
use crate::manner::Manner;
use crate::report::unread_block;
use crate::source::Source;
use crate::spans::lines_of;
use crate::unread::explain_point;
use crate::whole::unread_report;
use std::alloc::{AllocError, Global};
use tv_check::{Certificate, CertificateFault, Refusal, accept};
use tv_model::Desc;
use tv_script::{ScriptFault, parse_items};

/// What there is to tell of a text beside a description.
#[derive(Debug, Drop)]
pub enum Beside {
    /// Nothing: it is a script for the description's screen, or the description's certificate.
    Fine,
    /// Why a line can't be read, or lies off the screen.
    Faulty(String),
    /// It is a script with too many bytes or items.
    LongScript,
    /// It is a certificate with too many bytes.
    LongCertificate,
    /// It is a certificate, but not the description's.
    Refused(Refusal),
}

/// Tells what a script in the file of this name, whose text is this, or a certificate, has of faults beside a sound description.
pub fn tell_beside(
    alloc: Global,
    manner: Manner,
    name: &str,
    desc: Desc,
    text: &[u8],
) -> Result<Beside, AllocError>
    requires { CanBeSpelled desc }
    ensures { IfOk result (IsToldBeside manner name.now desc text.now) }
{
    let source = Source { manner, name, text };
    if is_certificate(alloc, text)? {
        tell_certificate(alloc, &source, desc)
    } else {
        tell_script(alloc, &source, &desc)
    }
}

// What there is to tell of a certificate.
fn tell_certificate(alloc: Global, source: &Source, desc: Desc) -> Result<Beside, AllocError>
    requires { CanBeSpelled desc }
    ensures { IfOk result (IsToldOfCertificate source.now.manner source.now.name.now desc source.now.text.now) }
{
    match Certificate::read(alloc, source.text) {
        Ok(certificate) => compare(alloc, desc, &certificate),
        Err(CertificateFault::Syntax(line)) => Ok(Beside::Faulty(unread_report(
            alloc,
            source,
            Language::Certificate,
            line,
        )?)),
        Err(CertificateFault::TooLong) => Ok(Beside::LongCertificate),
        Err(CertificateFault::NoMemory) => Err(AllocError),
    }
}

// Whether a certificate is the description's.
fn compare(alloc: Global, desc: Desc, certificate: &Certificate) -> Result<Beside, AllocError>
    requires { CanBeSpelled desc }
    ensures { IfOk result (IsCompared desc certificate.now) }
{
    match accept(alloc, desc, certificate) {
        Ok(_) => Ok(Beside::Fine),
        Err((Refusal::NoMemory, _)) => Err(AllocError),
        Err((refusal, _)) => Ok(Beside::Refused(refusal)),
    }
}

// What there is to tell of a script for the description's screen.
fn tell_script(alloc: Global, source: &Source, desc: &Desc) -> Result<Beside, AllocError>
    ensures { IfOk result (IsToldOfScript source.now.manner source.now.name.now desc.now.width desc.now.height source.now.text.now) }
{
    tell_script_on(alloc, source, desc.width, desc.height)
}

// What there is to tell of a script for a screen of so many columns and rows.
fn tell_script_on(
    alloc: Global,
    source: &Source,
    width: i32,
    height: i32,
) -> Result<Beside, AllocError>
    ensures { IfOk result (IsToldOfScript source.now.manner source.now.name.now width height source.now.text.now) }
{
    match parse_items(alloc, source.text, width, height) {
        Ok(_) => Ok(Beside::Fine),
        Err(fault) => tell_unread_script(alloc, source, fault, width, height),
    }
}

// Why a script was refused for a screen of so many columns and rows.
fn tell_unread_script(
    alloc: Global,
    source: &Source,
    fault: ScriptFault,
    width: i32,
    height: i32,
) -> Result<Beside, AllocError>
    ensures { RefusesScript width height source.now.text.now fault
        → IfOk result (IsToldOfScript source.now.manner source.now.name.now width height source.now.text.now) }
{
    match fault {
        ScriptFault::Syntax(line) => Ok(Beside::Faulty(unread_report(
            alloc,
            source,
            Language::Script,
            line,
        )?)),
        ScriptFault::OffScreen(line) => Ok(Beside::Faulty(point_report(
            alloc, source, line, width, height,
        )?)),
        ScriptFault::TooLong => Ok(Beside::LongScript),
        ScriptFault::NoMemory => Err(AllocError),
    }
}

// Writes why the point of the line of this number is off the screen.
fn point_report(
    alloc: Global,
    source: &Source,
    line: usize,
    width: i32,
    height: i32,
) -> Result<String, AllocError>
    ensures { IfOk result (λ report. IsBlockAt source.now.manner source.now.name.now line off_screen (string_bytes report)) }
{
    let lines = lines_of(alloc, source.text)?;
    let unread = explain_point(alloc, source.text, line, width, height)?;
    unread_block(alloc, source, &lines, "off screen", &unread)
}
