//! What a user is told of the faults of a description, and of a script or a certificate beside it.

ghost use Rattle.std.specs.Prelude.{◌≡◌};
ghost use Rattle.tv_files.specs.Ends.{done_in, end_of};
ghost use Rattle.tv_files.specs.Explaining.{ExplainsBesideTo, ExplainsFile, ExplainsFiles, ExplainsSecond, ExplainsTo};
ghost use Rattle.tv_files.specs.Explaining.{how_found};
ghost use Rattle.tv_lang.specs.CanonicalDescription.{CanBeSpelled};

use crate::failure::Failure;
use crate::file_store::FileStore;
use crate::tasks::{LONGEST, read_file};
use crate::{Done, Inquiry};
use std::alloc::Global;
use tv_advice::{Beside, Told, tell, tell_beside};
use tv_check::CertificateFault;
use tv_io::{Writer, write_all};
use tv_lang::LangFault;
use tv_model::Desc;
use tv_program::Trouble;
use tv_script::ScriptFault;

/// Writes what there is to tell of the faults of the description in a file, of lines that can't be read, or of its version.
///
/// A text that is too long is a failure, as it is for `check_file`.
pub fn explain_file<'a, F: FileStore, W: Writer>(
    files: &mut F,
    alloc: Global,
    inquiry: Inquiry<'a>,
    out: &mut W,
) -> Result<Done, Failure<'a>>
    ensures { ExplainsFile inquiry.entry.manner (F.known files.old) (F.known files.new)
        inquiry.entry.file.now (W.seen out.old) (W.seen out.new) (done_in result) (end_of result) }
{
    let text = read_file(files, alloc, inquiry.file)?;
    match explain(alloc, inquiry, text.as_slice(), out) {
        Ok(found) => Ok(how_found(&found)),
        Err(fault) => Err(Failure::new(inquiry.file, inquiry.file, fault)),
    }
}

/// Writes what there is to tell of the faults of a description, and where it has none, of those of the script or the certificate
/// in the file beside it.
///
/// The file beside it is looked for only once the description is found sound.
pub fn explain_files<'a, F: FileStore, W: Writer>(
    files: &mut F,
    alloc: Global,
    inquiry: Inquiry<'a>,
    beside: &'a str,
    out: &mut W,
) -> Result<Done, Failure<'a>>
    ensures { ExplainsFiles inquiry.entry.manner (F.known files.old) (F.known files.new)
        inquiry.entry.file.now beside.now (W.seen out.old) (W.seen out.new) (done_in result)
        (end_of result) }
{
    let text = read_file(files, alloc, inquiry.file)?;
    match explain(alloc, inquiry, text.as_slice(), out) {
        Ok(Some(desc)) => {
            let second = Inquiry {
                file: beside,
                manner: inquiry.manner,
            };
            explain_second(files, alloc, second, desc, out)
        }
        Ok(None) => Ok(Done::Faulty),
        Err(fault) => Err(Failure::new(inquiry.file, inquiry.file, fault)),
    }
}

// How the task was done where this was found: the description, if it is sound.
fn how_found(found: &Option<Desc>) -> Done
    ensures { result ≡ how_found found.now }
{
    match found {
        Some(_) => Done::Whole,
        None => Done::Faulty,
    }
}

// Writes what there is to tell of the text of a file. Returns the description that it spells where there is nothing.
pub(crate) fn explain<W: Writer>(
    alloc: Global,
    inquiry: Inquiry<'_>,
    text: &[u8],
    out: &mut W,
) -> Result<Option<Desc>, Trouble>
    ensures { ExplainsTo inquiry.entry.manner inquiry.entry.file.now text.now (W.seen out.old)
        (W.seen out.new) result }
{
    match tell(alloc, inquiry.manner, inquiry.file, text)? {
        Told::Sound(desc) => Ok(Some(desc)),
        Told::Faulty(report) => match write_all(out, report.as_bytes()) {
            Ok(()) => Ok(None),
            Err(_) => Err(Trouble::Write),
        },
        Told::TooLong => Err(Trouble::Lang(LangFault::TooLong)),
    }
}

// Writes what there is to tell of the file beside a sound description.
fn explain_second<'a, F: FileStore, W: Writer>(
    files: &mut F,
    alloc: Global,
    beside: Inquiry<'a>,
    desc: Desc,
    out: &mut W,
) -> Result<Done, Failure<'a>>
    requires { CanBeSpelled desc }
    ensures { ExplainsSecond beside.entry.manner desc (F.known files.old) (F.known files.new)
        beside.entry.file.now (W.seen out.old) (W.seen out.new) (done_in result) (end_of result) }
{
    let text = read_file(files, alloc, beside.file)?;
    match explain_beside(alloc, beside, desc, text.as_slice(), out) {
        Ok(done) => Ok(done),
        Err(fault) => Err(Failure::new(beside.file, beside.file, fault)),
    }
}

// Writes what there is to tell of the text of a file beside a description.
fn explain_beside<W: Writer>(
    alloc: Global,
    beside: Inquiry<'_>,
    desc: Desc,
    text: &[u8],
    out: &mut W,
) -> Result<Done, Trouble>
    requires { CanBeSpelled desc }
    ensures { ExplainsBesideTo beside.entry.manner beside.entry.file.now desc text.now (W.seen out.old)
        (W.seen out.new) result }
{
    if text.len() > LONGEST {
        return Err(Trouble::Script(ScriptFault::TooLong));
    }
    match tell_beside(alloc, beside.manner, beside.file, desc, text)? {
        Beside::Fine => Ok(Done::Whole),
        Beside::Faulty(report) => match write_all(out, report.as_bytes()) {
            Ok(()) => Ok(Done::Faulty),
            Err(_) => Err(Trouble::Write),
        },
        Beside::LongScript => Err(Trouble::Script(ScriptFault::TooLong)),
        Beside::LongCertificate => Err(Trouble::Cert(CertificateFault::TooLong)),
        Beside::Refused(refusal) => Err(Trouble::Refused(refusal)),
    }
}
