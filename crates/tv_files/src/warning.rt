//! What a user is warned of in a description.

ghost use Rattle.std.specs.Prelude.{◌≡◌, ◌≤◌, length};
ghost use Rattle.tv_app.specs.Opening.{IsSpelledSound};
ghost use Rattle.tv_files.specs.Ends.{done_in, end_of};
ghost use Rattle.tv_files.specs.Warning.{WarnsFile, WarnsOf, WarnsTo, how_warned};

use crate::explaining::explain;
use crate::failure::Failure;
use crate::file_store::FileStore;
use crate::tasks::read_file;
use crate::{Done, Inquiry};
use std::alloc::Global;
use tv_io::{Writer, write_all};
use tv_model::Desc;
use tv_program::Trouble;
use tv_warnings::warn;

/// Writes what there is to warn of in the description in a file.
///
/// A description with faults is told of as `explain_file` does. Where warnings are denied, one counts as a fault.
pub fn warn_file<'a, F: FileStore, W: Writer>(
    files: &mut F,
    alloc: Global,
    inquiry: Inquiry<'a>,
    denies: bool,
    out: &mut W,
) -> Result<Done, Failure<'a>>
    ensures { WarnsFile inquiry.entry.manner denies (F.known files.old) (F.known files.new) inquiry.entry.file.now
        (W.seen out.old) (W.seen out.new) (done_in result) (end_of result) }
{
    let text = read_file(files, alloc, inquiry.file)?;
    match tell_warnings(alloc, inquiry, text.as_slice(), denies, out) {
        Ok(done) => Ok(done),
        Err(fault) => Err(Failure::new(inquiry.file, inquiry.file, fault)),
    }
}

// Writes this, or what there is to tell of faults.
fn tell_warnings<W: Writer>(
    alloc: Global,
    inquiry: Inquiry<'_>,
    text: &[u8],
    denies: bool,
    out: &mut W,
) -> Result<Done, Trouble>
    ensures { WarnsTo inquiry.entry.manner denies inquiry.entry.file.now text.now (W.seen out.old) (W.seen out.new) result }
{
    match explain(alloc, inquiry, text, out)? {
        Some(desc) => {
            let is_any = write_warnings(alloc, inquiry, text, &desc, out)?;
            Ok(how_warned(denies, is_any))
        }
        None => Ok(Done::Faulty),
    }
}

// How the task was done: where warnings are denied, one counts as a fault.
fn how_warned(denies: bool, is_any: bool) -> Done
    ensures { result ≡ how_warned denies is_any }
{
    if is_any && denies {
        Done::Faulty
    } else {
        Done::Whole
    }
}

// Writes what there is to warn of in a sound description. Returns whether there is a warning.
fn write_warnings<W: Writer>(
    alloc: Global,
    inquiry: Inquiry<'_>,
    text: &[u8],
    desc: &Desc,
    out: &mut W,
) -> Result<bool, Trouble>
    requires spelled { IsSpelledSound text.now desc.now }
    requires few { length text.now ≤ 262144 }
    ensures { WarnsOf inquiry.entry.manner inquiry.entry.file.now text.now desc.now (W.seen out.old) (W.seen out.new) result }
{
    let warned = warn(alloc, inquiry.manner, inquiry.file, text, desc)?;
    match write_all(out, warned.report.as_bytes()) {
        Ok(()) => Ok(warned.is_any),
        Err(_) => Err(Trouble::Write),
    }
}
