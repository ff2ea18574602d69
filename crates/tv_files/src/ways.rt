//! What a user is told of the ends and the controls of a description that users reach, and of those that they don't.

ghost use Rattle.tv_app.specs.Opening.{IsSpelledSound};
ghost use Rattle.tv_files.specs.Ends.{done_in, end_of};
ghost use Rattle.tv_files.specs.Ways.{WaysFile, WaysTo, WritesWays};

use crate::explaining::explain;
use crate::failure::Failure;
use crate::file_store::FileStore;
use crate::tasks::read_file;
use crate::{Done, Inquiry};
use std::alloc::Global;
use tv_advice::Manner;
use tv_io::{Pen, Writer};
use tv_model::Desc;
use tv_program::Trouble;
use tv_ways::{all_ways, put_ways};

/// Writes a line for each end and each control of each dialog of the description in a file: a way to it, or why there is none.
///
/// A description with faults is told of as `explain_file` does.
pub fn ways_file<'a, F: FileStore, W: Writer>(
    files: &mut F,
    alloc: Global,
    file: &'a str,
    out: &mut W,
) -> Result<Done, Failure<'a>>
    ensures { WaysFile (F.known files.old) (F.known files.new) file.now (W.seen out.old) (W.seen out.new)
        (done_in result) (end_of result) }
{
    let text = read_file(files, alloc, file)?;
    match tell_ways(alloc, file, text.as_slice(), out) {
        Ok(done) => Ok(done),
        Err(fault) => Err(Failure::new(file, file, fault)),
    }
}

// Writes these lines, or what there is to tell of faults.
fn tell_ways<W: Writer>(
    alloc: Global,
    name: &str,
    text: &[u8],
    out: &mut W,
) -> Result<Done, Trouble>
    ensures { WaysTo name.now text.now (W.seen out.old) (W.seen out.new) result }
{
    let inquiry = Inquiry {
        file: name,
        manner: Manner::Plain,
    };
    match explain(alloc, inquiry, text, out)? {
        Some(desc) => {
            write_ways(alloc, text, &desc, out)?;
            Ok(Done::Whole)
        }
        None => Ok(Done::Faulty),
    }
}

// Writes these lines of a sound description.
fn write_ways<W: Writer>(
    alloc: Global,
    text: &[u8],
    desc: &Desc,
    out: &mut W,
) -> Result<(), Trouble>
    requires { IsSpelledSound text.now desc.now }
    ensures { WritesWays desc.now (W.seen out.old) (W.seen out.new) result }
{
    let all = all_ways(alloc, text, desc)?;
    let mut pen = Pen {
        out,
        stopped: false,
    };
    put_ways(&mut pen, desc, &all);
    if pen.stopped {
        Err(Trouble::Write)
    } else {
        Ok(())
    }
}
