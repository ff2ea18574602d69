//! What writing the description of a box comes to.

ghost use Rattle.std.specs.Prelude.{◌≡◌, [], map, string_bytes};
ghost use Rattle.tv_files.specs.Boxes.{WritesBox};
ghost use Rattle.tv_files.specs.Ends.{end_of, end_of_failure};
ghost use Rattle.tv_files.specs.Ends.End.{faulted};

use crate::failure::Failure;
use std::alloc::Global;
use tv_boxes::{Refusal, box_text};
use tv_io::{Writer, write_all};
use tv_program::Trouble;

/// Writes the description of the box that these arguments of `dialog` ask for.
pub fn write_box<'a, W: Writer>(
    alloc: Global,
    words: &[String],
    out: &mut W,
) -> Result<(), Failure<'a>>
    ensures { WritesBox (map string_bytes words.now) (W.seen out.old) (W.seen out.new) (end_of result) }
{
    match box_text(alloc, words) {
        Ok(text) => match write_all(out, text.as_bytes()) {
            Ok(()) => Ok(()),
            Err(_) => Err(outside(Trouble::Write)),
        },
        Err(Refusal::NoMemory) => Err(outside(Trouble::NoMemory)),
        Err(Refusal::Told(message)) => Err(Failure::Box { message }),
    }
}

// A fault that no file has.
fn outside<'a>(fault: Trouble) -> Failure<'a>
    ensures { end_of_failure result ≡ faulted fault [] }
{
    Failure::Fault { fault, path: "" }
}
