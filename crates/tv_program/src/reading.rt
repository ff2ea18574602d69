//! A script, read to its end.

ghost use Rattle.tv_program.specs.Scripts.{ReadsScript};

use crate::run_fault::RunFault;
use std::alloc::Global;
use tv_io::{ReadFault, Reader, read_text};

/// The most bytes of a script.
const LONGEST: usize = 1_048_576;

/// Reads what a reader gives, up to its end or to one byte more than a script may have. Asks for no more.
pub(crate) fn read_script<R: Reader>(alloc: Global, reader: &mut R) -> Result<Vec<u8>, RunFault>
    ensures { ReadsScript (R.seen reader.old) (R.seen reader.new) result }
{
    match read_text(alloc, reader, LONGEST) {
        Ok(text) => Ok(text),
        Err(ReadFault::NoMemory) => Err(RunFault::NoMemory),
        Err(ReadFault::Read) => Err(RunFault::Read),
    }
}
