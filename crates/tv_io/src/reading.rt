//! A text, read from a reader.

ghost use Rattle.tv_io.specs.Reading.{ReadsTo};

use crate::read_fault::ReadFault;
use crate::reader::Reader;
use std::alloc::Global;

/// The bytes that are asked for at once.
const PIECE: usize = 4096;

/// Reads what a reader gives, up to its end or to one byte more than `most`, which shows that there are too many. Asks for no
/// more.
///
/// # Errors
///
/// `Read` where a call of the reader failed, and `NoMemory`.
pub fn read_text<R: Reader>(
    alloc: Global,
    reader: &mut R,
    most: usize,
) -> Result<Vec<u8>, ReadFault>
    ensures { ReadsTo most (R.seen reader.old) (R.seen reader.new) result }
{
    let mut text = Vec::new(alloc);
    let mut buffer = [0u8; PIECE];
    while text.len() <= most {
        let room = &mut buffer[..PIECE.min((most - text.len()).saturating_add(1))];
        let Some(count) = reader.read(room) else {
            return Err(ReadFault::Read);
        };
        if count == 0 {
            return Ok(text);
        }
        text.extend_from_slice(&room[..count])?;
    }
    Ok(text)
}
