//! The words of a command line, from bytes.

ghost use Rattle.tv_memory.specs.Words.{ReadsWords};

use std::alloc::{AllocError, Global};
use tv_files::NoTask;

/// The word that stands first, as the program's name does on a command line.
const PROGRAM: &str = "tvdlg";

/// Reads the words behind the program's name, each of which ends with a NUL. Bytes that aren't UTF-8 are a bare usage fault.
pub fn words_in(alloc: Global, bytes: &[u8]) -> Result<Vec<String>, NoTask>
    ensures { ReadsWords bytes.now result }
{
    match str::from_utf8(bytes) {
        Ok(text) => Ok(split(alloc, text)?),
        Err(_) => Err(NoTask::Usage(String::new(alloc))),
    }
}

fn split(alloc: Global, text: &str) -> Result<Vec<String>, AllocError> {
    let mut words = Vec::new(alloc);
    words.push(String::from_str(alloc, PROGRAM)?)?;
    for word in text.split_terminator('\0') {
        words.push(String::from_str(alloc, word)?)?;
    }
    Ok(words)
}
