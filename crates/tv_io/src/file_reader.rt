//! A reader over a file, a pipe or a terminal.

ghost use Rattle.std.specs.Prelude.{◌≡◌, false};
ghost use Rattle.tv_io.specs.FileReader.{file_given};

use crate::reader::Reader;
use std::io::Read;

/// A reader of `std`, whose errors are counted. An interrupted read is an error like any other.
#[derive(Drop)]
pub struct FileReader<R: Read + Drop> {
    reader: R,
    failures: u64,
    is_ended: bool,
}

impl<R: Read + Drop> FileReader<R> {
    /// Makes one over the reader.
    pub fn new(reader: R) -> FileReader<R>
        ensures left { (file_given R.remaining result).left ≡ R.remaining reader }
        ensures count { (file_given R.remaining result).failures ≡ 0 }
        ensures going { (file_given R.remaining result).is_ended ≡ false }
    {
        FileReader {
            reader,
            failures: 0,
            is_ended: false,
        }
    }
}

impl<R: Read + Drop> Reader for FileReader<R> {
    ghost seen = { file_given R.remaining };

    fn read(&mut self, room: &mut [u8]) -> Option<usize> {
        match self.reader.read(room) {
            Ok(count) => {
                self.is_ended = count == 0;
                Some(count)
            }
            Err(_) => {
                self.is_ended = false;
                self.failures = self.failures.saturating_add(1);
                None
            }
        }
    }
}
