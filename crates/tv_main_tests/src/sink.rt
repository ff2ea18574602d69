//! What the program's streams stand over, in memory.

use std::alloc::Global;
use std::io;
use std::io::{ErrorKind, Write};

/// A writer that takes the bytes for which it has room, and fails from then on, or when it is flushed.
#[derive(Drop)]
pub struct Sink {
    taken: Vec<u8>,
    room: usize,
    flushes: bool,
}

impl Sink {
    /// With room for so many bytes.
    pub fn new(alloc: Global, room: usize, flushes: bool) -> Sink {
        Sink {
            taken: Vec::new(alloc),
            room,
            flushes,
        }
    }

    /// The bytes that it took.
    pub fn taken(&self) -> &[u8] {
        self.taken.as_slice()
    }
}

impl Write for Sink {
    fn write(&mut self, bytes: &[u8]) -> io::Result<usize> {
        let count = bytes.len().min(self.room);
        if count == 0 {
            return Err(io::Error::from(ErrorKind::StorageFull));
        }
        self.taken.extend_from_slice(&bytes[..count])?;
        self.room -= count;
        Ok(count)
    }

    fn flush(&mut self) -> io::Result<()> {
        if self.flushes {
            Ok(())
        } else {
            Err(io::Error::from(ErrorKind::StorageFull))
        }
    }
}
