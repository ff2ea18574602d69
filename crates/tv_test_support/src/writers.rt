//! Writers in place of a device.

use std::alloc::{AllocError, Global};
use tv_io::{WriteFailed, Writer};

/// A writer in memory. It takes the bytes for which it has room, at most so many a call, and then fails.
#[derive(Drop)]
pub struct Memory {
    taken: Vec<u8>,
    room: usize,
    most_a_call: usize,
    failures: u64,
}

impl Memory {
    /// A writer that takes so many bytes. Later calls take no memory.
    pub fn new(alloc: Global, room: usize, most_a_call: usize) -> Result<Memory, AllocError> {
        Ok(Memory {
            taken: Vec::with_capacity(alloc, room)?,
            room,
            most_a_call,
            failures: 0,
        })
    }

    /// A writer with room for each text of the tests.
    pub fn ample(alloc: Global) -> Result<Memory, AllocError> {
        Memory::new(alloc, 4096, 4096)
    }

    /// The bytes that it took.
    pub fn taken(&self) -> &[u8] {
        self.taken.as_slice()
    }
}

impl Writer for Memory {
    ghost use Rattle.std.specs.Prelude.{Some, []};

    ghost seen = { λ s. record { taken = Some s.taken.items; kept = []; failures = s.failures } };

    fn write(&mut self, bytes: &[u8]) -> Option<usize> {
        let count = bytes.len().min(self.room).min(self.most_a_call);
        if count == 0 || self.taken.extend_from_slice(&bytes[..count]).is_err() {
            self.failures = self.failures.saturating_add(1);
            return None;
        }
        self.room -= count;
        Some(count)
    }

    fn pass_on(&mut self) -> Result<(), WriteFailed> {
        Ok(())
    }
}

/// A writer that takes nothing and doesn't call it a failure.
#[derive(Drop)]
pub struct Idle {
    /// How often it was called.
    pub calls: u64,
}

impl Writer for Idle {
    ghost use Rattle.std.specs.Prelude.{Some, []};

    ghost seen = { λ s. record { taken = Some []; kept = []; failures = s.calls } };

    fn write(&mut self, _bytes: &[u8]) -> Option<usize> {
        self.calls = self.calls.saturating_add(1);
        Some(0)
    }

    fn pass_on(&mut self) -> Result<(), WriteFailed> {
        Ok(())
    }
}
