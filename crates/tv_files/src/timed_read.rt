//! Reads that tell how long they waited.

ghost use Rattle.std.specs.Prelude.{◌≡◌, ◌<◌, ℕ, [], length, IfSome, List, None, Option};
ghost use Rattle.tv_io.specs.Writer.{HasRisen};
ghost use Rattle.tv_files.specs.Waits.{FitsReading, Moment, Spends, moments_in};

use std::io::Read;
use std::rt::Clock;
use std::time::{Duration, Instant};

/// What a read came to.
#[derive(Clone, Copy, Debug, PartialEq, Eq)]
pub enum Reading {
    /// So many bytes, from the front of the room.
    Bytes(usize),
    /// No byte, after so long a wait.
    Nothing(Duration),
}

/// A reader that tells how long it waited where no byte came. Contracts see what its reads are still to give, where that is known,
/// and how many failed.
pub trait TimedRead {
    ghost coming: { Self → Option (List Moment) };

    ghost failed: { Self → ℕ };

    /// Puts bytes into the room, from its front. `None` is a failure.
    fn read(&mut self, room: &mut [u8]) -> Option<Reading>
        requires { 0 < length room.old }
        ensures within { IfSome result (λ reading. FitsReading reading room.new) }
        ensures gave { IfSome result (λ reading. Spends (coming self.old) (coming self.new) (moments_in reading room.new)) }
        ensures lost { result ≡ None → Spends (coming self.old) (coming self.new) [] }
        ensures count { result ≡ None → HasRisen (failed self.old) (failed self.new) };
}

/// A reader of `std`, and a clock. An error of the reader is a failure, and so is one of the clock where no byte came. Nothing is
/// known of what is still to come.
#[derive(Drop)]
pub struct TimedReader<'a, R: Read + Drop, C: Clock> {
    reader: R,
    clock: &'a C,
    failures: u64,
}

impl<'a, R: Read + Drop, C: Clock> TimedReader<'a, R, C> {
    /// Makes one over the reader, with a clock that tells how long it waited.
    pub fn new(reader: R, clock: &'a C) -> TimedReader<'a, R, C>
        ensures reader { result.reader ≡ reader }
        ensures count { result.failures ≡ 0 }
    {
        TimedReader {
            reader,
            clock,
            failures: 0,
        }
    }

    // Counts a failure.
    fn fail(&mut self) -> Option<Reading>
        ensures none { result ≡ None }
        ensures count { HasRisen self.old.failures self.new.failures }
    {
        self.failures = self.failures.saturating_add(1);
        None
    }
}

impl<R: Read + Drop, C: Clock> TimedRead for TimedReader<'_, R, C> {
    ghost coming = { λ _. None };

    ghost failed = { λ timed. timed.failures };

    fn read(&mut self, room: &mut [u8]) -> Option<Reading> {
        let Ok(begun) = Instant::now(self.clock) else {
            return self.fail();
        };
        match self.reader.read(room) {
            Ok(0) => match begun.elapsed(self.clock) {
                Ok(waited) => Some(Reading::Nothing(waited)),
                Err(_) => self.fail(),
            },
            Ok(count) => Some(Reading::Bytes(count)),
            Err(_) => self.fail(),
        }
    }
}
