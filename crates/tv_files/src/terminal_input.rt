//! What a terminal sends, in pieces.

ghost use Rattle.std.specs.Duration.{as_nanos};
ghost use Rattle.std.specs.Prelude.{◌≡◌, ◌≢◌, ◌<◌, ◌/◌, false, length, true, IfSome, None};
ghost use Rattle.tv_io.specs.Writer.{HasRisen};
ghost use Rattle.tv_files.specs.Waits.{HearsRead, heard_by, piece_after, short_after};

use crate::timed_read::{Reading, TimedRead};
use std::time::Duration;
use tv_play::{Piece, Pieces};

/// A read that gave nothing in fewer milliseconds didn't wait for a terminal.
const SHORTEST_WAIT: u128 = 50;

/// So many such reads in a row are the end.
const READS_AT_END: u32 = 4;

/// A reader whose terminal answers a read after a while, also where no byte came: as with `stty min 0 time 1`.
///
/// A read without bytes is a pause. A file or a pipe that is at its end gives none either, but at once: so several such reads
/// in a row, each too short to have waited, are the end (`heard` of `next`). Nothing is known of what it has left.
#[derive(Drop)]
pub struct TerminalInput<T: TimedRead + Drop> {
    reader: T,
    failures: u64,
    short_reads: u32,
    is_ended: bool,
}

impl<T: TimedRead + Drop> TerminalInput<T> {
    ghost use Rattle.tv_play.specs.declared.pieces.Piece.TheVariants.{End};

    /// Makes one over the reader.
    pub fn new(reader: T) -> TerminalInput<T>
        ensures reader { result.reader ≡ reader }
        ensures count { result.failures ≡ 0 }
        ensures short { result.short_reads ≡ 0 }
        ensures going { result.is_ended ≡ false }
    {
        TerminalInput {
            reader,
            failures: 0,
            short_reads: 0,
            is_ended: false,
        }
    }

    // What a read without bytes is, by the time that it took.
    fn nothing_after(&mut self, waited: Duration) -> Piece
        ensures piece { result ≡ piece_after self.new.short_reads }
        ensures short { self.new.short_reads ≡ short_after (as_nanos waited / 1_000_000) self.old.short_reads }
        ensures ended { result ≡ End → self.new.is_ended ≡ true }
        ensures going { result ≢ End → self.new.is_ended ≡ self.old.is_ended }
        ensures count { self.new.failures ≡ self.old.failures }
        ensures reader { self.new.reader ≡ self.old.reader }
    {
        if waited.as_millis() >= SHORTEST_WAIT {
            self.short_reads = 0;
            return Piece::Pause;
        }
        self.short_reads = self.short_reads.saturating_add(1).min(READS_AT_END);
        if self.short_reads < READS_AT_END {
            return Piece::Pause;
        }
        self.is_ended = true;
        Piece::End
    }

    // Counts a failure.
    fn fail(&mut self) -> Option<Piece>
        ensures none { result ≡ None }
        ensures count { HasRisen self.old.failures self.new.failures }
        ensures short { self.new.short_reads ≡ self.old.short_reads }
        ensures reader { self.new.reader ≡ self.old.reader }
        ensures ended { self.new.is_ended ≡ self.old.is_ended }
    {
        self.failures = self.failures.saturating_add(1);
        None
    }
}

impl<T: TimedRead + Drop> Pieces for TerminalInput<T> {
    ghost use Rattle.tv_play.specs.Pieces.{Comes, ComesNot, FitsRoom};

    ghost heard = { λ input. heard_by input.failures input.is_ended };

    // The first four clauses are those of the trait, which don't stand beside one of its own.
    fn next(&mut self, room: &mut [u8]) -> Option<Piece>
        requires { 0 < length room.old }
        ensures within { IfSome result (λ piece. FitsRoom piece room.new) }
        ensures came { IfSome result (λ piece. Comes (heard_by self.old.failures self.old.is_ended)
            (heard_by self.new.failures self.new.is_ended) piece room.new) }
        ensures failed { result ≡ None
            → ComesNot (heard_by self.old.failures self.old.is_ended) (heard_by self.new.failures self.new.is_ended) }
        ensures heard { HearsRead (T.coming self.old.reader) (T.coming self.new.reader) (T.failed self.old.reader)
            (T.failed self.new.reader) self.old.short_reads self.new.short_reads result room.new }
    {
        self.is_ended = false;
        match self.reader.read(room) {
            Some(Reading::Bytes(count)) => {
                self.short_reads = 0;
                Some(Piece::Bytes(count))
            }
            Some(Reading::Nothing(waited)) => Some(self.nothing_after(waited)),
            None => self.fail(),
        }
    }
}
