//! What a terminal in memory sends.

use tv_play::{Piece, Pieces};

/// Gives texts as pieces, one after the other. An empty text is a pause.
#[derive(Drop)]
pub struct Sent<'a> {
    texts: &'a [&'a [u8]],
    // The text that is given, and its bytes that were.
    place: usize,
    given: usize,
    /// The bytes that it gives at most at a read.
    pub most: usize,
    /// The read that fails, counted from 1; none does at 0.
    pub failing: usize,
    /// How often it was called.
    pub reads: usize,
    failures: u64,
    is_ended: bool,
}

impl<'a> Sent<'a> {
    /// Begins before the first text.
    pub fn new(texts: &'a [&'a [u8]]) -> Sent<'a> {
        Sent {
            texts,
            place: 0,
            given: 0,
            most: 64,
            failing: 0,
            reads: 0,
            failures: 0,
            is_ended: false,
        }
    }
}

impl Pieces for Sent<'_> {
    ghost use Rattle.std.specs.Prelude.{None};

    ghost heard = { λ s. record { left = None; failures = s.failures; is_ended = s.is_ended } };

    fn next(&mut self, room: &mut [u8]) -> Option<Piece> {
        self.reads = self.reads.saturating_add(1);
        self.is_ended = false;
        if self.reads == self.failing {
            self.failures = self.failures.saturating_add(1);
            return None;
        }
        let texts = self.texts;
        let Some(text) = texts.get(self.place) else {
            self.is_ended = true;
            return Some(Piece::End);
        };
        let left = text.get(self.given..).unwrap_or(&[]);
        let count = room.len().min(self.most).min(left.len());
        let is_last = count == left.len();
        room[..count].copy_from_slice(&left[..count]);
        if is_last {
            self.place = self.place.saturating_add(1);
            self.given = 0;
        } else {
            self.given = self.given.saturating_add(count);
        }
        if count == 0 {
            return Some(Piece::Pause);
        }
        Some(Piece::Bytes(count))
    }
}
