//! Readers that give a script in pieces, and writers: one that shows what it was asked to pass on, and one that fails once.

use std::cell::Cell;
use tv_io::{Reader, WriteFailed, Writer};

/// A reader that gives a text in pieces of so many bytes, where there is room for them.
#[derive(Drop)]
pub struct Pieces<'a> {
    left: &'a [u8],
    piece: usize,
    /// The read that fails, counted from 1; none does at 0.
    failing: usize,
    /// How often it was called.
    pub reads: usize,
    /// The bytes that it was asked for.
    pub asked: usize,
    failures: u64,
    is_ended: bool,
}

impl<'a> Pieces<'a> {
    /// Begins before the text, with a read that fails, counted from 1; none does at 0.
    pub fn new(text: &'a str, piece: usize, failing: usize) -> Pieces<'a> {
        Pieces {
            left: text.as_bytes(),
            piece,
            failing,
            reads: 0,
            asked: 0,
            failures: 0,
            is_ended: false,
        }
    }
}

impl Reader for Pieces<'_> {
    ghost use Rattle.std.specs.Prelude.{None};

    ghost seen = { λ r. record { given = None; left = None; failures = r.failures; is_ended = r.is_ended } };

    fn read(&mut self, room: &mut [u8]) -> Option<usize> {
        self.reads = self.reads.saturating_add(1);
        self.asked = self.asked.saturating_add(room.len());
        if self.reads == self.failing {
            self.failures = self.failures.saturating_add(1);
            self.is_ended = false;
            return None;
        }
        let count = room.len().min(self.piece).min(self.left.len());
        let (piece, left) = self.left.split_at(count);
        room[..count].copy_from_slice(piece);
        self.left = left;
        self.is_ended = count == 0;
        Some(count)
    }
}

/// A reader that gives a line again and again, at each read once, or a part of it where there is no room for all.
#[derive(Drop)]
pub struct Repeated<'a> {
    pub line: &'a str,
    /// How often it is still to come.
    pub left: usize,
    pub is_ended: bool,
}

impl Reader for Repeated<'_> {
    ghost use Rattle.std.specs.Prelude.{None};

    ghost seen = { λ r. record { given = None; left = None; failures = 0; is_ended = r.is_ended } };

    fn read(&mut self, room: &mut [u8]) -> Option<usize> {
        if self.left == 0 {
            self.is_ended = true;
            return Some(0);
        }
        self.left -= 1;
        let count = room.len().min(self.line.len());
        let (line, _) = self.line.as_bytes().split_at(count);
        room[..count].copy_from_slice(line);
        self.is_ended = count == 0;
        Some(count)
    }
}

/// A reader that looks, at each read, how many bytes were passed on.
#[derive(Drop)]
pub struct Watching<'a> {
    pub script: Pieces<'a>,
    pub passed_on: &'a Cell<usize>,
    /// The bytes that are to have been passed on at each read.
    pub wanted: &'a [usize],
    /// The first read, counted from 1, at which others were passed on than is wanted.
    pub odd: Option<usize>,
}

impl Reader for Watching<'_> {
    ghost use Rattle.std.specs.Prelude.{None};

    ghost seen = { λ r. record { given = None; left = None; failures = r.script.failures; is_ended = r.script.is_ended } };

    fn read(&mut self, room: &mut [u8]) -> Option<usize> {
        let number = self.script.reads;
        let is_wanted = self.wanted.get(number) == Some(&self.passed_on.get());
        if !is_wanted && self.odd.is_none() {
            self.odd = Some(number.saturating_add(1));
        }
        self.script.read(room)
    }
}

/// A writer that takes everything. What it took can be seen only once it was passed on.
#[derive(Drop)]
pub struct Held<'a> {
    pub taken: usize,
    pub passed_on: &'a Cell<usize>,
}

impl Writer for Held<'_> {
    ghost use Rattle.std.specs.Prelude.{None, []};

    ghost seen = { λ w. record { taken = None; kept = []; failures = 0 } };

    fn write(&mut self, bytes: &[u8]) -> Option<usize> {
        self.taken = self.taken.saturating_add(bytes.len());
        Some(bytes.len())
    }

    fn pass_on(&mut self) -> Result<(), WriteFailed> {
        self.passed_on.set(self.taken);
        Ok(())
    }
}

/// A writer that takes so many bytes, then fails once, and would take everything from then on.
#[derive(Drop)]
pub struct Relenting {
    /// The bytes that it takes before it fails.
    pub room: usize,
    /// How often it has failed.
    pub failures: u64,
    /// The bytes that it was offered after it had failed.
    pub offered: usize,
}

impl Writer for Relenting {
    ghost use Rattle.std.specs.Prelude.{None, []};

    ghost seen = { λ w. record { taken = None; kept = []; failures = w.failures } };

    fn write(&mut self, bytes: &[u8]) -> Option<usize> {
        if self.failures > 0 {
            self.offered = self.offered.saturating_add(bytes.len());
            return Some(bytes.len());
        }
        let count = bytes.len().min(self.room);
        if count == 0 {
            self.failures = self.failures.saturating_add(1);
            return None;
        }
        self.room -= count;
        Some(count)
    }

    fn pass_on(&mut self) -> Result<(), WriteFailed> {
        Ok(())
    }
}
