//! Reads of a terminal: which of those without bytes is a pause, and which the end.

use std::alloc::Global;
use std::cell::Cell;
use std::io;
use std::io::{ErrorKind, Read};
use std::rt::Clock;
use std::test::Fail;
use std::time::Duration;
use tv_files::{TerminalInput, TimedReader};
use tv_play::{Piece, Pieces};

/// A clock that is put forward by hand.
#[derive(Drop)]
struct Watch {
    milliseconds: Cell<u64>,
}

impl Clock for Watch {
    fn monotonic(&self) -> io::Result<Duration> {
        Ok(Duration::from_millis(self.milliseconds.get()))
    }

    fn since_1970(&self) -> io::Result<Duration> {
        self.monotonic()
    }
}

/// Gives texts at its reads, each after so many milliseconds. Then it fails.
#[derive(Drop)]
struct Wire<'a> {
    watch: &'a Watch,
    texts: &'a [(&'a [u8], u64)],
    /// How many reads there were.
    reads: usize,
}

impl Read for Wire<'_> {
    fn read(&mut self, room: &mut [u8]) -> io::Result<usize> {
        let Some((text, waited)) = self.texts.get(self.reads) else {
            return Err(io::Error::from(ErrorKind::Other));
        };
        self.reads = self.reads.saturating_add(1);
        let now = self.watch.milliseconds.get();
        self.watch.milliseconds.set(now.saturating_add(*waited));
        let count = text.len().min(room.len());
        room[..count].copy_from_slice(&text[..count]);
        Ok(count)
    }
}

// What is heard of these texts: their bytes, `.` for a pause, `!` for the end, and `?` where it fails.
fn heard(alloc: Global, texts: &[(&[u8], u64)]) -> Result<String, Fail> {
    let watch = Watch {
        milliseconds: Cell::new(1_000),
    };
    let wire = Wire {
        watch: &watch,
        texts,
        reads: 0,
    };
    let mut input = TerminalInput::new(TimedReader::new(wire, &watch));
    let mut told = String::new(alloc);
    let mut room = [0u8; 64];
    for _ in 0..=texts.len() {
        match input.next(&mut room) {
            Some(Piece::Bytes(count)) => told.push_str(str::from_utf8(&room[..count])?)?,
            Some(Piece::Pause) => told.push('.')?,
            Some(Piece::End) => {
                told.push('!')?;
                return Ok(told);
            }
            None => told.push('?')?,
        }
    }
    Ok(told)
}

const FULL: &[u8] = b"0123456789012345678901234567890123456789012345678901234567890123";

const NONE: &[u8] = b"";

// The texts of the reads, each with how long it took, and what is heard.
const ROWS: [(&[(&[u8], u64)], &str); 6] = [
    (
        &[(NONE, 0), (NONE, 0), (NONE, 49), (NONE, 49), (NONE, 0)],
        "...!",
    ),
    (
        &[(NONE, 50), (NONE, 50), (NONE, 50), (NONE, 50), (NONE, 50)],
        ".....?",
    ),
    (
        &[
            (NONE, 100),
            (NONE, 100),
            (NONE, 100),
            (NONE, 100),
            (NONE, 60_000),
            (NONE, 100),
        ],
        "......?",
    ),
    (
        &[
            (NONE, 0),
            (b"a", 0),
            (NONE, 0),
            (b"bc", 0),
            (NONE, 0),
            (b"d", 0),
            (NONE, 0),
            (NONE, 0),
        ],
        ".a.bc.d..?",
    ),
    (
        &[
            (NONE, 0),
            (NONE, 0),
            (NONE, 0),
            (NONE, 100),
            (NONE, 0),
            (NONE, 0),
            (NONE, 0),
            (NONE, 0),
        ],
        ".......!",
    ),
    (
        &[(FULL, 0), (b"456", 0)],
        "0123456789012345678901234567890123456789012345678901234567890123456?",
    ),
];

#[test]
fn pauses_and_ends(rt: HostRuntime) -> Result<(), Fail> {
    for &(texts, wanted) in &ROWS {
        let told = heard(rt.alloc(), texts)?;
        assert_eq!(rt; told.as_str(), wanted, "{texts:?}");
    }
    Ok(())
}
