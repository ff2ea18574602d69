//! How often a file is read.

use std::cell::Cell;
use std::io;
use std::io::Read;
use std::test::Fail;
use tv_io::{FileReader, read_text};

/// Gives as many bytes as there is room for, and counts the reads.
#[derive(Drop)]
struct Counted<'a> {
    left: &'a [u8],
    reads: &'a Cell<u32>,
}

impl Read for Counted<'_> {
    fn read(&mut self, room: &mut [u8]) -> io::Result<usize> {
        self.reads.set(self.reads.get().saturating_add(1));
        self.left.read(room)
    }
}

// As many bytes are asked for as there is room for, 4,096 at most; the fourth read is the end.
#[test]
fn few_reads(rt: HostRuntime) -> Result<(), Fail> {
    let alloc = rt.alloc();
    let text = "a".repeat(alloc, 10_000)?;
    let reads = Cell::new(0_u32);
    let mut reader = FileReader::new(Counted {
        left: text.as_bytes(),
        reads: &reads,
    });
    let read = read_text(alloc, &mut reader, 262_144)?;
    assert_eq!(rt; read.len(), 10_000);
    assert_eq!(rt; reads.get(), 4);
    Ok(())
}
