//! A writer over a file, a pipe or a terminal.

ghost use Rattle.std.specs.Prelude.{◌≡◌, [], IfOk, OnOk, MatchResult};
ghost use Rattle.std.specs.Io.KnownBytes.{Keeps};
ghost use Rattle.tv_io.specs.Writer.{HasRisen};

use crate::writer::{WriteFailed, Writer};
use std::alloc::{AllocError, Global};
use std::io::{BufWriter, Write};

/// A writer of `std`, to which the bytes go in large pieces. What is kept back is written by `flush`.
#[derive(Drop)]
pub struct Device<W: Write + Drop> {
    writer: BufWriter<W>,
    failures: u64,
}

impl<W: Write + Drop> Device<W> {
    ghost use Rattle.tv_io.specs.Device.{device_seen};

    /// Makes one over the writer, with room for what is kept back. Where there is no memory for it, the writer is dropped.
    pub fn new(alloc: Global, writer: W) -> Result<Device<W>, AllocError>
        ensures taken { IfOk result (λ device. Keeps (W.contents writer) (device_seen W.contents device).taken) }
        ensures kept { IfOk result (λ device. (device_seen W.contents device).kept ≡ []) }
        ensures count { IfOk result (λ device. (device_seen W.contents device).failures ≡ 0) }
    {
        match BufWriter::new(alloc, writer) {
            Ok(writer) => Ok(Device {
                writer,
                failures: 0,
            }),
            Err(_) => Err(AllocError),
        }
    }

    /// Writes what is kept back. An error counts as a failure.
    pub fn flush(&mut self) -> Result<(), WriteFailed>
        ensures written { OnOk result ((device_seen W.contents self.new).kept ≡ []) }
        ensures taken { Keeps (device_seen W.contents self.old).taken (device_seen W.contents self.new).taken }
        ensures count { MatchResult result
            (λ _. (device_seen W.contents self.new).failures ≡ (device_seen W.contents self.old).failures)
            (λ _. HasRisen (device_seen W.contents self.old).failures (device_seen W.contents self.new).failures) }
    {
        match self.writer.flush() {
            Ok(()) => Ok(()),
            Err(_) => {
                self.failures = self.failures.saturating_add(1);
                Err(WriteFailed)
            }
        }
    }
}

impl<W: Write + Drop> Writer for Device<W> {
    ghost use Rattle.tv_io.specs.Device.{device_seen};

    ghost seen = { device_seen W.contents };

    fn write(&mut self, bytes: &[u8]) -> Option<usize> {
        match self.writer.write(bytes) {
            Ok(count) if count > 0 => Some(count),
            _ => {
                self.failures = self.failures.saturating_add(1);
                None
            }
        }
    }

    // An error of the system is none where nothing is kept back: all bytes are the system's then.
    fn pass_on(&mut self) -> Result<(), WriteFailed> {
        if self.writer.flush().is_ok() || self.writer.buffer().is_empty() {
            return Ok(());
        }
        self.failures = self.failures.saturating_add(1);
        Err(WriteFailed)
    }
}
