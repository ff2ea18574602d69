//! Streams: writers that may keep bytes back.

ghost use Rattle.std.specs.Prelude.{◌≡◌, [], IfOk, false};
ghost use Rattle.std.specs.Io.KnownBytes.{Keeps};
ghost use Rattle.tv_io.specs.Device.{device_seen};
ghost use Rattle.tv_files.specs.Streams.{Flushes};

use std::alloc::{AllocError, Global};
use std::io::Write;
use tv_io::{Device, Gathering, WriteFailed, Writer};

/// A writer that may keep back what it took.
pub trait Stream: Writer {
    /// Writes what is kept back. It fails where that can't be written, and where a call failed before.
    fn flush(&mut self) -> Result<(), WriteFailed>
        ensures { Flushes (Self.seen self.old) (Self.seen self.new) result };
}

/// A stream to which the bytes go in large pieces, or when they are passed on.
#[derive(Drop)]
pub struct BufferedStream<W: Write + Drop> {
    device: Device<W>,
    failures: u64,
    // no failure of the device goes untold
    ghost told: { failures ≡ 0 → device.failures ≡ 0 },
}

impl<W: Write + Drop> BufferedStream<W> {
    /// Makes one over the writer, with room for what is kept back. Where there is no memory for it, the writer is dropped.
    pub fn new(alloc: Global, writer: W) -> Result<BufferedStream<W>, AllocError>
        ensures taken { IfOk result (λ stream. Keeps (W.contents writer) (device_seen W.contents stream.device).taken) }
        ensures kept { IfOk result (λ stream. (device_seen W.contents stream.device).kept ≡ []) }
        ensures count { IfOk result (λ stream. stream.failures ≡ 0) }
    {
        let device = Device::new(alloc, writer)?;
        Ok(BufferedStream {
            device,
            failures: 0,
        })
    }
}

impl<W: Write + Drop> Writer for BufferedStream<W> {
    ghost seen = { λ s. record (device_seen W.contents s.device) { failures = s.failures } };

    fn write(&mut self, bytes: &[u8]) -> Option<usize> {
        if let Some(count) = self.device.write(bytes)
            && count > 0
        {
            return Some(count);
        }
        self.failures = self.failures.saturating_add(1);
        None
    }

    fn pass_on(&mut self) -> Result<(), WriteFailed> {
        if self.device.pass_on().is_ok() {
            return Ok(());
        }
        self.failures = self.failures.saturating_add(1);
        Err(WriteFailed)
    }
}

impl<W: Write + Drop> Stream for BufferedStream<W> {
    fn flush(&mut self) -> Result<(), WriteFailed> {
        if self.failures == 0 && self.device.flush().is_ok() {
            return Ok(());
        }
        self.failures = self.failures.saturating_add(1);
        Err(WriteFailed)
    }
}

/// A stream that keeps nothing back, and so takes no memory.
#[derive(Drop)]
pub struct DirectStream<W: Write + Drop> {
    writer: W,
    failures: u64,
    /// The writer couldn't pass on what it took. It takes no more, and its flush fails.
    is_broken: bool,
}

impl<W: Write + Drop> DirectStream<W> {
    /// Makes one over the writer.
    pub fn new(writer: W) -> DirectStream<W>
        ensures writer { result.writer ≡ writer }
        ensures count { result.failures ≡ 0 }
        ensures whole { result.is_broken ≡ false }
    {
        DirectStream {
            writer,
            failures: 0,
            is_broken: false,
        }
    }
}

impl<W: Write + Drop> Writer for DirectStream<W> {
    ghost seen = { λ s. record { taken = W.contents s.writer; kept = []; failures = s.failures } };

    fn write(&mut self, bytes: &[u8]) -> Option<usize> {
        if !self.is_broken
            && let Ok(count) = self.writer.write(bytes)
            && count > 0
        {
            return Some(count);
        }
        self.failures = self.failures.saturating_add(1);
        None
    }

    // What it took is the system's. An error here shows at the next byte, and at the end.
    fn pass_on(&mut self) -> Result<(), WriteFailed> {
        if !self.is_broken && self.writer.flush().is_err() {
            self.is_broken = true;
        }
        Ok(())
    }
}

impl<W: Write + Drop> Stream for DirectStream<W> {
    fn flush(&mut self) -> Result<(), WriteFailed> {
        if !self.is_broken && self.failures == 0 && self.writer.flush().is_ok() {
            return Ok(());
        }
        self.failures = self.failures.saturating_add(1);
        Err(WriteFailed)
    }
}

impl Stream for Gathering {
    fn flush(&mut self) -> Result<(), WriteFailed> {
        Gathering::flush(self)
    }
}
