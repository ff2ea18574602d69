//! A writer into memory.

ghost use Rattle.std.specs.Prelude.{◌≡◌, ◌==◌, [], IfErr, IsOk, OnOk, not};
ghost use Rattle.tv_io.specs.Writer.{HasRisen};

use crate::writer::{WriteFailed, Writer};
use std::alloc::Global;

/// A writer that keeps the bytes in memory. It fails for want of memory alone.
#[derive(Debug, Drop)]
pub struct Gathering {
    bytes: Vec<u8>,
    failures: u64,
}

impl Gathering {
    /// Makes one that has taken nothing yet.
    pub fn new(alloc: Global) -> Gathering
        ensures none { result.bytes.items ≡ [] }
        ensures count { result.failures ≡ 0 }
    {
        Gathering {
            bytes: Vec::new(alloc),
            failures: 0,
        }
    }

    /// Lends the bytes that it took.
    pub fn bytes(&self) -> &[u8]
        ensures { result.now ≡ self.now.bytes.items }
    {
        self.bytes.as_slice()
    }

    /// Says whether some bytes weren't taken.
    pub fn has_failed(&self) -> bool
        ensures { result ≡ not (self.now.failures == 0) }
    {
        self.failures != 0
    }

    /// Fails where some bytes weren't taken, which counts as one more failure.
    pub fn flush(&mut self) -> Result<(), WriteFailed>
        ensures bytes { self.new.bytes ≡ self.old.bytes }
        ensures whole { OnOk result (self.new.failures ≡ 0) }
        ensures count { OnOk result (self.new.failures ≡ self.old.failures) }
        ensures failed { IfErr result (λ _. HasRisen self.old.failures self.new.failures) }
        ensures only { self.old.failures ≡ 0 → IsOk result }
    {
        if self.failures == 0 {
            return Ok(());
        }
        self.count_failure();
        Err(WriteFailed)
    }

    fn count_failure(&mut self)
        ensures bytes { self.new.bytes ≡ self.old.bytes }
        ensures count { HasRisen self.old.failures self.new.failures }
    {
        self.failures = self.failures.saturating_add(1);
    }

    /// Returns the bytes that it took.
    pub fn into_bytes(self) -> Vec<u8>
        ensures { result ≡ self.bytes }
    {
        let Gathering { bytes, .. } = self;
        bytes
    }
}

impl Writer for Gathering {
    ghost use Rattle.std.specs.Prelude.{Some, []};

    ghost seen = { λ s. record { taken = Some s.bytes.items; kept = []; failures = s.failures } };

    fn write(&mut self, bytes: &[u8]) -> Option<usize> {
        if self.bytes.extend_from_slice(bytes).is_err() {
            self.count_failure();
            return None;
        }
        Some(bytes.len())
    }

    fn pass_on(&mut self) -> Result<(), WriteFailed> {
        Ok(())
    }
}
