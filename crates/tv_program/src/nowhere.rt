//! A writer that keeps nothing.

ghost use Rattle.std.specs.Prelude.{None, []};

use tv_io::{WriteFailed, Writer};

/// Takes all that is written, and drops it.
#[derive(Drop)]
pub(crate) struct Nowhere;

impl Writer for Nowhere {
    ghost seen = { λ _. record { taken = None; kept = []; failures = 0 } };

    fn write(&mut self, bytes: &[u8]) -> Option<usize> {
        Some(bytes.len())
    }

    fn pass_on(&mut self) -> Result<(), WriteFailed> {
        Ok(())
    }
}
