//! The bell of a terminal.

ghost use Rattle.std.specs.Prelude.{◌≡◌};
ghost use Rattle.tv_io.specs.Pen.{Puts};
ghost use Rattle.tv_terminal.specs.Terminal.{Display, ground, rung, told};
ghost use Rattle.tv_terminal.specs.Written.{bell_bytes};

use tv_io::{Pen, Writer};

/// Rings the bell once. Nothing else of the terminal changes.
///
/// Where the writer fails, the pen is stopped.
pub fn ring<W: Writer>(pen: &mut Pen<W>)
    ensures puts { Puts W.seen pen.old pen.new bell_bytes }
    ensures told { (d : Display) → told (ground d) bell_bytes ≡ ground (rung d) }
{
    pen.put(b"\x07");
}
