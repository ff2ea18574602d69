//! Where a run in a terminal is written.

use tv_io::{WriteFailed, Writer};
use tv_terminal::Colours;

/// Where a run in a terminal is written: its screen, by which colours, its log, and as a script what the user did.
#[derive(Drop)]
pub struct Outputs<'t, 'w, 'r, T: Writer, W: Writer, R: Writer> {
    pub screen: &'t mut T,
    pub colours: Colours,
    pub log: &'w mut W,
    pub tape: &'r mut R,
}

/// A tape that keeps nothing.
#[derive(Debug, Drop)]
pub struct NoTape;

impl Writer for NoTape {
    ghost use Rattle.tv_play.specs.Playing.{untaped};

    ghost seen = { λ _. untaped };

    fn write(&mut self, bytes: &[u8]) -> Option<usize> {
        Some(bytes.len())
    }

    fn pass_on(&mut self) -> Result<(), WriteFailed> {
        Ok(())
    }
}
