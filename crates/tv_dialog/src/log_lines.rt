//! Log lines on the heap.

ghost use Rattle.std.specs.Prelude.{◌≡◌, ◌<◌, ◌≤◌, ◌==◌, ◌+◌, ◌++◌, ◌∷◌, [], IfOk, length};

use std::alloc::{AllocError, Global};
use std::marker::Model;
use tv_model::LogLine;

/// At most `ROOM` log lines, for which it has taken the memory from the start. Contracts see them as `items`, like those
/// of a `Vec`.
///
/// They stand on the heap, so that what holds them is small to move: a line may have a text in it.
#[derive(Drop)]
pub struct LogLines<const ROOM: usize> {
    lines: Vec<LogLine>,
}

impl<const ROOM: usize> Model for LogLines<ROOM> {
    ghost use Rattle.std.specs.Prelude.{◌≤◌, length, vec_capacity};
    ghost use Rattle.tv_dialog.specs.Lines.{Lines};

    ghost Value = { Lines };

    ghost view = { λ log. record { items = log.lines.items } };

    ghost invariant = { λ log. (length log.lines.items ≤ ROOM) × (ROOM ≤ vec_capacity log.lines) };
}

impl<const ROOM: usize> LogLines<ROOM> {
    /// Makes room for the lines, of which there are none yet.
    ///
    /// # Errors
    ///
    /// `AllocError` where there is no memory for it.
    pub fn new(alloc: Global) -> Result<LogLines<ROOM>, AllocError>
        ensures { IfOk result (λ log. log.items ≡ []) }
    {
        let lines = Vec::with_capacity(alloc, ROOM)?;
        Ok(LogLines { lines })
    }

    /// Whether there is no room left.
    pub fn is_full(&self) -> bool
        ensures value { result ≡ (length self.now.items == ROOM) }
        ensures within { length self.now.items ≤ ROOM }
    {
        self.lines.len() == ROOM
    }

    /// Adds a line, for which there must be room. Takes no memory.
    pub fn push(&mut self, line: LogLine)
        requires { length self.old.items < ROOM }
        ensures { self.new.items ≡ self.old.items ++ line ∷ [] }
    {
        self.lines.push_reserved(line);
    }

    /// Moves the lines of another log behind these. There must be room for as many as that may have. Takes no memory.
    pub fn append<const OTHER: usize>(&mut self, other: &mut LogLines<OTHER>)
        requires { length self.old.items + OTHER ≤ ROOM }
        ensures lines { self.new.items ≡ self.old.items ++ other.old.items }
        ensures none_left { other.new.items ≡ [] }
    {
        let Ok(()) = self.lines.append(&mut other.lines) else {
            unreachable!();
        };
    }

    /// Drops all lines.
    pub fn clear(&mut self)
        ensures { self.new.items ≡ [] }
    {
        self.lines.clear();
    }

    /// Returns the lines.
    pub fn as_slice(&self) -> &[LogLine]
        ensures value { result.now ≡ self.now.items }
        ensures few { length result.now ≤ ROOM }
    {
        self.lines.as_slice()
    }
}
