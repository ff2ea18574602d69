//! What is kept of a script that comes in pieces.

ghost use Rattle.std.specs.Prelude.{◌≡◌, ◌≤◌, ◌≤ℤ◌, ◌+◌, [], IfOk, pos, vec_capacity, vec_len};

use crate::script_text::MOST_BYTES;
use std::alloc::{AllocError, Global};
use tv_model::Desc;

/// The line at hand of a script that comes in pieces, and how far the lines before it were performed.
#[derive(Drop)]
pub(crate) struct Feed {
    /// The size of the screen, which has at most 132 columns and 60 rows.
    pub(crate) width: i32,
    pub(crate) height: i32,
    /// The line at hand, without its end. Its room is taken once and for all.
    pub(crate) line: Vec<u8>,
    /// The lines that were performed.
    pub(crate) lines: usize,
    /// The items that were begun.
    pub(crate) items: usize,
    /// The bytes that came.
    pub(crate) bytes: usize,
    ghost columns: { width ≤ℤ pos 132 },
    ghost rows: { height ≤ℤ pos 60 },
    ghost room: { 1048576 ≤ vec_capacity line },
    ghost short: { vec_len line + lines ≤ bytes },
    ghost few: { bytes ≤ 1048576 },
    ghost limit: { items ≤ 100000 },
}

impl Feed {
    /// Starts before the first byte of a script for a description's screen. Takes all the memory that is needed.
    pub(crate) fn new(alloc: Global, desc: &Desc) -> Result<Feed, AllocError>
        requires columns { desc.now.width ≤ℤ pos 132 }
        requires rows { desc.now.height ≤ℤ pos 60 }
        ensures screen { IfOk result (λ feed. (feed.width ≡ desc.now.width) × (feed.height ≡ desc.now.height)) }
        ensures empty { IfOk result (λ feed. feed.line.items ≡ []) }
        ensures start { IfOk result (λ feed. (feed.lines ≡ 0) × (feed.items ≡ 0) × (feed.bytes ≡ 0)) }
    {
        Ok(Feed {
            width: desc.width,
            height: desc.height,
            line: Vec::with_capacity(alloc, MOST_BYTES)?,
            lines: 0,
            items: 0,
            bytes: 0,
        })
    }

    /// Returns how many bytes may still be asked for: those that a script may have, and one that shows that it is too long.
    pub(crate) fn room(&self) -> usize
        ensures { result + self.now.bytes ≡ 1048577 }
    {
        MOST_BYTES + 1 - self.bytes
    }
}
