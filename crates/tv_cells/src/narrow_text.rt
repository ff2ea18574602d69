//! Characters that take one column, which are tested once.

ghost use Rattle.std.specs.Prelude.{◌≡◌, ◌+◌, IfOk, length, map, slice_index_or};
ghost use Rattle.tv_cells.specs.Glyph.{IsNarrow, glyph, shown_char};
ghost use Rattle.tv_cells.specs.Row.{IsRow};

use crate::cell::{Cell, is_narrow};
use std::alloc::{AllocError, Global};
use std::marker::Model;

/// A character that takes exactly one column.
#[derive(Clone, Copy)]
pub struct NarrowChar {
    ch: char,
}

impl Model for NarrowChar {
    ghost use Rattle.std.specs.Prelude.{ℕ};
    ghost use Rattle.tv_cells.specs.Glyph.{IsNarrow};

    ghost Value = { ℕ };

    ghost view = { λ c. c.ch };

    ghost invariant = { λ c. IsNarrow c.ch };

    ghost inverse = { λ ch. record { ch = ch } };
}

impl NarrowChar {
    /// Makes a space.
    #[inline]
    pub fn space() -> NarrowChar
        ensures { result ≡ 32 }
    {
        NarrowChar { ch: ' ' }
    }

    /// Makes the character, or a space where it doesn't take one column.
    #[inline]
    pub fn shown(ch: char) -> NarrowChar
        ensures { result ≡ shown_char ch }
    {
        if is_narrow(ch) {
            NarrowChar { ch }
        } else {
            NarrowChar::space()
        }
    }

    /// Returns the character itself.
    #[inline]
    pub fn get(self) -> char
        ensures value { result ≡ self }
        ensures width { IsNarrow result }
    {
        self.ch
    }
}

/// A text as a screen shows it: spaces stand for the characters that don't take one column.
#[derive(Drop)]
pub struct NarrowText {
    chars: Vec<NarrowChar>,
}

impl Model for NarrowText {
    ghost use Rattle.std.specs.Prelude.{List, ℕ};

    ghost Value = { List ℕ };

    ghost view = { λ t. t.chars.items };
}

impl NarrowText {
    /// Makes the text that a screen shows for these characters.
    pub fn shown(alloc: Global, text: &[char]) -> Result<NarrowText, AllocError>
        ensures { IfOk result (λ shown. shown ≡ map shown_char text.now) }
    {
        let chars = text.iter().map(|ch| NarrowChar::shown(*ch)).collect(alloc)?;
        Ok(NarrowText { chars })
    }

    /// Returns the characters.
    pub fn as_slice(&self) -> &[NarrowChar]
        ensures { result.now ≡ self.now }
    {
        &self.chars
    }
}

/// Writes the cells of a row from column `from` on: those of a text that begins in column 0, and spaces after it.
pub fn write_text(text: &[NarrowChar], attr: u8, from: usize, cells: &mut [Cell])
    ensures count { length cells.new ≡ length cells.old }
    ensures cells { IsRow (λ x. glyph (slice_index_or text.now x 32) attr) from cells.new }
{
    let count = text.len().saturating_sub(from).min(cells.len());
    let (front, back) = cells.split_at_mut(count);
    for (i, cell) in front.iter_mut().enumerate() {
        *cell = Cell::of(text[from + i], attr);
    }
    back.fill(Cell::space(attr));
}
