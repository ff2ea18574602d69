//! A character with its attribute.

ghost use Rattle.std.specs.Prelude.{◌≡◌, ◌↔◌, IsSome, IfSome, IsTrue};
ghost use Rattle.tv_cells.specs.Glyph.{IsNarrow, glyph, is_narrow, shaded, shown};

use crate::face::Face;
use crate::filling::fill;
use crate::narrow_text::NarrowChar;
use std::marker::Model;
use unicode_width::UnicodeWidthChar;

/// One place of the screen: a character that takes one column, and its colours.
///
/// The attribute has the foreground in its low four bits and the background in the next three, as in Turbo Vision.
#[derive(Clone, Copy, Debug, PartialEq, Eq)]
pub struct Cell {
    ch: char,
    // Below 256. As wide as the character, so that a cell has no padding: cells are then written several at a time.
    attr: u32,
}

impl Model for Cell {
    ghost use Rattle.std.specs.Prelude.{◌<◌, ◌^◌};
    ghost use Rattle.tv_cells.specs.Glyph.{Glyph, IsNarrow};

    ghost Value = { Glyph };

    ghost view = { λ c. record { ch = c.ch; attr = c.attr } };

    ghost invariant = { λ c. IsNarrow c.ch × (c.attr < 2 ^ 8) };

    ghost inverse = { λ v. record { ch = v.ch; attr = v.attr } };
}

/// Whether the character takes exactly one column.
#[inline]
#[tactic(auto, using(crate::proofs::NarrowLemmas::ascii_narrow))]
pub fn is_narrow(ch: char) -> bool
    ensures fact { IsTrue result ↔ IsNarrow ch }
    ensures test { result ≡ is_narrow ch }
{
    // Most characters are printable ASCII ones, for which no table is asked.
    matches!(ch, ' '..='~') || ch.width() == Some(1)
}

impl Cell {
    /// Makes a cell, or returns `None` where the character doesn't take exactly one column, as `unicode_width` counts
    /// them.
    pub fn new(ch: char, attr: u8) -> Option<Cell>
        ensures variant { IsSome result ↔ IsNarrow ch }
        ensures value { IfSome result (λ cell. cell ≡ glyph ch attr) }
    {
        let attr = u32::from(attr);
        if is_narrow(ch) {
            Some(Cell { ch, attr })
        } else {
            None
        }
    }

    /// Makes the cell of a space.
    #[inline]
    pub fn space(attr: u8) -> Cell
        ensures { result ≡ glyph 32 attr }
    {
        let attr = u32::from(attr);
        Cell { ch: ' ', attr }
    }

    /// Makes the cell of a character, or of a space where the character doesn't take one column.
    #[inline]
    pub fn shown(ch: char, attr: u8) -> Cell
        ensures { result ≡ shown ch attr }
    {
        if is_narrow(ch) {
            let attr = u32::from(attr);
            Cell { ch, attr }
        } else {
            Cell::space(attr)
        }
    }

    /// Makes the cell of a character that is known to take one column, without a second test.
    #[inline]
    pub fn of(ch: NarrowChar, attr: u8) -> Cell
        ensures { result ≡ glyph ch attr }
    {
        let ch = ch.get();
        let attr = u32::from(attr);
        Cell { ch, attr }
    }

    /// Returns the character.
    pub fn ch(self) -> char
        ensures value { result ≡ self.ch }
        ensures width { IsNarrow result }
    {
        self.ch
    }

    /// Returns the attribute.
    pub fn attr(self) -> u8
        ensures { result ≡ self.attr }
    {
        self.attr as u8
    }

    /// Returns the same character in a shadow, which has attribute 08.
    pub fn shaded(self) -> Cell
        ensures { result ≡ shaded self }
    {
        Cell {
            ch: self.ch,
            attr: 0x08,
        }
    }
}

// A cell is the face that shows it everywhere.
impl Face for Cell {
    ghost face = { λ cell _ _. cell };

    fn at(&self, _x: u32, _y: u32) -> Cell {
        *self
    }

    fn row(&self, _y: u32, _from: u32, cells: &mut [Cell]) {
        fill(cells, *self);
    }
}
