//! Texts whose pieces are found once.

ghost use Rattle.std.specs.Prelude.{◌≡◌, IfOk, [], map, slice_index_or};
ghost use Rattle.tv_cells.specs.Glyph.{shown_char};
ghost use Rattle.tv_model.specs.Screen.Faces.{pieces_of, text_row};
ghost use Rattle.tv_faces.specs.Looks.{shown_pieces};

use crate::static_text::split;
use std::alloc::{AllocError, Global};
use std::marker::Model;
use tv_cells::{Cell, Face, NarrowChar, NarrowText, write_text};
use tv_valid::Chars;

/// A text with its pieces between line ends, as a screen shows them. Contracts see the characters of the text.
#[derive(Drop)]
pub struct PiecedText {
    text: Chars,
    pieces: Vec<NarrowText>,
}

impl Model for PiecedText {
    ghost use Rattle.std.specs.Prelude.{◌≡◌, List, ℕ};
    ghost use Rattle.tv_faces.specs.Looks.{shown_pieces};

    ghost Value = { List ℕ };

    ghost view = { λ t. t.text };

    ghost invariant = { λ t. t.pieces.items ≡ shown_pieces t.text };
}

impl PiecedText {
    /// Finds the pieces of the text, and keeps both.
    pub fn new(alloc: Global, text: Chars) -> Result<PiecedText, AllocError>
        ensures { IfOk result (λ pieced. pieced ≡ text) }
    {
        let pieces = pieces(alloc, text.as_slice())?;
        Ok(PiecedText { text, pieces })
    }

    /// Returns the text itself.
    pub fn chars(&self) -> &Chars
        ensures { result.now ≡ self.now }
    {
        &self.text
    }

    // The piece of a row as it is shown, empty below the last one.
    fn piece(&self, row: usize) -> &[NarrowChar]
        ensures { result.now ≡ map shown_char (slice_index_or (pieces_of self.now) row []) }
    {
        match self.pieces.get(row) {
            Some(piece) => piece.as_slice(),
            None => &[],
        }
    }
}

fn pieces(alloc: Global, text: &[char]) -> Result<Vec<NarrowText>, AllocError>
    ensures { IfOk result (λ pieces. pieces.items ≡ shown_pieces text.now) }
{
    let mut pieces = Vec::new(alloc);
    let mut left = Some(text);
    while let Some(rest) = left {
        let (piece, after) = split(rest);
        pieces.push(NarrowText::shown(alloc, piece)?)?;
        left = after;
    }
    Ok(pieces)
}

/// A text, a piece a row.
#[derive(Clone, Copy)]
pub struct PiecedFace<'a> {
    pub text: &'a PiecedText,
    pub attr: u8,
}

impl Face for PiecedFace<'_> {
    ghost use Rattle.tv_model.specs.Screen.Faces.{text_face};

    ghost face = { λ f. text_face f.text.now f.attr };

    fn at(&self, x: u32, y: u32) -> Cell {
        let ch = match self.text.piece(y as usize).get(x as usize) {
            Some(ch) => *ch,
            None => NarrowChar::space(),
        };
        Cell::of(ch, self.attr)
    }

    fn row(&self, y: u32, from: u32, cells: &mut [Cell]) {
        write_text(self.text.piece(y as usize), self.attr, from as usize, cells);
    }
}
