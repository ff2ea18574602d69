//! Labels.

ghost use Rattle.std.specs.Prelude.{◌≡◌};
ghost use Rattle.tv_faces.specs.Labels.{is_mark};

use crate::row::{put, text_char, write_row};
use tv_cells::{Cell, Face};

/// A label of a dialog.
#[derive(Clone, Copy)]
pub struct LabelFace<'a> {
    pub text: &'a [char],
    pub mark: Option<usize>,
    /// The attribute of the marked letter.
    pub letter: u8,
    /// The attribute of all other cells.
    pub rest: u8,
}

fn is_mark(mark: Option<usize>, x: usize) -> bool
    ensures { result ≡ is_mark mark x }
{
    match mark {
        Some(place) => x == place,
        None => false,
    }
}

impl Face for LabelFace<'_> {
    ghost use Rattle.tv_faces.specs.Labels.{label_cells};

    ghost face = { λ f. label_cells f.text.now f.mark f.letter f.rest };

    fn at(&self, x: u32, y: u32) -> Cell {
        let _row = y;
        let x = x as usize;
        let attr = if is_mark(self.mark, x) {
            self.letter
        } else {
            self.rest
        };
        Cell::shown(text_char(self.text, x), attr)
    }

    fn row(&self, _y: u32, from: u32, cells: &mut [Cell]) {
        let from = from as usize;
        write_row(self.text, self.rest, from, cells);
        if let Some(place) = self.mark {
            let letter = Cell::shown(text_char(self.text, place), self.letter);
            put(letter, place, from, cells);
        }
    }
}
