//! Faces with a sheet of a program's own in their interior.

ghost use Rattle.std.specs.Prelude.{◌≡◌, ℕ, option_copied};
ghost use Rattle.tv_cells.specs.Glyph.{Glyph};
ghost use Rattle.tv_cells.specs.Sheets.{inlaid, is_blank, is_on_sheet};

use crate::cell::Cell;
use crate::face::Face;
use crate::screen::Screen;

// Whether a cell of a sheet isn't painted.
fn is_blank(cell: Cell) -> bool
    ensures { result ≡ is_blank cell }
{
    cell.ch() == ' ' && cell.attr() == 0
}

// Whether a place on a line lies between its ends, on a sheet of this length that begins behind the first end.
fn is_on_sheet(length: u32, sheet: u32, place: u32) -> bool
    ensures { result ≡ is_on_sheet length sheet place }
{
    place > 0 && place < sheet.saturating_add(1) && place < length && place + 1 < length
}

/// A face of this size, with a sheet between its sides: each cell of the sheet that is painted hides the face's own.
#[derive(Drop)]
pub struct Inlaid<'a, F: Face> {
    pub face: &'a F,
    pub width: u32,
    pub height: u32,
    pub sheet: Option<&'a Screen>,
}

impl<F: Face> Inlaid<'_, F> {
    // What shows at a place where the face has this cell.
    fn over(&self, x: u32, y: u32, below: Cell) -> Cell
        ensures { (face : ℕ → ℕ → Glyph) → face x y ≡ below
            → result ≡ inlaid (option_copied self.now.sheet) self.now.width self.now.height face x y }
    {
        let Some(sheet) = self.sheet else {
            return below;
        };
        if !is_on_sheet(self.width, sheet.width(), x)
            || !is_on_sheet(self.height, sheet.height(), y)
        {
            return below;
        }
        let cell = sheet.get(x - 1, y - 1);
        if is_blank(cell) { below } else { cell }
    }
}

impl<F: Face> Face for Inlaid<'_, F> {
    ghost use Rattle.std.specs.Prelude.{option_copied};
    ghost use Rattle.tv_cells.specs.Sheets.{inlaid};

    ghost face = { λ f. inlaid (option_copied f.sheet) f.width f.height (F.face f.face.now) };

    fn at(&self, x: u32, y: u32) -> Cell {
        self.over(x, y, self.face.at(x, y))
    }

    fn row(&self, y: u32, from: u32, cells: &mut [Cell]) {
        self.face.row(y, from, cells);
        if self.sheet.is_some() {
            for (i, cell) in cells.iter_mut().enumerate() {
                *cell = self.over(from + i as u32, y, *cell);
            }
        }
    }

    fn repeats(&self, y: u32) -> bool {
        match self.sheet {
            None => self.face.repeats(y),
            Some(_) => false,
        }
    }
}
