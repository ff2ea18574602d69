//! Static texts.

ghost use Rattle.std.specs.Prelude.{IfSome, List, option_copied, ◌≡◌, ◌<◌, ◌==◌, ◌+ℤ◌, ◌≤ℤ◌, ◌≤◌, ◌^◌, ◌∷◌, drop, length, pos, position, slice_index_or, []};
ghost use Rattle.tv_cells.specs.Canvas.{Covers, face_at};
ghost use Rattle.tv_cells.specs.Layers.{Layer, Painted, Shows};
ghost use Rattle.tv_cells.specs.Picture.{Changes, IsAlike};
ghost use Rattle.tv_cells.specs.Rectangle.{sized};
ghost use Rattle.tv_model.specs.Screen.Faces.{text_face};
ghost use Rattle.tv_faces.specs.Looks.{Splits, canvas_below, pieces_left};

use crate::place::sum;
use crate::row::text_char;
use tv_cells::{Canvas, Cell, Face, Point, Screen, paint};

/// A static text, a piece a row.
#[derive(Clone, Copy)]
pub struct TextFace<'a> {
    pub text: &'a [char],
    pub attr: u8,
}

/// A piece of a text, in every row.
#[derive(Clone, Copy)]
struct Piece<'a> {
    text: &'a [char],
    attr: u8,
}

impl Face for Piece<'_> {
    ghost use Rattle.tv_cells.specs.Glyph.{shown};
    ghost use Rattle.tv_model.specs.Screen.Faces.{text_row};

    ghost face = { λ f x y. shown (text_row f.text.now x) f.attr };

    fn at(&self, x: u32, y: u32) -> Cell {
        let _row = y;
        Cell::shown(text_char(self.text, x as usize), self.attr)
    }

    fn row(&self, _y: u32, from: u32, cells: &mut [Cell]) {
        let from = from as usize;
        let count = self.text.len().saturating_sub(from).min(cells.len());
        let (front, back) = cells.split_at_mut(count);
        for (i, cell) in front.iter_mut().enumerate() {
            *cell = Cell::shown(self.text[from + i], self.attr);
        }
        back.fill(Cell::shown(' ', self.attr));
    }
}

fn line_end(text: &[char]) -> Option<usize>
    ensures place { result ≡ position (λ ch. ch == 10) text.now }
    ensures within { IfSome result (λ end. end < length text.now) }
{
    text.iter().position(|ch| *ch == '\n')
}

/// Returns the first piece of a text, and the text after its line end, if it has one.
pub(crate) fn split(text: &[char]) -> (&[char], Option<&[char]>)
    ensures { Splits text.now result.0.now (option_copied result.1) }
{
    match line_end(text) {
        Some(end) => (&text[..end], Some(&text[end + 1..])),
        None => (text, None),
    }
}

// The first of the pieces that are left, or nothing where none is, and those after it.
fn next_piece(left: Option<&[char]>) -> (&[char], Option<&[char]>)
    ensures first { result.0.now ≡ slice_index_or (pieces_left (option_copied left.entry)) 0 [] }
    ensures after { pieces_left (option_copied result.1) ≡ drop 1 (pieces_left (option_copied left.entry)) }
{
    match left {
        Some(text) => split(text),
        None => (&[], None),
    }
}

// A row of a canvas, so many below its first.
fn row_below(first: &i32, row: u32) -> i32
    requires first { first.now ≤ℤ pos (2 ^ 30) }
    requires row { row < 2 ^ 30 }
    ensures { result ≡ first.now +ℤ pos row }
{
    let _first = *first;
    sum(first, &(row as i32))
}

fn row_canvas(canvas: Canvas, row: u32) -> Canvas
    requires origin { canvas.origin.y ≤ℤ pos (2 ^ 30) }
    requires row { row < 2 ^ 30 }
    ensures { result ≡ canvas_below canvas row }
{
    Canvas {
        clip: canvas.clip,
        origin: Point {
            x: canvas.origin.x,
            y: row_below(&canvas.origin.y, row),
        },
    }
}

impl TextFace<'_> {
    /// Draws the text over what the screen shows, with its corner at the canvas's origin.
    pub fn lay(&self, screen: &mut Screen, canvas: Canvas, width: u32, height: u32)
        requires origin { canvas.origin.y ≤ℤ pos (2 ^ 30) }
        requires height { height ≤ 2 ^ 30 }
        ensures size { IsAlike screen.old screen.new }
        ensures shows { (layers : List Layer) → Shows layers screen.old
            → Shows (Painted canvas width height (text_face self.now.text.now self.now.attr) ∷ layers) screen.new }
    {
        self.paint(screen, canvas, width, height);
    }

    // Row by row, so that each piece is looked for once.
    fn paint(&self, screen: &mut Screen, canvas: Canvas, width: u32, height: u32)
        requires origin { canvas.origin.y ≤ℤ pos (2 ^ 30) }
        requires height { height ≤ 2 ^ 30 }
        ensures { Changes (Covers canvas (sized width height))
            (λ column row _. face_at canvas
            (text_face self.now.text.now self.now.attr) column row) screen.old screen.new }
    {
        let mut left = Some(self.text);
        for row in 0..height {
            let (text, after) = next_piece(left);
            let piece = Piece {
                text,
                attr: self.attr,
            };
            paint(screen, row_canvas(canvas, row), width, 1, &piece);
            left = after;
        }
    }
}
