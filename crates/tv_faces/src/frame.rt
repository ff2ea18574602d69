//! Frames of windows and dialogs.

ghost use Rattle.std.specs.Prelude.{◌≡◌, ◌≤◌, ◌<◌, ◌+◌, ◌^◌, if◌then◌else◌, length};
ghost use Rattle.tv_cells.specs.Glyph.{glyph, shown};
ghost use Rattle.tv_cells.specs.Row.{IsRow};
ghost use Rattle.tv_palette.specs.Attributes.{attribute_of};
ghost use Rattle.tv_palette.specs.Chain.{coloured};
ghost use Rattle.tv_palette.specs.Palettes.{colour_in, owners_of_part};
ghost use Rattle.tv_model.specs.Screen.Faces.{Row, border, cut_title, frame_look, frame_role, is_side, titled, top_row, with_number};
ghost use Rattle.tv_faces.specs.Looks.{frame_look_of};

use crate::look::FrameLook;
use crate::row::{char_after_space, put, write_over};
use tv_cells::{Cell, Face, fill};
use tv_palette::{Chain, FrameRole, Owner, Role};

fn role(is_active: bool) -> FrameRole
    ensures { result ≡ frame_role is_active }
{
    if is_active {
        FrameRole::Active
    } else {
        FrameRole::Passive
    }
}

impl FrameLook {
    /// Makes the look of a frame of this number, 0 for none, with the attributes to which the chain of what it surrounds leads.
    pub fn new(chain: &Chain, owner: Owner, number: u8, is_active: bool) -> FrameLook
        requires digit { number ≤ 9 }
        ensures chain { frame_look_of result ≡ frame_look (colour_in chain.now) owner number is_active }
        ensures table { coloured chain.now ≡ owners_of_part owner → frame_look_of result ≡ frame_look attribute_of owner number is_active }
    {
        FrameLook {
            number,
            is_active,
            edge: Role::Frame(owner, role(is_active)).attr(chain),
            inside: Role::Frame(owner, FrameRole::Body).attr(chain),
        }
    }
}

/// The frame of a window or a dialog, with the space that it surrounds.
#[derive(Clone, Copy)]
pub struct Frame<'a> {
    pub width: u32,
    pub height: u32,
    pub title: &'a [char],
    pub look: FrameLook,
}

fn is_side(width: usize, x: usize) -> bool
    requires { x < 2 ^ 32 }
    ensures { result ≡ is_side width x }
{
    x == 0 || x + 1 == width
}

fn border(width: usize, is_active: bool, x: usize) -> char
    requires { x < 2 ^ 32 }
    ensures { result ≡ border is_active width x }
{
    if is_side(width, x) {
        '+'
    } else if is_active {
        '='
    } else {
        '-'
    }
}

// The title with a space at both sides, in the middle of the border.
fn titled(width: usize, title: &[char], is_active: bool, x: usize) -> char
    requires column { x < 2 ^ 32 }
    requires width { width < 2 ^ 32 }
    ensures { result ≡ titled width title.now (border is_active width) x }
{
    let below = border(width, is_active, x);
    if title.is_empty() {
        return below;
    }
    let count = title.len() + 2;
    let from = width.saturating_sub(count) / 2;
    if from <= x && x < from + count {
        char_after_space(title, x - from)
    } else {
        below
    }
}

// The title, cut so that the close mark and the number stay free.
fn cut_title(width: usize, title: &[char]) -> &[char]
    ensures { result.now ≡ cut_title width title.now }
{
    let count = title.len().min(width.saturating_sub(12));
    &title[..count]
}

fn top_row(width: usize, title: &[char], look: FrameLook, x: usize) -> char
    requires column { x < 2 ^ 32 }
    requires width { width < 2 ^ 32 }
    ensures { result ≡ top_row width title.now (frame_look_of look) x }
{
    match x {
        2 if look.is_active => '[',
        3 if look.is_active => 'x',
        4 if look.is_active => ']',
        _ if look.number != 0 && x + 4 == width => (b'0' + look.number) as char,
        _ => titled(width, cut_title(width, title), look.is_active, x),
    }
}

// A row with one cell at both sides and another between them.
fn write_between(width: u32, side: Cell, middle: Cell, from: u32, cells: &mut [Cell])
    requires { from + length cells.old ≤ 2 ^ 32 }
    ensures count { length cells.new ≡ length cells.old }
    ensures cells { IsRow (λ x. if is_side width x then side else middle) from cells.new }
{
    fill(cells, middle);
    if from == 0 && !cells.is_empty() {
        cells[0] = side;
    }
    if width > from {
        let last = (width - 1 - from) as usize;
        if last < cells.len() {
            cells[last] = side;
        }
    }
}

// The title over the middle of a row, with a space at both sides.
fn write_title(title: &[char], attr: u8, width: usize, from: usize, cells: &mut [Cell])
    requires column { from + length cells.old ≤ 2 ^ 32 }
    requires width { width < 2 ^ 32 }
    ensures count { length cells.new ≡ length cells.old }
    ensures cells { (below : Row) → IsRow (λ x. shown (below x) attr) from cells.old
        → IsRow (λ x. shown (titled width title.now below x) attr) from cells.new }
{
    if title.is_empty() {
        return;
    }
    let count = title.len();
    let start = width.saturating_sub(count + 2) / 2;
    put(Cell::shown(' ', attr), start, from, cells);
    write_over(title, attr, start + 1, from, cells);
    put(Cell::shown(' ', attr), start + 1 + count, from, cells);
}

// The digit of a number over a row, in the fourth column from the end. 0 has none.
fn write_number(number: u8, attr: u8, width: usize, from: usize, cells: &mut [Cell])
    requires { number ≤ 9 }
    ensures count { length cells.new ≡ length cells.old }
    ensures cells { (below : Row) → IsRow (λ x. shown (below x) attr) from cells.old
        → IsRow (λ x. shown (with_number width number below x) attr) from cells.new }
{
    if number != 0 && width >= 4 {
        let digit = (b'0' + number) as char;
        put(Cell::shown(digit, attr), width - 4, from, cells);
    }
}

impl Frame<'_> {
    ghost use Rattle.tv_faces.specs.Looks.{top_row_of};

    // The first row: the border, and over it the title, the number and the close mark.
    fn write_top(&self, from: u32, cells: &mut [Cell])
        requires { from + length cells.old ≤ 2 ^ 32 }
        ensures count { length cells.new ≡ length cells.old }
        ensures cells { IsRow (top_row_of self.now) from cells.new }
    {
        let look = self.look;
        let width = self.width as usize;
        self.write_border(from, cells);
        let from = from as usize;
        write_title(cut_title(width, self.title), look.edge, width, from, cells);
        write_number(look.number, look.edge, width, from, cells);
        if look.is_active {
            write_over(&['[', 'x', ']'], look.edge, 2, from, cells);
        }
    }

    // The border with its corners, as the last row is.
    fn write_border(&self, from: u32, cells: &mut [Cell])
        requires { from + length cells.old ≤ 2 ^ 32 }
        ensures count { length cells.new ≡ length cells.old }
        ensures cells { IsRow (λ x. shown (border self.now.look.is_active self.now.width x) self.now.look.edge) from cells.new }
    {
        let look = self.look;
        let line = if look.is_active { '=' } else { '-' };
        let side = Cell::shown('+', look.edge);
        write_between(self.width, side, Cell::shown(line, look.edge), from, cells);
    }

    // A row inside the frame, with its sides.
    fn write_inside(&self, from: u32, cells: &mut [Cell])
        requires { from + length cells.old ≤ 2 ^ 32 }
        ensures count { length cells.new ≡ length cells.old }
        ensures cells { IsRow
            (λ x. if is_side self.now.width x then shown 124 self.now.look.edge
            else glyph 32 self.now.look.inside) from cells.new }
    {
        let look = self.look;
        let side = Cell::shown('|', look.edge);
        write_between(self.width, side, Cell::space(look.inside), from, cells);
    }
}

impl Face for Frame<'_> {
    ghost use Rattle.tv_model.specs.Screen.Faces.{frame_face};
    ghost use Rattle.tv_faces.specs.Looks.{frame_look_of};

    ghost face = { λ f. frame_face f.width f.height f.title.now (frame_look_of f.look) };

    fn at(&self, x: u32, y: u32) -> Cell {
        let width = self.width as usize;
        let height = self.height as usize;
        let x = x as usize;
        let y = y as usize;
        let look = self.look;
        if y == 0 {
            Cell::shown(top_row(width, self.title, look, x), look.edge)
        } else if y + 1 == height {
            Cell::shown(border(width, look.is_active, x), look.edge)
        } else if is_side(width, x) {
            Cell::shown('|', look.edge)
        } else {
            Cell::space(look.inside)
        }
    }

    // The rows inside the frame are alike.
    fn repeats(&self, y: u32) -> bool {
        y > 1 && (y as usize) + 1 < self.height as usize
    }

    fn row(&self, y: u32, from: u32, cells: &mut [Cell]) {
        if y == 0 {
            self.write_top(from, cells);
        } else if y as usize + 1 == self.height as usize {
            self.write_border(from, cells);
        } else {
            self.write_inside(from, cells);
        }
    }
}
