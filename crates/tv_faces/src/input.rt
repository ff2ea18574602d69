//! Input lines.

ghost use Rattle.std.specs.Prelude.{◌≡◌, ◌≢◌, ◌+◌, ◌<◌, ◌≤◌, ◌^◌, ℕ, length, slice_index_or};
ghost use Rattle.tv_model.specs.Kinds.InputLine.{first_shown, arrow_cell, input_cell, text_role};

use crate::row::{put, text_char, write_over};
use tv_cells::{Cell, Face};
use tv_palette::{Chain, InputRole, Role};

/// The attributes of an input line.
#[derive(Clone, Copy)]
pub struct InputColours {
    pub normal: u8,
    /// Of selected text.
    pub selected: u8,
    pub arrow: u8,
    pub cursor: u8,
}

impl InputColours {
    ghost use Rattle.tv_faces.specs.Inputs.{input_attr, colours_of};

    /// Returns the attributes to which the chain of the dialog leads.
    pub fn of(chain: &Chain) -> InputColours
        ensures { result ≡ colours_of chain.now }
    {
        InputColours {
            normal: Role::Input(InputRole::Normal).attr(chain),
            selected: Role::Input(InputRole::SelectedText).attr(chain),
            arrow: Role::Input(InputRole::Arrow).attr(chain),
            cursor: Role::Input(InputRole::Cursor).attr(chain),
        }
    }

    fn attr(self, role: InputRole) -> u8
        ensures { result ≡ input_attr self role }
    {
        match role {
            InputRole::Normal => self.normal,
            InputRole::SelectedText => self.selected,
            InputRole::Arrow => self.arrow,
            InputRole::Cursor => self.cursor,
        }
    }
}

/// An input line of a dialog.
#[derive(Clone, Copy)]
pub struct InputFace<'a> {
    pub width: u32,
    pub text: &'a [char],
    /// The place of the cursor in the text.
    pub cursor: u32,
    /// Whether the whole text is selected.
    pub is_whole: bool,
    /// Whether it has the focus, without which neither the cursor nor the selection shows.
    pub is_focused: bool,
    pub colours: InputColours,
}

/// Returns the first place of the text that an input of a width shows.
pub fn first_shown(width: u32, cursor: u32) -> u32
    ensures value { result ≡ first_shown width cursor }
    ensures within { result ≤ cursor }
{
    cursor.saturating_sub(width.saturating_sub(3))
}

// What an end shows: an arrow where text is hidden there.
fn arrow(is_hidden: bool, ch: char) -> (char, InputRole)
    ensures ch { result.0 ≡ (arrow_cell is_hidden ch).ch }
    ensures role { result.1 ≡ (arrow_cell is_hidden ch).role }
{
    if is_hidden {
        (ch, InputRole::Arrow)
    } else {
        (' ', InputRole::Normal)
    }
}

impl InputFace<'_> {
    ghost use Rattle.std.specs.Prelude.{◌&&◌, ◌-◌, if◌then◌else◌};
    ghost use Rattle.tv_cells.specs.Glyph.{blank};
    ghost use Rattle.tv_faces.specs.Inputs.{input_cells, place_cell, seen_edit};

    fn text_role(&self, place: usize) -> InputRole
        ensures { result ≡ text_role self.now.is_focused (seen_edit self.now.text.now self.now.cursor self.now.is_whole) place }
    {
        if self.is_focused && place == self.cursor as usize {
            InputRole::Cursor
        } else if self.is_focused && (self.is_whole && place < self.text.len()) {
            InputRole::SelectedText
        } else {
            InputRole::Normal
        }
    }

    // The attribute of the text, which a cursor on it doesn't have.
    fn text_attr(&self) -> u8
        ensures { result ≡ (if self.now.is_focused && self.now.is_whole then self.now.colours.selected else self.now.colours.normal) }
    {
        if self.is_focused && self.is_whole {
            self.colours.selected
        } else {
            self.colours.normal
        }
    }

    // The text from a place in column 1 on, without a cursor. Column 0 is left to be written.
    fn write_places(&self, first: usize, from: usize, cells: &mut [Cell])
        requires { from + length cells.old ≤ 2 ^ 32 }
        ensures count { length cells.new ≡ length cells.old }
        ensures cells { (i : ℕ) → i < length cells.new → 0 < from + i
            → slice_index_or cells.new i blank
            ≡ place_cell self.now.colours self.now.is_focused
            (seen_edit self.now.text.now self.now.cursor self.now.is_whole) (first + (from + i) - 1) }
    {
        let shown = &self.text[first.min(self.text.len())..];
        cells.fill(Cell::space(self.colours.normal));
        write_over(shown, self.text_attr(), 1, from, cells);
    }

    // The text and the cursor. The columns of the arrows are left to be written.
    fn write_text(&self, from: usize, cells: &mut [Cell])
        requires { from + length cells.old ≤ 2 ^ 32 }
        ensures count { length cells.new ≡ length cells.old }
        ensures cells { (i : ℕ) → i < length cells.new → 0 < from + i → from + i + 1 ≢ self.now.width
            → slice_index_or cells.new i blank
            ≡ input_cells self.now.colours self.now.width self.now.is_focused
            (seen_edit self.now.text.now self.now.cursor self.now.is_whole) (from + i) 0 }
    {
        let first = first_shown(self.width, self.cursor) as usize;
        self.write_places(first, from, cells);
        if self.is_focused {
            let cursor = self.cursor as usize;
            let cell = Cell::shown(text_char(self.text, cursor), self.colours.cursor);
            put(cell, cursor + 1 - first, from, cells);
        }
    }

    fn cell(&self, x: u32) -> (char, InputRole)
        ensures ch { result.0
            ≡ (input_cell self.now.width self.now.is_focused (seen_edit self.now.text.now self.now.cursor self.now.is_whole) x).ch }
        ensures role { result.1
            ≡ (input_cell self.now.width self.now.is_focused (seen_edit self.now.text.now self.now.cursor self.now.is_whole) x).role }
    {
        let first = first_shown(self.width, self.cursor) as usize;
        let width = self.width as usize;
        let x = x as usize;
        if x == 0 {
            return arrow(0 < first, '<');
        }
        if x + 1 == width {
            return arrow((first + width).saturating_sub(2) < self.text.len(), '>');
        }
        let place = first + x - 1;
        (text_char(self.text, place), self.text_role(place))
    }
}

impl Face for InputFace<'_> {
    ghost use Rattle.tv_faces.specs.Inputs.{input_cells, seen_edit};

    ghost face = { λ f. input_cells f.colours f.width f.is_focused (seen_edit f.text.now f.cursor f.is_whole) };

    fn at(&self, x: u32, y: u32) -> Cell {
        let _row = y;
        let (ch, role) = self.cell(x);
        Cell::shown(ch, self.colours.attr(role))
    }

    fn row(&self, y: u32, from: u32, cells: &mut [Cell]) {
        let start = from as usize;
        self.write_text(start, cells);
        put(self.at(0, y), 0, start, cells);
        if self.width > 0 {
            let last = self.width - 1;
            put(self.at(last, y), last as usize, start, cells);
        }
    }
}
