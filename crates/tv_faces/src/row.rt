//! Rows of characters.

ghost use Rattle.std.specs.Prelude.{◌≡◌, ◌≢◌, ◌+◌, ◌-◌, ◌<◌, ◌≤◌, ◌^◌, ◌∷◌, ℕ, length, slice_index_or};
ghost use Rattle.tv_cells.specs.Glyph.{blank, shown};
ghost use Rattle.tv_cells.specs.Row.{IsRow};
ghost use Rattle.tv_model.specs.Screen.Faces.{text_row};

use tv_cells::{Cell, NarrowChar};

/// Returns the character of a text in a column, where the text begins in column 0.
pub(crate) fn text_char(text: &[char], x: usize) -> char
    ensures { result ≡ text_row text.now x }
{
    match text.get(x) {
        Some(ch) => *ch,
        None => ' ',
    }
}

/// Returns the character in a column of a space and then a text.
pub fn char_after_space(text: &[char], x: usize) -> char
    ensures { result ≡ text_row (32 ∷ text.now) x }
{
    if x == 0 { ' ' } else { text_char(text, x - 1) }
}

/// Writes the cells of a text from a column on, and spaces after it.
pub(crate) fn write_row(text: &[char], attr: u8, from: usize, cells: &mut [Cell])
    requires { from + length cells.old ≤ 2 ^ 32 }
    ensures count { length cells.new ≡ length cells.old }
    ensures cells { IsRow (λ x. shown (text_row text.now x) attr) from cells.new }
{
    let count = text.len().saturating_sub(from).min(cells.len());
    let (front, back) = cells.split_at_mut(count);
    for (i, cell) in front.iter_mut().enumerate() {
        *cell = Cell::shown(text[from + i], attr);
    }
    back.fill(Cell::shown(' ', attr));
}

/// Puts a cell in a column, where it is among the cells from a column on.
pub(crate) fn put(cell: Cell, x: usize, from: usize, cells: &mut [Cell])
    ensures count { length cells.new ≡ length cells.old }
    ensures put { (i : ℕ) → i < length cells.new → from + i ≡ x → slice_index_or cells.new i blank ≡ cell }
    ensures kept { (i : ℕ) → i < length cells.new → from + i ≢ x → slice_index_or cells.new i blank ≡ slice_index_or cells.old i blank }
{
    if from <= x && x - from < cells.len() {
        cells[x - from] = cell;
    }
}

// The cell of a character that takes one column.
#[tactic(auto, using(crate::proofs::NarrowLemmas::shown_narrow))]
fn narrow_cell(ch: NarrowChar, attr: u8) -> Cell
    ensures { result ≡ shown ch attr }
{
    Cell::of(ch, attr)
}

/// Writes characters that begin in column 0 over cells from a column on. The other cells stay.
pub(crate) fn write_first(chars: &[NarrowChar], attr: u8, from: usize, cells: &mut [Cell])
    requires { from + length cells.old ≤ 2 ^ 32 }
    ensures count { length cells.new ≡ length cells.old }
    ensures written { (i : ℕ) → i < length cells.new → from + i < length chars.now
        → slice_index_or cells.new i blank ≡ shown (slice_index_or chars.now (from + i) 32) attr }
    ensures after { (i : ℕ) → i < length cells.new → length chars.now ≤ from + i
        → slice_index_or cells.new i blank ≡ slice_index_or cells.old i blank }
{
    let last = chars.len().saturating_sub(from).min(cells.len());
    for i in 0..last {
        cells[i] = narrow_cell(chars[from + i], attr);
    }
}

/// Writes the characters of a text that begins in column `start` over cells from a column on. The other cells stay.
pub(crate) fn write_over(text: &[char], attr: u8, start: usize, from: usize, cells: &mut [Cell])
    requires column { from + length cells.old ≤ 2 ^ 32 }
    requires start { start < 2 ^ 32 }
    ensures count { length cells.new ≡ length cells.old }
    ensures written { (i : ℕ) → i < length cells.new → start ≤ from + i → from + i < start + length text.now
        → slice_index_or cells.new i blank ≡ shown (slice_index_or text.now (from + i - start) 32) attr }
    ensures before { (i : ℕ) → i < length cells.new → from + i < start
        → slice_index_or cells.new i blank ≡ slice_index_or cells.old i blank }
    ensures after { (i : ℕ) → i < length cells.new → start + length text.now ≤ from + i
        → slice_index_or cells.new i blank ≡ slice_index_or cells.old i blank }
{
    let first = start.saturating_sub(from);
    let last = text
        .len()
        .saturating_add(start)
        .saturating_sub(from)
        .min(cells.len());
    for i in first..last {
        cells[i] = Cell::shown(text[from + i - start], attr);
    }
}
