//! A text after a space, in the row of a face.

ghost use Rattle.std.specs.Prelude.{◌≡◌, ◌+◌, ◌<◌, ◌≤◌, ◌^◌, ℕ, length};
ghost use Rattle.tv_machine.specs.Screen.Bars.{columns_of, marked_cell};
ghost use Rattle.tv_model.specs.Controls.Look.{is_mark_from};

use crate::colours::bar_colour;
use tv_cells::Cell;
use tv_faces::char_after_space;
use tv_model::MarkedText;

/// A text with a space before it and spaces behind it, and its marked letter in a colour of its own.
#[derive(Clone, Copy)]
pub(crate) struct SpacedText<'a> {
    pub(crate) text: &'a [char],
    /// The place of the marked letter in the text, from 0.
    pub(crate) mark: Option<usize>,
    pub(crate) rest: u8,
    pub(crate) letter: u8,
}

// Whether the column shows the marked letter of a text behind a space.
fn is_mark(mark: Option<usize>, column: usize) -> bool
    ensures { result ≡ is_mark_from 1 mark column }
{
    match mark {
        Some(place) => column >= 1 && column - 1 == place,
        None => false,
    }
}

impl<'a> SpacedText<'a> {
    ghost use Rattle.tv_menu.specs.Cells.{ChangesRow, over_columns, spaced_cell};

    /// Makes a title of the bar or an item of a menu's box, by whether it is the open or the current one.
    pub(crate) fn of_bar(text: &'a MarkedText, is_selected: bool) -> SpacedText<'a>
        ensures cells { (column : ℕ) → spaced_cell result column ≡ marked_cell is_selected text.now column }
        ensures text { result.text.now ≡ text.now.text }
    {
        SpacedText {
            text: text.text.as_slice(),
            mark: text.mark,
            rest: bar_colour(is_selected, false),
            letter: bar_colour(is_selected, true),
        }
    }

    fn at(&self, column: usize) -> Cell
        ensures { result ≡ spaced_cell self.now column }
    {
        let attr = if is_mark(self.mark, column) {
            self.letter
        } else {
            self.rest
        };
        Cell::shown(char_after_space(self.text, column), attr)
    }

    /// Writes `count` of its columns into a row, from column `first` on. The first of the cells stands in column
    /// `from`.
    pub(crate) fn write(&self, first: usize, count: usize, from: usize, cells: &mut [Cell])
        requires columns { first + count < 2 ^ 64 }
        requires cells { from + length cells.old < 2 ^ 64 }
        ensures { ChangesRow (over_columns first count (spaced_cell self.now)) from cells.old cells.new }
    {
        let start = first.saturating_sub(from);
        let end = (first + count).saturating_sub(from).min(cells.len());
        for i in start..end {
            cells[i] = self.at(from + i - first);
        }
    }
}
