//! A text, cut into rows.

ghost use Rattle.std.specs.Prelude.{◌≡◌, ◌++◌, IfOk};
ghost use Rattle.tv_boxes.specs.Wrapping.{added, broken, is_full, lengthened, letter_added, nothing_added, rows_of, space_added, turned, without_last};

use std::alloc::{AllocError, Global};
use tv_valid::{Chars, Sequence};

/// The rows so far.
#[derive(Drop)]
pub(crate) struct Rows {
    /// Those that are whole.
    done: Sequence<Chars>,
    /// The words of the next one, with the spaces behind them.
    row: Chars,
    /// The word that comes.
    word: Chars,
}

// The text, with more characters behind it.
fn joined(text: Chars, more: &[char]) -> Result<Chars, AllocError>
    ensures { IfOk result (λ longer. longer ≡ text ++ more.now) }
{
    let mut chars = text.into_vec();
    chars.extend_from_slice(more)?;
    Ok(Chars::from_vec(chars))
}

// The words of a row, without the space behind the last one.
fn without_last(row: Chars) -> Chars
    ensures { result ≡ without_last row }
{
    let mut chars = row.into_vec();
    chars.pop();
    Chars::from_vec(chars)
}

impl Rows {
    fn new(alloc: Global) -> Rows
        ensures { result ≡ nothing_added }
    {
        Rows {
            done: Sequence::new(alloc),
            row: Chars::new(alloc),
            word: Chars::new(alloc),
        }
    }

    // Whether a row of this width has no room for one more character.
    fn is_full(&self, width: usize) -> bool
        ensures { result ≡ is_full width self.now }
    {
        width <= self.row.as_slice().len() + self.word.as_slice().len()
    }

    // Ends the row behind the word.
    fn broken(self, alloc: Global) -> Result<Rows, AllocError>
        ensures { IfOk result (λ rows. rows ≡ broken self) }
    {
        let Rows {
            mut done,
            row,
            word,
        } = self;
        done.push(joined(row, word.as_slice())?)?;
        Ok(Rows {
            done,
            row: Chars::new(alloc),
            word: Chars::new(alloc),
        })
    }

    // Ends the word. A space that the row has no room for ends the row too.
    fn space_added(self, alloc: Global, width: usize) -> Result<Rows, AllocError>
        ensures { IfOk result (λ rows. rows ≡ space_added width self) }
    {
        if self.is_full(width) {
            return self.broken(alloc);
        }
        let Rows {
            done,
            row,
            mut word,
        } = self;
        word.push(' ')?;
        let row = joined(row, word.as_slice())?;
        Ok(Rows {
            done,
            row,
            word: Chars::new(alloc),
        })
    }

    // Ends a row that has no room: before the word, or in it if that has the row for itself.
    fn turned(self, alloc: Global) -> Result<Rows, AllocError>
        ensures { IfOk result (λ rows. rows ≡ turned self) }
    {
        if self.row.as_slice().is_empty() {
            return self.broken(alloc);
        }
        let Rows {
            mut done,
            row,
            word,
        } = self;
        done.push(without_last(row))?;
        Ok(Rows {
            done,
            row: Chars::new(alloc),
            word,
        })
    }

    fn lengthened(self, letter: char) -> Result<Rows, AllocError>
        ensures { IfOk result (λ rows. rows ≡ lengthened letter self) }
    {
        let Rows {
            done,
            row,
            mut word,
        } = self;
        word.push(letter)?;
        Ok(Rows { done, row, word })
    }

    // Adds a character of a word.
    fn letter_added(self, alloc: Global, width: usize, letter: char) -> Result<Rows, AllocError>
        ensures { IfOk result (λ rows. rows ≡ letter_added width letter self) }
    {
        if self.is_full(width) {
            self.turned(alloc)?.lengthened(letter)
        } else {
            self.lengthened(letter)
        }
    }

    // Adds a character.
    fn added(self, alloc: Global, width: usize, letter: char) -> Result<Rows, AllocError>
        ensures { IfOk result (λ rows. rows ≡ added width self letter) }
    {
        match letter {
            '\n' => self.broken(alloc),
            ' ' => self.space_added(alloc, width),
            _ => self.letter_added(alloc, width, letter),
        }
    }
}

/// Cuts a text into rows: at its line feeds, and where a word would end past the width. A word that is wider than a row
/// is cut.
pub(crate) fn rows_of(
    alloc: Global,
    width: usize,
    text: &[char],
) -> Result<Sequence<Chars>, AllocError>
    ensures { IfOk result (λ rows. rows ≡ rows_of width text.now) }
{
    let mut rows = Rows::new(alloc);
    for letter in text {
        rows = rows.added(alloc, width, *letter)?;
    }
    Ok(rows.broken(alloc)?.done)
}
