//! Where the words of a line stand.

use std::alloc::{AllocError, Global};
use tv_words::Lines;

/// A place in a line: a column, counted from 0, and how many columns, both in characters.
#[derive(Clone, Copy, Debug, PartialEq, Eq)]
pub struct Span {
    pub column: usize,
    pub len: usize,
}

impl Span {
    /// Returns the place of one character.
    pub fn at(column: usize) -> Span {
        Span { column, len: 1 }
    }

    /// Returns the place from this column up to that one.
    pub fn between(from: usize, end: usize) -> Span {
        Span {
            column: from,
            len: end.saturating_sub(from),
        }
    }

    /// Returns the column behind it.
    pub fn end(self) -> usize {
        self.column.saturating_add(self.len)
    }
}

// What the characters so far leave open.
#[derive(Clone, Copy)]
enum Mode {
    Between,
    InBare(usize),
    InQuoted(usize),
    InEscape(usize),
}

impl Mode {
    // The mode after a character in this column.
    fn after(self, ch: char, column: usize) -> Mode {
        match (self, ch) {
            (Mode::Between | Mode::InBare(_), ' ') => Mode::Between,
            (Mode::Between, '"') => Mode::InQuoted(column),
            (Mode::Between, _) => Mode::InBare(column),
            (Mode::InQuoted(_), '"') => Mode::Between,
            (Mode::InQuoted(from), '\\') => Mode::InEscape(from),
            (Mode::InEscape(from), _) => Mode::InQuoted(from),
            (mode, _) => mode,
        }
    }

    // The column in which the word begins that is open.
    fn begun(self) -> Option<usize> {
        match self {
            Mode::Between => None,
            Mode::InBare(from) | Mode::InQuoted(from) | Mode::InEscape(from) => Some(from),
        }
    }
}

/// Finds the words of a line, in order. The quotes of a quoted word belong to it.
pub fn words(alloc: Global, line: &str) -> Result<Vec<Span>, AllocError> {
    let mut found = Vec::new(alloc);
    let mut mode = Mode::Between;
    for (column, ch) in line.chars().enumerate() {
        let next = mode.after(ch, column);
        if let (Some(from), None) = (mode.begun(), next.begun()) {
            let end = if ch == '"' {
                column.saturating_add(1)
            } else {
                column
            };
            found.push(Span::between(from, end))?;
        }
        mode = next;
    }
    if let Some(from) = mode.begun() {
        found.push(Span::between(from, line.chars().count()))?;
    }
    Ok(found)
}

/// Returns the characters of a line at this place.
pub fn text_at(alloc: Global, line: &str, span: Span) -> Result<String, AllocError> {
    let mut text = String::new(alloc);
    for ch in line.chars().skip(span.column).take(span.len) {
        text.push(ch)?;
    }
    Ok(text)
}

/// Returns where the line ends.
pub fn end_of(line: &str) -> Span {
    Span::at(line.chars().count())
}

/// Returns what of a line is UTF-8, from its beginning on.
pub fn readable(line: &[u8]) -> &str {
    match str::from_utf8(line) {
        Ok(text) => text,
        Err(error) => match line.get(..error.valid_up_to()) {
            Some(head) => str::from_utf8(head).unwrap_or(""),
            None => "",
        },
    }
}

/// Returns what can be read of the line of this number, counted from 1, or an empty one where there is none.
pub fn line_of(text: &[u8], number: usize) -> &str {
    let mut at = 0_usize;
    for line in Lines::new(text) {
        at = at.saturating_add(1);
        if at == number {
            return readable(line);
        }
    }
    ""
}

/// Returns what can be read of each line of a text.
pub fn lines_of(alloc: Global, text: &[u8]) -> Result<Vec<&str>, AllocError> {
    Lines::new(text).map(readable).collect(alloc)
}

/// Returns the line of this number among these, counted from 1, or an empty one where there is none.
pub fn line_in<'a>(lines: &[&'a str], number: usize) -> &'a str {
    match number.checked_sub(1) {
        Some(at) => lines.get(at).copied().unwrap_or(""),
        None => "",
    }
}
