//! Where the quotes of a line go wrong.

/// A place in a line, and what is wrong there.
#[derive(Clone, Copy, Debug)]
pub struct Slip {
    /// The column, counted from 0 in characters.
    pub column: usize,
    pub what: &'static str,
    /// How to mend it.
    pub mend: &'static str,
}

// What the characters so far leave open.
#[derive(Clone, Copy)]
enum Mode {
    Between,
    InBare,
    // In a text that begins in this column.
    InQuoted(usize),
    InEscape(usize),
    Closed,
}

// The mode after a character in this column, or what is wrong with it.
fn after(mode: Mode, ch: char, column: usize) -> Result<Mode, (&'static str, &'static str)> {
    match (mode, ch) {
        (Mode::Between | Mode::InBare | Mode::Closed, ' ') => Ok(Mode::Between),
        (Mode::Between, '"') => Ok(Mode::InQuoted(column)),
        (Mode::Between, _) => Ok(Mode::InBare),
        (Mode::InBare, '"') => Err((
            "a space is missing before this quote",
            "write a space before it",
        )),
        (Mode::InBare, _) => Ok(Mode::InBare),
        (Mode::InQuoted(_), '"') => Ok(Mode::Closed),
        (Mode::InQuoted(from), '\\') => Ok(Mode::InEscape(from)),
        (Mode::InQuoted(from), _) => Ok(Mode::InQuoted(from)),
        (Mode::InEscape(from), '"' | '\\' | 'n') => Ok(Mode::InQuoted(from)),
        (Mode::InEscape(_), _) => Err((
            "behind a backslash stands a quote, a backslash or n",
            "write `\\\\` for a backslash in a text",
        )),
        (Mode::Closed, _) => Err((
            "a space is missing behind the quote",
            "write a space before it, or `\\\"` for a quote in a text",
        )),
    }
}

/// Finds the first place where words of a line can't be told apart.
pub fn find_slip(line: &str) -> Option<Slip> {
    let mut mode = Mode::Between;
    for (column, ch) in line.chars().enumerate() {
        match after(mode, ch, column) {
            Ok(next) => mode = next,
            Err((what, mend)) => return Some(Slip { column, what, mend }),
        }
    }
    match mode {
        Mode::InQuoted(column) | Mode::InEscape(column) => Some(Slip {
            column,
            what: "the quote that ends this text is missing",
            mend: "write the quote where the text ends",
        }),
        _ => None,
    }
}
