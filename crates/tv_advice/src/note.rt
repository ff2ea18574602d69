//! Parts of lines, and what is said of them.

/// A part of a line of the user's text, and what is said of it.
#[derive(Debug, Drop)]
pub struct Note {
    /// The line, counted from 1.
    pub line: usize,
    /// The column, counted from 0 in characters.
    pub column: usize,
    /// How many characters.
    pub len: usize,
    pub label: String,
}
