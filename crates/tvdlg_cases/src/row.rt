//! The rows of a table.

use crate::part::Rows;
use std::alloc::{AllocError, Global};

/// A row, as far as it is read: its lines, and what is wanted of them.
#[derive(Drop)]
pub struct Row {
    /// The lines that are put into a file, or that an edit takes out.
    pub text: String,
    /// The lines that an edit puts in.
    pub new: String,
    pub wanted: String,
}

impl Row {
    /// One without lines.
    pub fn new(alloc: Global) -> Row {
        Row {
            text: String::new(alloc),
            new: String::new(alloc),
            wanted: String::new(alloc),
        }
    }

    /// Whether a line of what is wanted was read, behind which a further line begins another row.
    pub fn is_whole(&self) -> bool {
        !self.wanted.is_empty()
    }

    /// Adds a line: behind `=> ` one of what is wanted.
    pub fn take(&mut self, alloc: Global, rows: Rows, line: &str) -> Result<(), AllocError> {
        if let Some(wanted) = behind(line, "=>") {
            return push(alloc, rows, &mut self.wanted, wanted);
        }
        if rows == Rows::Edits
            && let Some(new) = behind(line, "+")
        {
            return push(alloc, rows, &mut self.new, new);
        }
        if rows == Rows::Edits
            && let Some(old) = behind(line, "-")
        {
            return push(alloc, rows, &mut self.text, old);
        }
        push(alloc, rows, &mut self.text, line)
    }
}

/// Whether a line is one of what is wanted.
pub fn is_wanted(line: &str) -> bool {
    line.starts_with("=>")
}

// What stands behind a mark and a blank. Where nothing does, the blank may be missing.
fn behind<'a>(line: &'a str, mark: &str) -> Option<&'a str> {
    let rest = line.strip_prefix(mark)?;
    Some(rest.strip_prefix(" ").unwrap_or(rest))
}

fn push(alloc: Global, rows: Rows, text: &mut String, line: &str) -> Result<(), AllocError> {
    if rows == Rows::Flat {
        text.push_str(&line.replace(alloc, "; ", "\n")?)?;
    } else {
        text.push_str(line)?;
    }
    text.push('\n')
}
