//! What is told of a warning.

use crate::note::Note;

/// Events after which a user meets something.
#[derive(Debug, Drop)]
pub struct Met {
    /// In a line, with semicolons between.
    pub way: String,
    /// As a script, with a line for each.
    pub script: String,
}

/// What is told of a warning, where its words stand in the user's own lines.
#[derive(Debug, Drop)]
pub struct Warning {
    pub message: String,
    pub own: Note,
    /// The other line that has to do with it.
    pub other: Option<Note>,
    /// Events after which a user meets it.
    pub met: Option<Met>,
    /// How to mend it.
    pub mend: Option<String>,
}
