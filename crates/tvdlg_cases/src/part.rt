//! The parts of a file of cases.

/// A part: a line behind `@ `, and the lines up to the next such line.
#[derive(Clone, Copy)]
pub struct Part<'a> {
    /// What the part is, and the rest of its line.
    pub head: &'a str,
    /// Its lines without the last line end, or nothing if it has none.
    pub lines: Option<&'a str>,
}

impl<'a> Part<'a> {
    /// Reads a part, from behind `@ ` to before its last line end.
    pub fn new(text: &'a str) -> Part<'a> {
        match text.split_once("\n") {
            Some((head, lines)) => Part {
                head,
                lines: Some(lines),
            },
            None => Part {
                head: text,
                lines: None,
            },
        }
    }
}

/// What a part asks for.
#[derive(Clone, Copy)]
pub enum Asked<'a> {
    /// To remember what the next cases are about.
    Remark(&'a str),
    /// To ask about descriptions of version 1 as ones of version 2 too.
    Versions,
    /// To put up the description, by its path.
    File(&'a str),
    /// To put up the file beside it.
    Beside(&'a str),
    /// To put lines behind those of a table's rows, in the file that was put up last.
    Behind,
    /// To perform these words.
    Perform(&'a str),
    /// To perform words on each row of a table.
    Table(Table<'a>),
}

/// What is performed on each row of a table.
#[derive(Clone, Copy)]
pub struct Table<'a> {
    pub words: &'a str,
    /// The status of rows that aren't sound.
    pub status: u8,
    pub rows: Rows,
}

/// How the rows of a table are written.
#[derive(Clone, Copy, PartialEq, Eq)]
pub enum Rows {
    /// As lines of a file.
    Lines,
    /// The same, with `; ` in place of line ends.
    Flat,
    /// As edits: lines behind `- ` that go out, where they stand first, and lines behind `+ ` that come in.
    Edits,
}

impl<'a> Table<'a> {
    // Reads the status and the words.
    fn read(rows: Rows, text: &'a str) -> Option<Asked<'a>> {
        let (status, words) = text.split_once(" ")?;
        let status = status.parse().ok()?;
        Some(Asked::Table(Table {
            words,
            status,
            rows,
        }))
    }
}

impl<'a> Asked<'a> {
    /// Reads the first line of a part.
    pub fn read(head: &'a str) -> Option<Asked<'a>> {
        let (word, rest) = head.split_once(" ").unwrap_or((head, ""));
        match word {
            "#" => Some(Asked::Remark(rest)),
            "versions" => Some(Asked::Versions),
            "file" => Some(Asked::File(rest)),
            "beside" => Some(Asked::Beside(rest)),
            "behind" => Some(Asked::Behind),
            "tvdlg" => Some(Asked::Perform(rest)),
            "rows" => Table::read(Rows::Lines, rest),
            "flat" => Table::read(Rows::Flat, rest),
            "edits" => Table::read(Rows::Edits, rest),
            _ => None,
        }
    }
}
