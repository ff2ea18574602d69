//! The two files that a case is about.

use crate::part::{Asked, Part};
use std::alloc::{AllocError, Global};

/// A file, as far as the rows of a table share it.
#[derive(Clone, Copy)]
pub struct Sheet<'a> {
    pub name: &'a str,
    /// Its lines before a row and behind it, without the last line ends.
    before: Option<&'a str>,
    behind: Option<&'a str>,
}

impl<'a> Sheet<'a> {
    const NONE: Sheet<'static> = Sheet {
        name: "",
        before: None,
        behind: None,
    };

    fn new(name: &'a str, lines: Option<&'a str>) -> Sheet<'a> {
        Sheet {
            name,
            before: lines,
            behind: None,
        }
    }

    fn with_behind(self, lines: Option<&'a str>) -> Sheet<'a> {
        Sheet {
            name: self.name,
            before: self.before,
            behind: lines,
        }
    }

    fn text(&self, alloc: Global, row: &str) -> Result<String, AllocError> {
        let mut text = String::new(alloc);
        push_lines(&mut text, self.before)?;
        text.push_str(row)?;
        push_lines(&mut text, self.behind)?;
        Ok(text)
    }
}

/// The lines of a text without the last line end, or nothing if it has none.
pub fn lines_of(text: &str) -> Option<&str> {
    text.strip_suffix("\n")
}

/// Adds lines to a text.
pub fn push_lines(text: &mut String, lines: Option<&str>) -> Result<(), AllocError> {
    match lines {
        Some(lines) => {
            text.push_str(lines)?;
            text.push('\n')
        }
        None => Ok(()),
    }
}

/// The description and the file beside it, and what the cases on them are about.
#[derive(Clone, Copy)]
pub struct Desk<'a> {
    pub remark: &'a str,
    pub file: Sheet<'a>,
    pub beside: Sheet<'a>,
    /// The file beside the description was put up last, so that rows stand there.
    has_rows_beside: bool,
    /// Descriptions of version 1 are asked about as ones of version 2 too.
    has_versions: bool,
}

impl<'a> Desk<'a> {
    /// No files.
    pub const EMPTY: Desk<'static> = Desk {
        remark: "",
        file: Sheet::NONE,
        beside: Sheet::NONE,
        has_rows_beside: false,
        has_versions: false,
    };

    /// Two files, by their names and texts. Both versions are asked about.
    pub fn stored(
        remark: &'a str,
        file: (&'a str, &'a str),
        beside: (&'a str, &'a str),
    ) -> Desk<'a> {
        Desk {
            remark,
            file: Sheet::new(file.0, lines_of(file.1)),
            beside: Sheet::new(beside.0, lines_of(beside.1)),
            has_rows_beside: true,
            has_versions: true,
        }
    }

    /// The same after a part that performs nothing.
    pub fn with(mut self, asked: Asked<'a>, part: Part<'a>) -> Desk<'a> {
        match asked {
            Asked::Remark(remark) => self.remark = remark,
            Asked::Versions => self.has_versions = true,
            Asked::File(name) => {
                self.file = Sheet::new(name, part.lines);
                self.has_rows_beside = false;
            }
            Asked::Beside(name) => {
                self.beside = Sheet::new(name, part.lines);
                self.has_rows_beside = true;
            }
            Asked::Behind if self.has_rows_beside => {
                self.beside = self.beside.with_behind(part.lines);
            }
            Asked::Behind => self.file = self.file.with_behind(part.lines),
            Asked::Perform(_) | Asked::Table(_) => {}
        }
        self
    }

    /// The same texts in version 2 of the language, if they are to be asked about and the description is of version 1.
    pub fn later(&self, alloc: Global, texts: &Texts) -> Result<Option<Texts>, AllocError> {
        if !self.has_versions || !texts.file.starts_with("tvd 1\n") {
            return Ok(None);
        }
        let file = in_version_two(alloc, &texts.file)?;
        let beside = in_version_two(alloc, &texts.beside)?;
        Ok(Some(Texts { file, beside }))
    }

    /// Both texts, with an edit of the file that was put up last, or nothing if the old lines don't stand there.
    pub fn edited(&self, alloc: Global, old: &str, new: &str) -> Result<Option<Texts>, AllocError> {
        let mut texts = self.texts(alloc, "")?;
        let text = if self.has_rows_beside {
            &mut texts.beside
        } else {
            &mut texts.file
        };
        let Some((before, after)) = text.split_once(old) else {
            return Ok(None);
        };
        let edited = format!(in alloc; "{before}{new}{after}")?;
        *text = edited;
        Ok(Some(texts))
    }

    /// Both texts, with a row where rows stand.
    pub fn texts(&self, alloc: Global, row: &str) -> Result<Texts, AllocError> {
        let (own, other) = if self.has_rows_beside {
            ("", row)
        } else {
            (row, "")
        };
        let file = self.file.text(alloc, own)?;
        let beside = self.beside.text(alloc, other)?;
        Ok(Texts { file, beside })
    }
}

/// The texts of both files.
#[derive(Drop)]
pub struct Texts {
    pub file: String,
    pub beside: String,
}

/// A description or a certificate of version 1 as one of version 2, and any other text as it is.
pub fn in_version_two(alloc: Global, text: &str) -> Result<String, AllocError> {
    if let Some(rest) = text.strip_prefix("tvd 1\n") {
        return format!(in alloc; "tvd 2\n{rest}");
    }
    match text.strip_prefix("tvcert 1\n") {
        Some(rest) => format!(in alloc; "tvcert 2\n{rest}"),
        None => String::from_str(alloc, text),
    }
}
