//! Goes through cases, and compares what is told with what is wanted.

use crate::desk::{Desk, Texts, in_version_two, lines_of, push_lines};
use crate::part::{Asked, Part, Rows, Table};
use crate::row::{Row, is_wanted};
use crate::told::{Told, tell};
use std::alloc::{AllocError, Global};

/// Performs cases one after the other, and counts them.
#[derive(Drop)]
pub struct Judge {
    alloc: Global,
    count: u32,
    wrong: u32,
    report: String,
}

impl Judge {
    /// One that has performed none.
    pub fn new(alloc: Global) -> Judge {
        Judge {
            alloc,
            count: 0,
            wrong: 0,
            report: String::new(alloc),
        }
    }

    /// How many cases were performed.
    pub fn count(&self) -> u32 {
        self.count
    }

    /// How many of them told something else than is wanted.
    pub fn wrong(&self) -> u32 {
        self.wrong
    }

    /// What these told, and what is wanted.
    pub fn report(&self) -> &str {
        &self.report
    }

    /// Performs the cases of a file.
    pub fn take_cases(&mut self, text: &str) -> Result<(), AllocError> {
        let mut desk = Desk::EMPTY;
        let text = text.trim_end_matches('\n');
        for part in text.strip_prefix("@ ").unwrap_or(text).split("\n@ ") {
            desk = self.take_part(desk, Part::new(part))?;
        }
        Ok(())
    }

    /// Performs a script on a description, both of which are called so.
    pub fn take_run<'a>(
        &mut self,
        name: &'a str,
        texts: (&'a str, &'a str),
        log: &str,
    ) -> Result<(), AllocError> {
        let desk = Desk::stored(name, ("form.tvd", texts.0), ("form.tvs", texts.1));
        self.perform(&desk, "run form.tvd form.tvs", lines_of(log))
    }

    /// Checks a description that is called so, accepts it with its certificate, and prints it with no answers: it is written as it
    /// is printed.
    pub fn take_certificate<'a>(
        &mut self,
        name: &'a str,
        desc: &'a str,
        certificate: &'a str,
    ) -> Result<(), AllocError> {
        let desk = Desk::stored(name, ("form.tvd", desc), ("form.cert", certificate));
        self.perform(&desk, "check form.tvd", lines_of(certificate))?;
        self.perform(&desk, "accept form.tvd form.cert", Some("accepted"))?;
        let desk = Desk::stored(name, ("form.tvd", desc), ("answers.log", ""));
        self.perform(&desk, "fill form.tvd answers.log", lines_of(desc))
    }

    // Takes a part, and answers with what stands on the desk then.
    fn take_part<'a>(&mut self, desk: Desk<'a>, part: Part<'a>) -> Result<Desk<'a>, AllocError> {
        match Asked::read(part.head) {
            Some(Asked::Perform(words)) => self.perform(&desk, words, part.lines)?,
            Some(Asked::Table(table)) => self.take_rows(&desk, table, part.lines)?,
            Some(asked) => return Ok(desk.with(asked, part)),
            None => self.judge(&desk, part.head, "", "a part of a file of cases\n")?,
        }
        Ok(desk)
    }

    fn perform(
        &mut self,
        desk: &Desk<'_>,
        words: &str,
        lines: Option<&str>,
    ) -> Result<(), AllocError> {
        let mut wanted = String::new(self.alloc);
        push_lines(&mut wanted, lines)?;
        let texts = desk.texts(self.alloc, "")?;
        self.expect(desk, words, &texts, &wanted)?;
        match desk.later(self.alloc, &texts)? {
            Some(later) => {
                let wanted = in_version_two(self.alloc, &wanted)?;
                self.expect(desk, words, &later, &wanted)
            }
            None => Ok(()),
        }
    }

    // Compares what is told of these texts, with the status as a last line if it isn't 0.
    fn expect(
        &mut self,
        desk: &Desk<'_>,
        words: &str,
        texts: &Texts,
        wanted: &str,
    ) -> Result<(), AllocError> {
        let told = tell(self.alloc, words, desk, texts)?;
        let told = whole(self.alloc, &told)?;
        self.judge(desk, words, &told, wanted)
    }

    fn take_rows(
        &mut self,
        desk: &Desk<'_>,
        table: Table<'_>,
        lines: Option<&str>,
    ) -> Result<(), AllocError> {
        let mut row = Row::new(self.alloc);
        for line in lines.unwrap_or("").split('\n') {
            if row.is_whole() && !is_wanted(line) {
                self.take_row(desk, table, &row)?;
                row = Row::new(self.alloc);
            }
            row.take(self.alloc, table.rows, line)?;
        }
        self.take_row(desk, table, &row)
    }

    fn take_row(&mut self, desk: &Desk<'_>, table: Table<'_>, row: &Row) -> Result<(), AllocError> {
        let Some(texts) = texts_of(self.alloc, desk, table.rows, row)? else {
            return self.judge(desk, &row.text, "no such lines\n", &row.wanted);
        };
        self.expect_row(desk, table, &texts, &row.wanted)?;
        match desk.later(self.alloc, &texts)? {
            Some(later) => {
                let wanted = in_version_two(self.alloc, &row.wanted)?;
                self.expect_row(desk, table, &later, &wanted)
            }
            None => Ok(()),
        }
    }

    fn expect_row(
        &mut self,
        desk: &Desk<'_>,
        table: Table<'_>,
        texts: &Texts,
        wanted: &str,
    ) -> Result<(), AllocError> {
        let told = tell(self.alloc, table.words, desk, texts)?;
        if is_met(&told, wanted) {
            return self.judge(desk, &texts.file, wanted, wanted);
        }
        if told.status == table.status {
            return self.judge(desk, &texts.file, &told.text, wanted);
        }
        let told = whole(self.alloc, &told)?;
        self.judge(desk, &texts.file, &told, wanted)
    }

    // Counts a case, and reports one that tells something else.
    fn judge(
        &mut self,
        desk: &Desk<'_>,
        about: &str,
        told: &str,
        wanted: &str,
    ) -> Result<(), AllocError> {
        self.count = self.count.saturating_add(1);
        if told == wanted {
            return Ok(());
        }
        self.wrong = self.wrong.saturating_add(1);
        let alloc = self.alloc;
        let remark = desk.remark;
        self.report.push_str(&format!(in alloc;
            "{remark}\n{about}\ntold:\n{told}wanted:\n{wanted}"
        )?)
    }
}

// Both texts as a row asks for them, or nothing if it is an edit of lines that aren't there.
fn texts_of(
    alloc: Global,
    desk: &Desk<'_>,
    rows: Rows,
    row: &Row,
) -> Result<Option<Texts>, AllocError> {
    match rows {
        Rows::Edits => desk.edited(alloc, &row.text, &row.new),
        Rows::Lines | Rows::Flat => Ok(Some(desk.texts(alloc, &row.text)?)),
    }
}

// Whether what is wanted is that a text is sound or can be read, and it is so, whatever else is told.
fn is_met(told: &Told, wanted: &str) -> bool {
    match wanted {
        "sound\n" => told.status == 0,
        "read\n" => !told.text.starts_with("tvdlg: "),
        _ => false,
    }
}

// What is told, and the status if it isn't 0.
fn whole(alloc: Global, told: &Told) -> Result<String, AllocError> {
    match told.status {
        0 => String::from_str(alloc, &told.text),
        status => format!(in alloc; "{}status {status}\n", told.text),
    }
}
