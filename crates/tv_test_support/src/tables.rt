//! Tables of texts, and what is answered about each.
//!
//! A table is a text. The lines of a row are those of the text that it asks about; then come lines after `=> `, which are
//! the lines of the answer.

use std::alloc::{AllocError, Global};
use std::test::Fail;
use tv_words::Lines;

/// What a table asks about the texts of its rows.
pub trait Question {
    /// The answer, each line with its line end.
    fn answer(&self, alloc: Global, text: &[u8]) -> Result<String, Fail>;
}

fn push_line(text: &mut String, line: &str) -> Result<(), AllocError> {
    text.push_str(line)?;
    text.push_str("\n")
}

/// Fails where another answer is given about a text than the wanted one.
pub fn expect_answer<Q: Question>(
    question: &Q,
    alloc: Global,
    text: &str,
    wanted: &str,
) -> Result<(), Fail> {
    let found = question.answer(alloc, text.as_bytes())?;
    if found.as_str() == wanted {
        return Ok(());
    }
    Err(Fail::new(format_args!("answered:\n{found}wanted:\n{wanted}about:\n{text}")))
}

// What is answered about a description in version 2 of the language: the same, but for the first line of a text that is printed.
fn in_version_two(alloc: Global, answer: &str) -> Result<String, AllocError> {
    if let Some(rest) = answer.strip_prefix("tvd 1\n") {
        return format!(in alloc; "tvd 2\n{rest}");
    }
    match answer.strip_prefix("tvcert 1\n") {
        Some(rest) => format!(in alloc; "tvcert 2\n{rest}"),
        None => String::from_str(alloc, answer),
    }
}

/// Fails where another answer is given about a text than the wanted one. A description of version 1 is asked about as one of
/// version 2 too: it says the same.
pub fn expect_row<Q: Question>(
    question: &Q,
    alloc: Global,
    text: &str,
    wanted: &str,
) -> Result<(), Fail> {
    expect_answer(question, alloc, text, wanted)?;
    if let Some(rest) = text.strip_prefix("tvd 1\n") {
        let later = format!(in alloc; "tvd 2\n{rest}")?;
        let wanted = in_version_two(alloc, wanted)?;
        expect_answer(question, alloc, &later, &wanted)?;
    }
    Ok(())
}

/// Fails where about some text of a table another answer is given than the one beside it.
pub fn expect_rows<Q: Question>(
    question: &Q,
    alloc: Global,
    rows: &[(&str, &str)],
) -> Result<(), Fail> {
    for (text, wanted) in rows {
        expect_row(question, alloc, text, wanted)?;
    }
    Ok(())
}

// A row of a table, as far as it is read.
#[derive(Drop)]
struct Row {
    text: String,
    wanted: String,
}

impl Row {
    fn new(alloc: Global) -> Row {
        Row {
            text: String::new(alloc),
            wanted: String::new(alloc),
        }
    }

    // Whether lines of the answer were read.
    fn is_answered(&self) -> bool {
        !self.wanted.is_empty()
    }
}

/// Fails where about some text of a table another answer is given than its row says.
///
/// The lines of a row stand between two texts that all of them share.
pub fn expect_answers<Q: Question>(
    question: &Q,
    alloc: Global,
    before: &str,
    table: &str,
    after: &str,
) -> Result<(), Fail> {
    let mut row = Row::new(alloc);
    for line in Lines::new(table.as_bytes()) {
        let line = str::from_utf8(line)?;
        if let Some(wanted) = line.strip_prefix("=> ") {
            push_line(&mut row.wanted, wanted)?;
        } else {
            if row.is_answered() {
                judge(question, alloc, before, &row, after)?;
                row = Row::new(alloc);
            }
            push_line(&mut row.text, line)?;
        }
    }
    if !row.is_answered() {
        return Err(Fail::new("the table's last row has no answer"));
    }
    judge(question, alloc, before, &row, after)
}

fn judge<Q: Question>(
    question: &Q,
    alloc: Global,
    before: &str,
    row: &Row,
    after: &str,
) -> Result<(), Fail> {
    let whole = format!(in alloc; "{before}{}{after}", row.text)?;
    expect_row(question, alloc, &whole, &row.wanted)
}
