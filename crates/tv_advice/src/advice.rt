//! What is told of a fault, where its words stand in the user's own lines.

ghost use Rattle.std.specs.Prelude.{◌≡◌, IfOk, IfSome, Some};
ghost use Rattle.tv_model.specs.Faults.{fault_number};
ghost use Rattle.tv_advice.specs.Advised.{IsAdviceOn};

use crate::index::Index;
use crate::note::Note;
use crate::saying::{LinePart, Remark, Saying};
use crate::spans::{Span, words};
use crate::telling::saying_for;
use std::alloc::{AllocError, Global};
use tv_explain::Explained;

/// What is told of a fault.
#[derive(Debug, Drop)]
pub struct Advice {
    /// The number of the fault, 1 to 17.
    pub number: u8,
    pub message: String,
    pub own: Note,
    /// The other line that has to do with it.
    pub other: Option<Note>,
    /// How to mend it.
    pub mend: String,
}

// From the first of these words to the last.
fn span_of_words(words: &[Span], first: usize, count: usize) -> Span {
    let last = first.saturating_add(count).saturating_sub(1);
    match (words.get(first), words.get(last).or(words.last())) {
        (Some(from), Some(to)) => Span::between(from.column, to.end()),
        (None, Some(last)) => Span::at(last.end()),
        _ => Span::at(0),
    }
}

// Where the line marks the letter: the first and the last time. A mark is the letter between two `~`.
fn marks_in(line: &str, letter: char) -> Option<(usize, usize)> {
    let mut found = None;
    let mut before = (' ', ' ');
    for (column, ch) in line.chars().enumerate() {
        if ch == '~' && before.0 == '~' && before.1.to_ascii_uppercase() == letter {
            let at = column.saturating_sub(2);
            found = match found {
                Some((first, _)) => Some((first, at)),
                None => Some((at, at)),
            };
        }
        before = (before.1, ch);
    }
    found
}

// Where a mark stands that begins in this column.
fn span_of_mark(column: Option<usize>) -> Span {
    match column {
        Some(column) => Span { column, len: 3 },
        None => Span::at(0),
    }
}

// Where a part of a line stands.
fn span_of(alloc: Global, line: &str, part: LinePart) -> Result<Span, AllocError> {
    Ok(match part {
        LinePart::Words { first, count } => {
            let words = words(alloc, line)?;
            span_of_words(&words, first, count)
        }
        LinePart::FirstMark(letter) => span_of_mark(marks_in(line, letter).map(|(first, _)| first)),
        LinePart::LastMark(letter) => span_of_mark(marks_in(line, letter).map(|(_, last)| last)),
        LinePart::At(span) => span,
    })
}

// The remark, on this line of the text.
fn noted(alloc: Global, index: &Index, line: usize, remark: Remark) -> Result<Note, AllocError>
    ensures { IfOk result (λ note. note.line ≡ line) }
{
    let Remark { part, label } = remark;
    let Span { column, len } = span_of(alloc, index.line(line), part)?;
    Ok(Note {
        line,
        column,
        len,
        label,
    })
}

// The remark on the other line, where there are both.
fn noted_other(
    alloc: Global,
    index: &Index,
    line: Option<usize>,
    remark: Option<Remark>,
) -> Result<Option<Note>, AllocError>
    ensures { IfOk result (λ other. IfSome other (λ note. line ≡ Some note.line)) }
{
    match (line, remark) {
        (Some(line), Some(remark)) => Ok(Some(noted(alloc, index, line, remark)?)),
        _ => Ok(None),
    }
}

// What is told where there is no more to tell.
fn plain_saying(alloc: Global) -> Result<Saying, AllocError> {
    Saying::new(
        alloc,
        "this line has a fault",
        LinePart::word(0),
        "here",
        "see docs/FAULTS.md",
    )
}

/// Tells what a fault is, where it stands, what else has to do with it, and how to mend it.
pub fn advise(alloc: Global, index: &Index, fault: &Explained) -> Result<Advice, AllocError>
    ensures { IfOk result (λ advice. IsAdviceOn fault.now advice) }
{
    let saying = match saying_for(alloc, index, fault, index.line(fault.line))? {
        Some(saying) => saying,
        None => plain_saying(alloc)?,
    };
    let Saying {
        message,
        own,
        other,
        mend,
    } = saying;
    Ok(Advice {
        number: fault.fault.kind.number(),
        message,
        own: noted(alloc, index, fault.line, own)?,
        other: noted_other(alloc, index, fault.other, other)?,
        mend,
    })
}
