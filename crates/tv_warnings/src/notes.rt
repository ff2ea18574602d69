//! Where what is said of a finding stands.

ghost use Rattle.std.specs.Prelude.{◌≡◌, IfOk, slice_index};

use crate::page::Page;
use crate::saying::{Elsewhere, Part, Remark, Saying};
use std::alloc::{AllocError, Global};
use tv_advice::{Note, Span, Warning, text_at, words};
use tv_model::Id;

// From the first of these words to the last.
fn span_of_all(words: &[Span]) -> Option<Span> {
    let first = words.first()?;
    let last = words.last()?;
    Some(Span::between(first.column, last.end()))
}

// Whether the word at the place is quoted.
fn is_quoted(alloc: Global, line: &str, word: Span) -> Result<bool, AllocError> {
    Ok(text_at(alloc, line, word)?.as_str().starts_with("\""))
}

// The place of the quoted word with this number, from 0.
fn quoted(
    alloc: Global,
    line: &str,
    words: &[Span],
    number: usize,
) -> Result<Option<usize>, AllocError> {
    let mut left = number;
    for (place, word) in words.iter().enumerate() {
        if is_quoted(alloc, line, *word)? {
            if left == 0 {
                return Ok(Some(place));
            }
            left -= 1;
        }
    }
    Ok(None)
}

// The place of the last word that is this one.
fn named(
    alloc: Global,
    line: &str,
    words: &[Span],
    name: &str,
) -> Result<Option<usize>, AllocError> {
    let mut found = None;
    for (place, word) in words.iter().enumerate() {
        if text_at(alloc, line, *word)?.as_str() == name {
            found = Some(place);
        }
    }
    Ok(found)
}

// Where a part of a line stands.
fn span_of(alloc: Global, line: &str, part: Part) -> Result<Option<Span>, AllocError> {
    let words = words(alloc, line)?;
    let place = match part {
        Part::Word(place) => Some(place),
        Part::Named(name) => named(alloc, line, &words, name)?,
        Part::Quoted(number) => quoted(alloc, line, &words, number)?,
        Part::BehindQuoted => match quoted(alloc, line, &words, 0)? {
            Some(place) => place.checked_add(1),
            None => None,
        },
        Part::All => return Ok(span_of_all(&words)),
    };
    Ok(match place {
        Some(place) => words.get(place).copied(),
        None => None,
    })
}

// The remark, on the line of the text that has what stands on this one of the canonical text.
fn noted(alloc: Global, page: &Page, id: Id, remark: Remark) -> Result<Note, AllocError>
    ensures { IfOk result (λ note. note.line ≡ slice_index page.now.places id.0) }
{
    let Remark { part, label } = remark;
    let line = page.line(id);
    let span = span_of(alloc, page.index.line(line), part)?;
    let Span { column, len } = span.unwrap_or(Span { column: 0, len: 1 });
    Ok(Note {
        line,
        column,
        len,
        label,
    })
}

// The remark on the other line, where there is one.
fn noted_other(
    alloc: Global,
    page: &Page,
    other: Option<Elsewhere>,
) -> Result<Option<Note>, AllocError> {
    match other {
        Some(Elsewhere { line, remark }) => Ok(Some(noted(alloc, page, line, remark)?)),
        None => Ok(None),
    }
}

/// Finds where what is said of the finding stands, its own line being this one of the canonical text.
pub(crate) fn warning_on(
    alloc: Global,
    page: &Page,
    own: Id,
    saying: Saying,
) -> Result<Warning, AllocError>
    ensures { IfOk result (λ warning. warning.own.line ≡ slice_index page.now.places own.0) }
{
    let Saying {
        message,
        own: remark,
        other,
        met,
        mend,
    } = saying;
    Ok(Warning {
        message,
        own: noted(alloc, page, own, remark)?,
        other: noted_other(alloc, page, other)?,
        met,
        mend,
    })
}
