//! Why lines of a text can't be read.

ghost use Rattle.std.specs.Prelude.{◌≡◌, IfOk};

use crate::complaint::Complaint;
use crate::context::{Context, Unclosed};
use crate::forms::{Language, nearest_keyword};
use crate::judging::{Judged, complaint_about, judge, keyword_in, missing_line};
use crate::note::Note;
use crate::spans::{Span, end_of, line_in, line_of, lines_of, readable, text_at, words};
use std::alloc::{AllocError, Global};
use std::cmp::Ordering;
use tv_words::Lines;

/// Why a line can't be read.
#[derive(Debug, Drop)]
pub struct Unread {
    pub message: String,
    pub own: Note,
    /// The line that opened what has to end before it.
    pub other: Option<Note>,
    /// The form that the line has to have.
    pub form: Option<&'static str>,
    /// How to mend it.
    pub mend: Option<String>,
}

// The most lines that are told of behind the first.
const MOST: usize = 99;

// Where it was opened.
fn opening(alloc: Global, lines: &[&str], unclosed: Unclosed) -> Result<Note, AllocError> {
    let Unclosed { line, keyword } = unclosed;
    let spans = words(alloc, line_in(lines, line))?;
    let span = match (spans.first(), spans.get(1)) {
        (Some(first), Some(second)) => Span::between(first.column, second.end()),
        (Some(first), None) => *first,
        _ => Span::at(0),
    };
    Ok(Note {
        line,
        column: span.column,
        len: span.len,
        label: format!(in alloc; "this {keyword} is open")?,
    })
}

// The complaint, on the line of this number.
fn unread_on(
    alloc: Global,
    lines: &[&str],
    complaint: Complaint,
    number: usize,
) -> Result<Unread, AllocError>
    ensures { IfOk result (λ unread. unread.own.line ≡ number) }
{
    let Complaint {
        message,
        span,
        label,
        form,
        mend,
        unclosed,
    } = complaint;
    let other = match unclosed {
        Some(unclosed) => Some(opening(alloc, lines, unclosed)?),
        None => None,
    };
    Ok(Unread {
        message,
        own: Note {
            line: number,
            column: span.column,
            len: span.len,
            label,
        },
        other,
        form,
        mend,
    })
}

// What is wrong with the line of this number.
fn complaint_at(
    alloc: Global,
    language: Language,
    text: &[u8],
    number: usize,
) -> Result<Complaint, AllocError> {
    let mut context = Context::new(alloc, language);
    let mut at = 0_usize;
    for line in Lines::new(text) {
        at = at.saturating_add(1);
        if at == number {
            return complaint_about(alloc, language, line, &context);
        }
        if let Some(keyword) = keyword_in(language, readable(line)) {
            context.pass(at, keyword)?;
        }
    }
    missing_line(alloc, &context)
}

/// Explains why the line of this number of a text can't be read, where those before it can.
pub fn explain_line(
    alloc: Global,
    language: Language,
    text: &[u8],
    number: usize,
) -> Result<Unread, AllocError>
    ensures { IfOk result (λ unread. unread.own.line ≡ number) }
{
    let lines = lines_of(alloc, text)?;
    let complaint = complaint_at(alloc, language, text, number)?;
    unread_on(alloc, &lines, complaint, number)
}

// The keyword of a line up to the first that can't be read, or of that one what it is nearest to.
fn keyword_before(
    alloc: Global,
    language: Language,
    line: &[u8],
    is_unread: bool,
) -> Result<Option<&'static str>, AllocError> {
    let text = readable(line);
    match keyword_in(language, text) {
        None if is_unread => nearest_keyword(alloc, language, text),
        keyword => Ok(keyword),
    }
}

// What is to be said of a line that stands so to the first that can't be read.
fn judge_behind(
    alloc: Global,
    language: Language,
    line: &[u8],
    context: &Context,
    place: Ordering,
) -> Result<Judged, AllocError> {
    if place == Ordering::Greater {
        return judge(alloc, language, line, context);
    }
    Ok(Judged {
        keyword: keyword_before(alloc, language, line, place == Ordering::Equal)?,
        complaint: None,
    })
}

// Whether the line of this number ends with a carriage return, as all do in a file of DOS or Windows.
fn has_return(lines: &[&str], number: usize) -> bool {
    line_in(lines, number).ends_with('\r')
}

fn without_return(line: &[u8]) -> &[u8] {
    match line {
        [text @ .., b'\r'] => text,
        _ => line,
    }
}

/// Explains why lines behind the one of this number, the first that can't be read, can't be read either: as many as are told
/// of at most. Where that one ends with a carriage return, those behind it may.
pub fn explain_behind(
    alloc: Global,
    language: Language,
    text: &[u8],
    number: usize,
) -> Result<Vec<Unread>, AllocError> {
    let lines = lines_of(alloc, text)?;
    let may_return = has_return(&lines, number);
    let mut context = Context::new(alloc, language);
    let mut found = Vec::new(alloc);
    let mut at = 0_usize;
    for whole in Lines::new(text) {
        at = at.saturating_add(1);
        if found.len() >= MOST {
            return Ok(found);
        }
        let line = if may_return {
            without_return(whole)
        } else {
            whole
        };
        let Judged { keyword, complaint } = judge_behind(
            alloc,
            language,
            line,
            &context,
            at.cmp(&number),
        )?;
        if let Some(complaint) = complaint {
            found.push(unread_on(alloc, &lines, complaint, at)?)?;
        }
        if let Some(keyword) = keyword {
            context.pass(at, keyword)?;
        }
    }
    if found.len() < MOST
        && number <= at
        && !context.stage.may_end()
        && context.innermost().is_some()
    {
        let complaint = missing_line(alloc, &context)?;
        found.push(unread_on(alloc, &lines, complaint, at.saturating_add(1))?)?;
    }
    Ok(found)
}

/// Explains that the language has no such version as the one of these lines says that has this number.
pub fn explain_version(alloc: Global, lines: &[&str], number: usize) -> Result<Unread, AllocError>
    ensures { IfOk result (λ unread. unread.own.line ≡ number) }
{
    let line = line_in(lines, number);
    let spans = words(alloc, line)?;
    let span = spans.get(1).copied().unwrap_or(end_of(line));
    let version = text_at(alloc, line, span)?;
    let message = format!(in alloc; "the language has no version {version}")?;
    let complaint = Complaint::new(alloc, &message, span, "the versions are 1 and 2")?;
    let complaint = complaint.mended_by(alloc, "write `tvd 1` or `tvd 2`")?;
    unread_on(alloc, lines, complaint, number)
}

// Where the point of a mouse line stands: its second and third words.
fn point_span(alloc: Global, line: &str) -> Result<Span, AllocError> {
    let spans = words(alloc, line)?;
    Ok(match (spans.get(1), spans.get(2)) {
        (Some(x), Some(y)) => Span::between(x.column, y.end()),
        _ => end_of(line),
    })
}

/// Explains why the point in the line of this number of a script can't be clicked: it is off a screen of so many columns and
/// rows.
pub fn explain_point(
    alloc: Global,
    text: &[u8],
    number: usize,
    width: i32,
    height: i32,
) -> Result<Unread, AllocError>
    ensures { IfOk result (λ unread. unread.own.line ≡ number) }
{
    let line = line_of(text, number);
    let span = point_span(alloc, line)?;
    let point = text_at(alloc, line, span)?;
    let message = format!(in alloc; "the point {point} is off the screen")?;
    let right = width.saturating_sub(1);
    let bottom = height.saturating_sub(1);
    let label = format!(in alloc; "columns are 0 to {right}, rows 0 to {bottom}")?;
    let complaint = Complaint::new(alloc, &message, span, &label)?;
    let complaint = complaint.mended_by(alloc, "take a point of the description's screen")?;
    unread_on(alloc, &[], complaint, number)
}
