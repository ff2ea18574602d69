//! What is wrong with a line that can't be read.

use crate::complaint::Complaint;
use crate::context::{Context, Unclosed};
use crate::fitting::wrong_word;
use crate::forms::{Form, Language, form_named, form_of, nearest_keyword};
use crate::misfit::misfit;
use crate::quotes::find_slip;
use crate::spans::{Span, end_of, readable, text_at, words};
use crate::stage::Stage;
use std::alloc::{AllocError, Global};
use tv_words::{Word, words_of};

/// A line of a text: what it says that it is, as far as that can be told, and what is wrong with it.
#[derive(Drop)]
pub struct Judged {
    pub keyword: Option<&'static str>,
    pub complaint: Option<Complaint>,
}

const BYTE_ORDER_MARK: char = '\u{feff}';

// The first control character of a line, or a byte order mark at its beginning.
fn stray_in(line: &str) -> Option<(usize, char)> {
    line.chars().enumerate().find(|(column, ch)| ch.is_control()
        || (*column == 0 && *ch == BYTE_ORDER_MARK))
}

fn stray_character(alloc: Global, column: usize, ch: char) -> Result<Complaint, AllocError> {
    let (name, mend) = match ch {
        '\t' => ("a tab", "indent with spaces"),
        '\r' => ("a carriage return", "save the file with Unix line ends"),
        BYTE_ORDER_MARK => (
            "a byte order mark",
            "save the file as UTF-8 without a byte order mark",
        ),
        _ => ("a control character", "remove it"),
    };
    let code = u32::from(ch);
    let message = format!(in alloc; "{name} (U+{code:04X}) can't stand in a line")?;
    let complaint = Complaint::new(alloc, &message, Span::at(column), "here")?;
    complaint.mended_by(alloc, mend)
}

// A line that is no UTF-8 behind these characters.
fn bad_encoding(alloc: Global, readable: &str) -> Result<Complaint, AllocError> {
    let span = Span::at(readable.chars().count());
    let complaint = Complaint::new(
        alloc,
        "this line isn't UTF-8",
        span,
        "no character begins so",
    )?;
    complaint.mended_by(alloc, "save the file as UTF-8")
}

// A line whose words can't be told apart.
fn bad_quotes(alloc: Global, line: &str) -> Result<Complaint, AllocError> {
    let message = "the words of this line can't be told apart";
    match find_slip(line) {
        Some(slip) => {
            let complaint = Complaint::new(alloc, message, Span::at(slip.column), slip.what)?;
            complaint.mended_by(alloc, slip.mend)
        }
        None => Complaint::new(alloc, message, Span::at(0), "here"),
    }
}

// Where the first word of a line stands.
fn keyword_span(alloc: Global, line: &str) -> Result<Span, AllocError> {
    let spans = words(alloc, line)?;
    Ok(spans.first().copied().unwrap_or(end_of(line)))
}

// How to mend a line that begins with no keyword.
fn keyword_mend(
    alloc: Global,
    nearest: Option<&'static str>,
    stage: Stage,
) -> Result<String, AllocError> {
    match nearest {
        Some(keyword) => format!(in alloc; "did you mean `{keyword}`?"),
        None => {
            let beginnings = stage.beginnings();
            format!(in alloc; "begin the line with {beginnings}")
        }
    }
}

// A line that begins with no keyword, but maybe with one that is near to this one.
fn unknown_keyword(
    alloc: Global,
    line: &str,
    nearest: Option<&'static str>,
    stage: Stage,
) -> Result<Complaint, AllocError> {
    let span = keyword_span(alloc, line)?;
    let found = text_at(alloc, line, span)?;
    let message = format!(in alloc; "no line begins with {found}")?;
    let mend = keyword_mend(alloc, nearest, stage)?;
    let complaint = Complaint::new(alloc, &message, span, "a keyword is wanted here")?;
    complaint.mended_by(alloc, &mend)
}

// The place of the first number behind `start` that isn't above the one before.
fn falling(found: &[Word]) -> Option<usize> {
    let mut before = None;
    let mut place = None;
    for (at, word) in found.iter().enumerate() {
        let number = word.number();
        if word.is(b"start") {
            place = None;
        } else if let (Some(last), Some(this)) = (before, number)
            && this <= last
            && place.is_none()
        {
            place = Some(at);
        }
        before = number;
    }
    place
}

fn not_rising(
    alloc: Global,
    line: &str,
    form: &Form,
    found: &[Word],
) -> Result<Complaint, AllocError> {
    let spans = words(alloc, line)?;
    let span = match falling(found) {
        Some(at) => spans.get(at).copied(),
        None => None,
    };
    let span = span.unwrap_or(end_of(line));
    let message = "the numbers behind `start` rise";
    let complaint = Complaint::new(alloc, message, span, "not above the one before")?;
    Ok(complaint.of_form(form))
}

// A line that is spelled right and can't stand here.
fn misplaced(
    alloc: Global,
    line: &str,
    form: &Form,
    found: &[Word],
    context: &Context,
) -> Result<Complaint, AllocError> {
    let (stage, keyword) = (context.stage, form.keyword());
    if keyword == "checks" && falling(found).is_some() {
        return not_rising(alloc, line, form, found);
    }
    let span = keyword_span(alloc, line)?;
    let complaint = Complaint::new(alloc, stage.refuses(keyword), span, "not here")?;
    if stage.lacks_end(keyword) {
        Ok(complaint.behind(context.innermost()))
    } else {
        Ok(complaint)
    }
}

// Whether a text that is to be typed has a line end.
fn types_a_line_end(found: &[Word]) -> bool {
    match found.get(1).and_then(Word::text) {
        Some(text) => text.as_slice().contains(&'\n'),
        None => false,
    }
}

// Whether a line of this form, which its words fit, can't come here.
fn is_refused(form: &Form, found: &[Word], stage: Stage) -> bool {
    let keyword = form.keyword();
    !stage.takes(keyword)
        || (keyword == "checks" && falling(found).is_some())
        || (keyword == "type" && types_a_line_end(found))
}

// What is wrong with a line of this form and these words.
fn judge_form(
    alloc: Global,
    line: &str,
    form: &Form,
    found: &[Word],
    context: &Context,
) -> Result<Option<Complaint>, AllocError> {
    Ok(match wrong_word(form, found) {
        Some(wrong) => Some(misfit(alloc, line, form, found, wrong)?),
        None if is_refused(form, found, context.stage) => {
            Some(misplaced(alloc, line, form, found, context)?)
        }
        None => None,
    })
}

// What is wrong with a line of these words.
fn judge_words(
    alloc: Global,
    language: Language,
    line: &str,
    found: &[Word],
    context: &Context,
) -> Result<Judged, AllocError> {
    let Some(first) = found.first() else {
        return Ok(Judged {
            keyword: None,
            complaint: None,
        });
    };
    if let Some(form) = form_of(language, first) {
        return Ok(Judged {
            keyword: Some(form.keyword()),
            complaint: judge_form(alloc, line, form, found, context)?,
        });
    }
    let keyword = nearest_keyword(alloc, language, line)?;
    Ok(Judged {
        keyword,
        complaint: Some(unknown_keyword(alloc, line, keyword, context.stage)?),
    })
}

/// Returns the keyword that a line begins with, if it is one.
pub fn keyword_in(language: Language, line: &str) -> Option<&'static str> {
    let word = line
        .trim_start_matches(BYTE_ORDER_MARK)
        .split_whitespace()
        .next()?;
    Some(form_named(language, word)?.keyword())
}

/// Says what is wrong with a line that stands here, if anything is.
pub fn judge(
    alloc: Global,
    language: Language,
    line: &[u8],
    context: &Context,
) -> Result<Judged, AllocError> {
    let text = readable(line);
    let complaint = if let Some((column, ch)) = stray_in(text) {
        stray_character(alloc, column, ch)?
    } else if text.len() < line.len() {
        bad_encoding(alloc, text)?
    } else if let Some(found) = words_of(alloc, line)? {
        return judge_words(alloc, language, text, found.as_slice(), context);
    } else {
        bad_quotes(alloc, text)?
    };
    Ok(Judged {
        keyword: keyword_in(language, text),
        complaint: Some(complaint),
    })
}

// A line of which nothing else is known to be wrong than that it can't stand here.
fn refused_here(
    alloc: Global,
    language: Language,
    line: &[u8],
    context: &Context,
) -> Result<Complaint, AllocError> {
    let text = readable(line);
    let keyword = keyword_in(language, text).unwrap_or("");
    let span = keyword_span(alloc, text)?;
    Complaint::new(alloc, context.stage.refuses(keyword), span, "not here")
}

/// Says what is wrong with a line that can't be read here.
pub fn complaint_about(
    alloc: Global,
    language: Language,
    line: &[u8],
    context: &Context,
) -> Result<Complaint, AllocError> {
    match judge(alloc, language, line, context)?.complaint {
        Some(complaint) => Ok(complaint),
        None => refused_here(alloc, language, line, context),
    }
}

// What is said where the text ends.
const TEXT_END: &str = "the text ends here";

// What has to be closed before the text may end.
fn missing_end(alloc: Global, unclosed: Unclosed) -> Result<Complaint, AllocError> {
    let Unclosed { line, keyword } = unclosed;
    let message = format!(in alloc;
        "the text ends too early: the `end` of the {keyword} in line {line} is missing"
    )?;
    let mend = format!(in alloc; "write `end` where the {keyword} ends")?;
    let complaint = Complaint::new(alloc, &message, Span::at(0), TEXT_END)?;
    complaint.behind(Some(unclosed)).mended_by(alloc, &mend)
}

/// Says which line is missing where the text ends here.
pub fn missing_line(alloc: Global, context: &Context) -> Result<Complaint, AllocError> {
    match context.innermost() {
        Some(unclosed) => missing_end(alloc, unclosed),
        None => Complaint::new(alloc, context.stage.missing(), Span::at(0), TEXT_END),
    }
}
