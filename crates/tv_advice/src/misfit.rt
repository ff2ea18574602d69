//! What is wrong with a word that doesn't fit the form of its line.

use crate::complaint::Complaint;
use crate::fitting::{Want, Wrong};
use crate::forms::{Form, Rest};
use crate::meant::{further_words, meant};
use crate::spans::{Span, end_of, text_at, words};
use std::alloc::{AllocError, Global};
use tv_words::Word;

// What a word has to be, and what is said of one that isn't.
fn described(want: Want) -> (&'static str, &'static str) {
    match want {
        Want::Num => ("a NUM", "a number is wanted here"),
        Want::Name => (
            "a NAME",
            "a name is wanted here: a lower-case letter, then up to 19 of a-z, 0-9 and -",
        ),
        Want::Str => ("a STR", "a quoted text is wanted here"),
        Want::Marked => (
            "a MARKED",
            "a quoted text is wanted here, with one letter between two ~ at most",
        ),
        Want::Command => ("a COMMAND", "a command or its number is wanted here"),
        Want::Key => ("a KEY", "a key is wanted here"),
        Want::Letter => ("a LETTER", "a digit or a letter from A to Z is wanted here"),
        Want::This(word) => (word, "this keyword is wanted here"),
        Want::Domain => (
            "a domain",
            "`any`, `filter`, `range` or `picture` is wanted here",
        ),
        Want::Nothing => ("nothing", "the line ends before this word"),
    }
}

// How a word in the place of another is mended in most cases, this being the one behind it.
fn usual_mend(form: &Form, want: Want, found: &str, next: Option<&Word>) -> Option<&'static str> {
    let is_further = further_words(form.rest).contains(&found);
    let is_number = next.is_some_and(|word| word.number().is_some());
    match want {
        Want::This("ends") if further_words(Rest::Ends).contains(&found) => {
            Some("write `ends` before it")
        }
        Want::This("when") if is_number => Some("write `when` before it"),
        Want::This("start") if found.parse::<i32>().is_ok() => Some("write `start` before it"),
        Want::Num if found.starts_with("\"") => Some("write the number before it that is missing"),
        Want::Str | Want::Marked if is_further => Some("write a quoted text before it"),
        Want::Key => Some("write it as Enter, F10, Alt-X or Ctrl-C are written"),
        Want::Command => Some("write quit, menu, close, next, ok, cancel, yes, no or a number"),
        _ => None,
    }
}

// How to mend a word, which stands before this one, where another is wanted.
fn word_mend(
    alloc: Global,
    form: &Form,
    want: Want,
    found: &str,
    next: Option<&Word>,
) -> Result<Option<String>, AllocError> {
    if let Some(meant) = meant(alloc, form, want, found)? {
        return Ok(Some(format!(in alloc; "did you mean `{meant}`?")?));
    }
    if let Some(mend) = usual_mend(form, want, found, next) {
        return Ok(Some(String::from_str(alloc, mend)?));
    }
    match want {
        Want::This(word) => Ok(Some(format!(in alloc; "write `{word}` here")?)),
        _ => Ok(None),
    }
}

// The order of the words that may end such a line.
fn order_of(rest: Rest) -> &'static str {
    match rest {
        Rest::Ends => "the order is ok, cancel, yes, no, each once at most",
        Rest::Button => "the order is default, grab, each once at most",
        Rest::Domain => "the order is validate, optional, fill, each once at most",
        _ => "the line ends before this word",
    }
}

// A word of a line, as it stands there.
#[derive(Clone, Copy)]
struct FoundWord<'a> {
    span: Span,
    text: &'a str,
}

// A word that may stand in the line, but not behind those before it.
fn out_of_order(alloc: Global, form: &Form, found: FoundWord<'_>) -> Result<Complaint, AllocError> {
    let text = found.text;
    let message = format!(in alloc; "`{text}` can't stand behind the words before it")?;
    let complaint = Complaint::new(alloc, &message, found.span, order_of(form.rest))?;
    let complaint = complaint.of_form(form);
    complaint.mended_by(alloc, "bring these words into their order")
}

// What a word has to be, as a message says it: a keyword between quotes.
fn wanted_text(alloc: Global, want: Want) -> Result<String, AllocError> {
    match want {
        Want::This(word) => format!(in alloc; "`{word}`"),
        _ => {
            let (what, _) = described(want);
            String::from_str(alloc, what)
        }
    }
}

// A word that isn't there.
fn missing_word(
    alloc: Global,
    line: &str,
    form: &Form,
    wrong: Wrong,
) -> Result<Complaint, AllocError> {
    let what = wanted_text(alloc, wrong.want)?;
    let (_, label) = described(wrong.want);
    let (called, place) = (form.called, wrong.at.saturating_add(1));
    let message = format!(in alloc; "{called} needs {what} as its word {place}")?;
    let complaint = Complaint::new(alloc, &message, end_of(line), label)?;
    Ok(complaint.of_form(form))
}

// What is said of a word that is another than is wanted.
fn other_text(alloc: Global, form: &Form, wrong: Wrong, found: &str) -> Result<String, AllocError> {
    let (called, place) = (form.called, wrong.at.saturating_add(1));
    if wrong.want == Want::Nothing {
        return format!(in alloc; "{called} has no word {place}");
    }
    let what = wanted_text(alloc, wrong.want)?;
    format!(in alloc; "{called} needs {what} as its word {place}, not {found}")
}

// A word that is another than is wanted.
fn other_word(
    alloc: Global,
    form: &Form,
    wrong: Wrong,
    found: FoundWord<'_>,
) -> Result<Complaint, AllocError> {
    let message = other_text(alloc, form, wrong, found.text)?;
    let (_, label) = described(wrong.want);
    let complaint = Complaint::new(alloc, &message, found.span, label)?;
    Ok(complaint.of_form(form))
}

// What is wrong with the word at this place, which is there.
fn misfit_at(
    alloc: Global,
    form: &Form,
    wrong: Wrong,
    found: FoundWord<'_>,
    next: Option<&Word>,
) -> Result<Complaint, AllocError> {
    if wrong.want == Want::Nothing && further_words(form.rest).contains(&found.text) {
        return out_of_order(alloc, form, found);
    }
    let mend = word_mend(alloc, form, wrong.want, found.text, next)?;
    let complaint = other_word(alloc, form, wrong, found)?;
    Ok(Complaint { mend, ..complaint })
}

/// Says what is wrong with a word that doesn't fit the line's form.
pub fn misfit(
    alloc: Global,
    line: &str,
    form: &Form,
    list: &[Word],
    wrong: Wrong,
) -> Result<Complaint, AllocError> {
    let spans = words(alloc, line)?;
    match spans.get(wrong.at).copied() {
        Some(span) => {
            let word = text_at(alloc, line, span)?;
            let next = list.get(wrong.at.saturating_add(1));
            let found = FoundWord { span, text: &word };
            misfit_at(alloc, form, wrong, found, next)
        }
        None => missing_word(alloc, line, form, wrong),
    }
}
