//! What is told of inputs, starts and characters: F12 to F14.

use crate::naming::one_of_items;
use crate::pictures::{Flaw, find_flaw};
use crate::saying::{LinePart, Saying};
use crate::spans::{Span, words};
use std::alloc::{AllocError, Global};
use tv_explain::Reason;
use tv_model::{Input, Kind, Node, is_item};
use tv_reasons::Wanted;
use tv_valid::{Domain, DomainFault, DomainSpec, InputSpec};
use unicode_width::UnicodeWidthChar;

/// Returns how many words say the domain.
pub fn domain_words(spec: &InputSpec) -> usize {
    match &spec.domain {
        DomainSpec::Any => 1,
        DomainSpec::Filter(_) | DomainSpec::Picture(_) => 2,
        DomainSpec::Range { .. } => 3,
    }
}

// After how many characters the input's picture is wrong.
fn wrong_after(alloc: Global, spec: &InputSpec) -> Result<usize, AllocError> {
    match Domain::new(alloc, spec) {
        Err(DomainFault::BadPicture(place)) => Ok(place),
        Err(DomainFault::NoMemory) => Err(AllocError),
        _ => Ok(0),
    }
}

// Where the character at this place of the quoted word stands that is the eighth of the line.
fn picture_span(alloc: Global, line: &str, place: usize) -> Result<Span, AllocError> {
    let spans = words(alloc, line)?;
    let Some(word) = spans.get(7) else {
        return Ok(Span::at(0));
    };
    let mut left = place;
    let mut escape = None;
    for (column, ch) in line.chars().enumerate().skip(word.column.saturating_add(1)) {
        let from = escape.unwrap_or(column);
        if escape.is_none() && ch == '\\' {
            escape = Some(column);
        } else if left == 0 {
            return Ok(Span::between(from, column.saturating_add(1)));
        } else {
            left = left.saturating_sub(1);
            escape = None;
        }
    }
    Ok(*word)
}

fn bad_picture(alloc: Global, input: &Input, line: &str) -> Result<Saying, AllocError> {
    let count = wrong_after(alloc, &input.spec)?;
    let picture = match &input.spec.domain {
        DomainSpec::Picture(text) => text.as_slice(),
        _ => &[],
    };
    let Flaw { place, label, mend } = find_flaw(alloc, picture, count)?;
    let span = picture_span(alloc, line, place)?;
    let message = "the picture of this input is spelled wrong";
    Saying::new(alloc, message, LinePart::At(span), label, mend)
}

// What is said of a domain that no text fits.
const EMPTY: &str = "nothing that can be typed into this input is right";

fn no_text(alloc: Global, input: &Input) -> Result<Saying, AllocError> {
    let max = input.spec.max;
    let count = domain_words(&input.spec).saturating_add(1);
    let part = LinePart::Words { first: 5, count };
    let label = format!(in alloc; "no right text has {max} characters or fewer")?;
    Saying::new(
        alloc,
        EMPTY,
        part,
        &label,
        "allow more characters, or ask for less",
    )
}

// A range without numbers.
fn no_number(alloc: Global, least: i32, greatest: i32) -> Result<Saying, AllocError> {
    let part = LinePart::Words { first: 6, count: 3 };
    let label = format!(in alloc; "there is no number from {least} to {greatest}")?;
    Saying::new(alloc, EMPTY, part, &label, "write the lesser number first")
}

/// Tells why nothing can fill an input.
pub fn empty_domain(
    alloc: Global,
    input: &Input,
    reason: Reason,
    line: &str,
) -> Result<Saying, AllocError> {
    match (reason, &input.spec.domain) {
        (Reason::BadPicture, _) => bad_picture(alloc, input, line),
        (_, DomainSpec::Range { least, greatest }) if greatest < least => {
            no_number(alloc, *least, *greatest)
        }
        _ => no_text(alloc, input),
    }
}

/// An item that is marked or chosen at first and isn't there, in this word, of a node with so many items.
#[derive(Clone, Copy)]
struct StartItem {
    done: &'static str,
    at: usize,
    item: i32,
    count: usize,
}

fn start_item(alloc: Global, start: StartItem) -> Result<Saying, AllocError> {
    let StartItem {
        done,
        at,
        item,
        count,
    } = start;
    let are = if count == 1 { "is" } else { "are" };
    let message = format!(in alloc; "item {item} can't be {done} at first: there {are} {count}")?;
    let mend = one_of_items(alloc, count)?;
    Saying::new(
        alloc,
        &message,
        LinePart::word(at),
        "items count from 1",
        &mend,
    )
}

// The place of the first of the items that isn't there, and that item.
fn first_missing(start: &[i32], count: usize) -> (usize, i32) {
    start
        .iter()
        .copied()
        .enumerate()
        .find(|(_, item)| !is_item(item, count))
        .unwrap_or((0, 0))
}

fn start_text(alloc: Global, input: &Input) -> Result<Saying, AllocError> {
    let at = domain_words(&input.spec).saturating_add(6);
    let (count, max) = (input.start.as_slice().len(), input.spec.max);
    let label = if usize::try_from(max).is_ok_and(|max| max < count) {
        format!(in alloc; "{count} characters, but at most {max} can be typed")?
    } else {
        String::from_str(alloc, "no right text begins so")?
    };
    let message = "the first text of this input can't be typed there";
    let wanted = Wanted(&input.spec);
    let mend = format!(in alloc; "begin with a right text ({wanted}), or with \"\"")?;
    Saying::new(alloc, message, LinePart::word(at), &label, &mend)
}

// The item of a node that is marked or chosen at first and isn't there.
fn missing_start(kind: &Kind) -> Option<StartItem> {
    Some(match kind {
        Kind::CheckBoxes(boxes) => {
            let count = boxes.items.as_slice().len();
            let (place, item) = first_missing(boxes.start.as_slice(), count);
            StartItem {
                done: "marked",
                at: count.saturating_add(6).saturating_add(place),
                item,
                count,
            }
        }
        Kind::RadioButtons(radios) => {
            let count = radios.items.as_slice().len();
            StartItem {
                done: "marked",
                at: count.saturating_add(6),
                item: radios.start,
                count,
            }
        }
        Kind::List(list) => {
            let count = list.items.as_slice().len();
            StartItem {
                done: "chosen",
                at: count.saturating_add(7),
                item: list.start,
                count,
            }
        }
        _ => return None,
    })
}

/// Tells what can't be at the start of a node.
pub fn bad_start(alloc: Global, node: &Node) -> Result<Option<Saying>, AllocError> {
    if let Kind::Input(input) = &node.kind {
        return Ok(Some(start_text(alloc, input)?));
    }
    match missing_start(&node.kind) {
        Some(start) => Ok(Some(start_item(alloc, start)?)),
        None => Ok(None),
    }
}

// Whether the character takes one column.
fn is_narrow(ch: char) -> bool {
    ch.width() == Some(1)
}

// How many columns the character takes.
fn columns_of(ch: char) -> &'static str {
    match ch.width() {
        Some(2) => "two columns",
        _ => "no column",
    }
}

// The first character of the line that doesn't take one column, and where it stands.
fn wide_in(line: &str) -> Option<(usize, char)> {
    line.chars().enumerate().find(|(_, ch)| !is_narrow(*ch))
}

// Where the first line end stands, written `\n`.
fn line_end_in(line: &str) -> usize {
    let mut escaped = false;
    for (column, ch) in line.chars().enumerate() {
        if escaped && ch == 'n' {
            return column.saturating_sub(1);
        }
        escaped = ch == '\\' && !escaped;
    }
    0
}

fn line_end(alloc: Global, what: &str, line: &str) -> Result<Saying, AllocError> {
    let span = Span {
        column: line_end_in(line),
        len: 2,
    };
    let message = format!(in alloc; "a line end can't stand in this {what}")?;
    let label = "this is shown in one row";
    let mend = "write a space, or two texts";
    Saying::new(alloc, &message, LinePart::At(span), label, mend)
}

fn wide_at(alloc: Global, what: &str, column: usize, ch: char) -> Result<Saying, AllocError> {
    let code = u32::from(ch);
    let columns = columns_of(ch);
    let message = format!(in alloc; "a character of this {what} doesn't take one column")?;
    let part = LinePart::At(Span::at(column));
    let label = format!(in alloc; "U+{code:04X} takes {columns}")?;
    let mend = "write it with characters of one column";
    Saying::new(alloc, &message, part, &label, mend)
}

/// Tells which character of a line, the declaration of what is called so, doesn't take one column.
pub fn wide_character(alloc: Global, what: &str, line: &str) -> Result<Saying, AllocError> {
    match wide_in(line) {
        Some((column, ch)) => wide_at(alloc, what, column, ch),
        None => line_end(alloc, what, line),
    }
}
