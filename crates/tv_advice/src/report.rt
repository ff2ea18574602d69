//! The blocks of a report: what is told of a text, fault by fault.

ghost use Rattle.std.specs.Prelude.{◌≡◌, IfOk, string_bytes};
ghost use Rattle.tv_advice.specs.Blocks.{IsBlockAt, numbered_fault};

use crate::advice::Advice;
use crate::colour::{Colour, shown_in};
use crate::heads::head;
use crate::index::Index;
use crate::json::{advice_members, unread_members, warning_members};
use crate::manner::Manner;
use crate::note::Note;
use crate::source::Source;
use crate::spans::line_in;
use crate::unread::Unread;
use crate::warning::Warning;
use std::alloc::{AllocError, Global};

// Puts a head before the rest of a block.
fn block_of(
    alloc: Global,
    source: &Source,
    own: &Note,
    fault: &str,
    rest: &str,
) -> Result<String, AllocError>
    ensures { IfOk result (λ block. IsBlockAt source.now.manner source.now.name.now own.now.line fault.now (string_bytes block)) }
{
    let column = own.column.saturating_add(1);
    let mut block = head(alloc, source, own.line, column, fault)?;
    block.push_str(rest)?;
    Ok(block)
}

/// Writes what is told of a fault.
pub fn advice_block(
    alloc: Global,
    source: &Source,
    index: &Index,
    advice: &Advice,
) -> Result<String, AllocError>
    ensures { IfOk result (λ block. IsBlockAt source.now.manner source.now.name.now advice.now.own.line
        (numbered_fault advice.now.number) (string_bytes block)) }
{
    let fault = format!(in alloc; "F{}", advice.number)?;
    let rest = match source.manner {
        Manner::Json => advice_members(alloc, advice)?,
        Manner::Plain | Manner::Coloured => advice_lines(alloc, source, index, advice)?,
    };
    block_of(alloc, source, &advice.own, &fault, &rest)
}

/// Writes what is told of a warning, which is called so.
pub fn warning_block(
    alloc: Global,
    source: &Source,
    index: &Index,
    code: &str,
    warning: &Warning,
) -> Result<String, AllocError>
    ensures { IfOk result (λ block. IsBlockAt source.now.manner source.now.name.now warning.now.own.line code.now (string_bytes block)) }
{
    let rest = match source.manner {
        Manner::Json => warning_members(alloc, warning)?,
        Manner::Plain | Manner::Coloured => warning_lines(alloc, source, index, warning)?,
    };
    block_of(alloc, source, &warning.own, code, &rest)
}

/// Writes why one of these lines can't be read, or why it can't stand, the fault being called so.
pub fn unread_block(
    alloc: Global,
    source: &Source,
    lines: &[&str],
    fault: &str,
    unread: &Unread,
) -> Result<String, AllocError>
    ensures { IfOk result (λ block. IsBlockAt source.now.manner source.now.name.now unread.now.own.line fault.now (string_bytes block)) }
{
    let rest = match source.manner {
        Manner::Json => unread_members(alloc, unread)?,
        Manner::Plain | Manner::Coloured => unread_lines(alloc, source, lines, unread)?,
    };
    block_of(alloc, source, &unread.own, fault, &rest)
}

/// How the lines of a text are shown: their numbers stand below one another.
#[derive(Clone, Copy)]
struct Excerpt {
    manner: Manner,
    /// The columns of the longest number.
    width: usize,
}

impl Excerpt {
    // The lines of these two notes.
    fn new(manner: Manner, own: &Note, other: Option<&Note>) -> Excerpt {
        let width = digits(own.line);
        let width = match other {
            Some(other) => width.max(digits(other.line)),
            None => width,
        };
        Excerpt { manner, width }
    }
}

// The message, and the lines of the text that have to do with it.
fn noted_lines(
    alloc: Global,
    excerpt: Excerpt,
    message: &str,
    own: Shown,
    other: Option<Shown>,
) -> Result<String, AllocError> {
    let mut told = format!(in alloc; "{message}\n")?;
    if let Some(other) = other {
        push_note(alloc, &mut told, excerpt, other)?;
    }
    push_note(alloc, &mut told, excerpt, own)?;
    Ok(told)
}

// The other line, as the index has it.
fn other_shown<'a>(index: &Index<'a>, other: &'a Option<Note>) -> Option<Shown<'a>> {
    match other {
        Some(note) => Some(Shown::new(index.line(note.line), note, Mark::Other)),
        None => None,
    }
}

// The message, the lines of the text that have to do with the fault, and how to mend it.
fn advice_lines(
    alloc: Global,
    source: &Source,
    index: &Index,
    advice: &Advice,
) -> Result<String, AllocError> {
    let excerpt = Excerpt::new(source.manner, &advice.own, advice.other.as_ref());
    let own = Shown::new(index.line(advice.own.line), &advice.own, Mark::Own);
    let other = other_shown(index, &advice.other);
    let mut told = noted_lines(alloc, excerpt, &advice.message, own, other)?;
    push_help(alloc, &mut told, excerpt, "mend", &advice.mend)?;
    Ok(told)
}

// The message, the lines that have to do with it, a way to it, and how to mend it.
fn warning_lines(
    alloc: Global,
    source: &Source,
    index: &Index,
    warning: &Warning,
) -> Result<String, AllocError> {
    let excerpt = Excerpt::new(source.manner, &warning.own, warning.other.as_ref());
    let own = Shown::new(index.line(warning.own.line), &warning.own, Mark::Own);
    let other = other_shown(index, &warning.other);
    let mut told = noted_lines(alloc, excerpt, &warning.message, own, other)?;
    if let Some(met) = &warning.met {
        push_help(alloc, &mut told, excerpt, "seen by", &met.way)?;
    }
    if let Some(mend) = &warning.mend {
        push_help(alloc, &mut told, excerpt, "mend", mend)?;
    }
    Ok(told)
}

// The message, the lines that have to do with it, and what helps.
fn unread_lines(
    alloc: Global,
    source: &Source,
    lines: &[&str],
    unread: &Unread,
) -> Result<String, AllocError> {
    let excerpt = Excerpt::new(source.manner, &unread.own, unread.other.as_ref());
    let own = Shown::new(line_in(lines, unread.own.line), &unread.own, Mark::Own);
    let other = match &unread.other {
        Some(note) => Some(Shown::new(line_in(lines, note.line), note, Mark::Other)),
        None => None,
    };
    let mut told = noted_lines(alloc, excerpt, &unread.message, own, other)?;
    push_helps(alloc, &mut told, excerpt, unread)?;
    Ok(told)
}

// Adds the form that the line has to have, and how to mend it.
fn push_helps(
    alloc: Global,
    told: &mut String,
    excerpt: Excerpt,
    unread: &Unread,
) -> Result<(), AllocError> {
    if let Some(form) = unread.form {
        push_help(alloc, told, excerpt, "form", form)?;
    }
    match &unread.mend {
        Some(mend) => push_help(alloc, told, excerpt, "mend", mend),
        None => Ok(()),
    }
}

/// How a part of a line is marked.
#[derive(Clone, Copy)]
enum Mark {
    /// The words at fault.
    Own,
    /// Those of the other line.
    Other,
}

impl Mark {
    fn sign(self) -> char {
        match self {
            Mark::Own => '^',
            Mark::Other => '-',
        }
    }

    fn colour(self) -> Colour {
        match self {
            Mark::Own => Colour::Fault,
            Mark::Other => Colour::Other,
        }
    }
}

/// A line of the text, and what is said of a part of it, which is marked.
#[derive(Clone, Copy)]
struct Shown<'a> {
    line: &'a str,
    note: &'a Note,
    mark: Mark,
}

impl<'a> Shown<'a> {
    fn new(line: &'a str, note: &'a Note, mark: Mark) -> Shown<'a> {
        Shown { line, note, mark }
    }
}

// Adds a line of the text, and below it what is said of a part.
fn push_note(
    alloc: Global,
    told: &mut String,
    excerpt: Excerpt,
    shown: Shown,
) -> Result<(), AllocError> {
    push_margin(told, excerpt.width)?;
    told.push_str("\n")?;
    push_line(alloc, told, excerpt, shown)?;
    push_margin(told, excerpt.width)?;
    push_label(alloc, told, excerpt, shown)
}

// Adds a line of the text, behind its number.
fn push_line(
    alloc: Global,
    told: &mut String,
    excerpt: Excerpt,
    shown: Shown,
) -> Result<(), AllocError> {
    let number = shown.note.line;
    push_times(told, ' ', excerpt.width.saturating_sub(digits(number)))?;
    let number = format!(in alloc; "{number} | ")?;
    told.push_str(&number)?;
    push_shown(told, shown.line)?;
    told.push_str("\n")
}

// Adds the signs below a part of a line, and what is said of it.
fn push_label(
    alloc: Global,
    told: &mut String,
    excerpt: Excerpt,
    shown: Shown,
) -> Result<(), AllocError> {
    let Shown { note, mark, .. } = shown;
    push_times(told, ' ', note.column.saturating_add(1))?;
    let label = label_text(alloc, note, mark)?;
    let label = shown_in(alloc, excerpt.manner, mark.colour(), &label)?;
    told.push_str(&label)?;
    told.push_str("\n")
}

// The signs, and behind them what is said.
fn label_text(alloc: Global, note: &Note, mark: Mark) -> Result<String, AllocError> {
    let mut text = String::new(alloc);
    push_times(&mut text, mark.sign(), note.len.max(1))?;
    text.push_str(" ")?;
    text.push_str(&note.label)?;
    Ok(text)
}

// Adds a line that helps.
fn push_help(
    alloc: Global,
    told: &mut String,
    excerpt: Excerpt,
    word: &str,
    help: &str,
) -> Result<(), AllocError> {
    push_times(told, ' ', excerpt.width)?;
    let word = shown_in(alloc, excerpt.manner, Colour::Help, word)?;
    let line = format!(in alloc; " = {word}: {help}\n")?;
    told.push_str(&line)
}

// Adds the line without a number that stands before and below a line of the text.
fn push_margin(told: &mut String, width: usize) -> Result<(), AllocError> {
    push_times(told, ' ', width)?;
    told.push_str(" |")
}

// Adds a character so many times.
fn push_times(told: &mut String, ch: char, count: usize) -> Result<(), AllocError> {
    for _ in 0..count {
        told.push(ch)?;
    }
    Ok(())
}

// How many digits the number has.
fn digits(number: usize) -> usize {
    let further = number.checked_ilog10().unwrap_or(0);
    further.saturating_add(1) as usize
}

// Adds a line, with signs in the place of control characters.
fn push_shown(told: &mut String, line: &str) -> Result<(), AllocError> {
    for ch in line.chars() {
        told.push(match ch {
            '\t' => '→',
            '\r' => '␍',
            _ if ch.is_control() => '�',
            _ => ch,
        })?;
    }
    Ok(())
}
