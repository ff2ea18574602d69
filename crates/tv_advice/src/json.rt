//! The members of an object of JSON that come behind its head.

use crate::advice::Advice;
use crate::note::Note;
use crate::unread::Unread;
use crate::warning::Warning;
use serde::Serialize;
use serde_json::Error;
use std::alloc::{AllocError, Global};

/// A part of another line, and what is said of it. Lines and columns count from 1.
#[derive(Drop, Serialize)]
struct Other<'a> {
    line: usize,
    column: usize,
    length: usize,
    label: &'a str,
}

/// What is told of a fault: how many characters stand there, what is said of them, and the rest.
#[derive(Drop, Serialize)]
struct Members<'a> {
    length: usize,
    label: &'a str,
    message: &'a str,
    other: Option<Other<'a>>,
    mend: Option<&'a str>,
    form: Option<&'a str>,
}

/// What is told of a warning. The script has a line for each event of the way.
#[derive(Drop, Serialize)]
struct WarningMembers<'a> {
    length: usize,
    label: &'a str,
    message: &'a str,
    other: Option<Other<'a>>,
    mend: Option<&'a str>,
    script: Option<&'a str>,
}

fn other_of(note: &Note) -> Other<'_> {
    Other {
        line: note.line,
        column: note.column.saturating_add(1),
        length: note.len,
        label: note.label.as_str(),
    }
}

// Writes the members that end an object, and ends the line.
fn members_text<M: Serialize>(alloc: Global, members: &M) -> Result<String, AllocError> {
    let object = object(serde_json::to_string(alloc, members))?;
    let members = object.strip_prefix("{").unwrap_or("}");
    format!(in alloc; "{members}\n")
}

// An object of JSON. Writing one into a text fails for want of memory alone.
fn object(written: Result<String, Error>) -> Result<String, AllocError> {
    written.map_err(|_| AllocError)
}

/// Writes the members that advice on a fault has behind its head, with a line end.
pub fn advice_members(alloc: Global, advice: &Advice) -> Result<String, AllocError> {
    let members = Members {
        length: advice.own.len,
        label: advice.own.label.as_str(),
        message: advice.message.as_str(),
        other: advice.other.as_ref().map(other_of),
        mend: Some(advice.mend.as_str()),
        form: None,
    };
    members_text(alloc, &members)
}

/// Writes the members that tell why a line can't be read, with a line end.
pub fn unread_members(alloc: Global, unread: &Unread) -> Result<String, AllocError> {
    let members = Members {
        length: unread.own.len,
        label: unread.own.label.as_str(),
        message: unread.message.as_str(),
        other: unread.other.as_ref().map(other_of),
        mend: unread.mend.as_ref().map(String::as_str),
        form: unread.form,
    };
    members_text(alloc, &members)
}

/// Writes the members that a warning has behind its head, with a line end.
pub fn warning_members(alloc: Global, warning: &Warning) -> Result<String, AllocError> {
    let members = WarningMembers {
        length: warning.own.len,
        label: warning.own.label.as_str(),
        message: warning.message.as_str(),
        other: warning.other.as_ref().map(other_of),
        mend: warning.mend.as_ref().map(String::as_str),
        script: warning.met.as_ref().map(|met| met.script.as_str()),
    };
    members_text(alloc, &members)
}
