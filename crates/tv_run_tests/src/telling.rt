//! Lines of the log, as text.

use std::alloc::{AllocError, Global};
use tv_event::Command;
use tv_model::{Dialog, Id, LogLine, Value};

/// Adds lines of a dialog's log.
pub fn push_lines(
    told: &mut String,
    alloc: Global,
    dialog: &Dialog,
    lines: &[LogLine],
) -> Result<(), AllocError> {
    for line in lines {
        let line = line_told(alloc, dialog, line)?;
        told.push_str(&line)?;
        told.push('\n')?;
    }
    Ok(())
}

fn line_told(alloc: Global, dialog: &Dialog, line: &LogLine) -> Result<String, AllocError> {
    match line {
        LogLine::Open(id) => id_told(alloc, dialog, "open", *id),
        LogLine::Focus(id) => id_told(alloc, dialog, "focus", *id),
        LogLine::Press(id) => id_told(alloc, dialog, "press", *id),
        LogLine::Invalid(id) => id_told(alloc, dialog, "invalid", *id),
        LogLine::Close(id) => id_told(alloc, dialog, "close", *id),
        LogLine::Quit => String::from_str(alloc, "quit"),
        LogLine::Command(number) => format!(in alloc; "command {number}"),
        LogLine::End(id, command) => {
            let name = id_told(alloc, dialog, "end", *id)?;
            format!(in alloc; "{name} {}", end_word(*command))
        }
        LogLine::Field(id, value) => {
            let name = id_told(alloc, dialog, "field", *id)?;
            let value = value_told(alloc, value)?;
            format!(in alloc; "{name} {value}")
        }
        LogLine::Moved(id, corner) => {
            let name = id_told(alloc, dialog, "moved", *id)?;
            format!(in alloc; "{name} {} {}", corner.x, corner.y)
        }
    }
}

// A word and the name of a node.
fn id_told(alloc: Global, dialog: &Dialog, word: &str, id: Id) -> Result<String, AllocError> {
    let mut told = String::from_str(alloc, word)?;
    told.push(' ')?;
    if let Some(node) = dialog.node(id) {
        if let Some(name) = node.kind.name() {
            push_chars(&mut told, name.as_slice())?;
        }
    }
    Ok(told)
}

fn push_chars(told: &mut String, chars: &[char]) -> Result<(), AllocError> {
    for ch in chars {
        told.push(*ch)?;
    }
    Ok(())
}

fn end_word(command: Command) -> &'static str {
    match command {
        Command::OK => "ok",
        Command::CANCEL => "cancel",
        Command::YES => "yes",
        _ => "no",
    }
}

fn value_told(alloc: Global, value: &Value) -> Result<String, AllocError> {
    match value {
        Value::Text(text) => {
            let mut told = String::from_str(alloc, "\"")?;
            push_chars(&mut told, text.as_slice())?;
            told.push('"')?;
            Ok(told)
        }
        Value::Marks(0) => String::from_str(alloc, "-"),
        Value::Marks(marks) => marks_told(alloc, *marks),
        Value::Item(item) => format!(in alloc; "{item}"),
    }
}

// The marked items, with a space between them.
fn marks_told(alloc: Global, marks: u16) -> Result<String, AllocError> {
    let mut told = String::new(alloc);
    for place in 0u32..16 {
        if (marks >> place) % 2 == 1 {
            if !told.is_empty() {
                told.push(' ')?;
            }
            let item = format!(in alloc; "{}", place + 1)?;
            told.push_str(&item)?;
        }
    }
    Ok(told)
}
