//! What is told of a control, in words.

use std::alloc::{AllocError, Global};
use std::test::Fail;
use tv_cells::{Damage, Point, Rect, Screen};
use tv_model::{Id, Record, Value};
use tv_view::Reaction;

/// Adds what is told next, after a comma where something stands before it in the line.
pub fn push_token(told: &mut String, token: &str) -> Result<(), AllocError> {
    if !told.is_empty() && !told.ends_with('\n') {
        told.push_str(", ")?;
    }
    told.push_str(token)
}

/// Adds a word to what was told last, if there is one.
pub fn push_word(told: &mut String, word: &str) -> Result<(), AllocError> {
    if !word.is_empty() {
        told.push(' ')?;
        told.push_str(word)?;
    }
    Ok(())
}

/// Adds what was answered to an event.
pub fn push_reaction(
    told: &mut String,
    alloc: Global,
    reaction: Reaction,
) -> Result<(), AllocError> {
    let token = match reaction {
        Reaction::Pass => String::from_str(alloc, "pass")?,
        Reaction::Done => String::from_str(alloc, "done")?,
        Reaction::Focus(id) => format!(in alloc; "focus {}", id.0)?,
        Reaction::FocusPress(id, item) => format!(in alloc; "focus {} item {item}", id.0)?,
        Reaction::Post(id, command) => format!(in alloc; "post {} {}", id.0, command.0)?,
        Reaction::Changed(id) => format!(in alloc; "changed {}", id.0)?,
        Reaction::Capture(id) => format!(in alloc; "capture {}", id.0)?,
        Reaction::Release => String::from_str(alloc, "release")?,
    };
    push_token(told, &token)
}

/// The value of a field: a quoted text, marks as a binary number of which the last digit is the first item, or an item.
pub fn value_told(alloc: Global, record: &Record, id: Id) -> Result<String, AllocError> {
    match record.value(id) {
        None => Ok(String::new(alloc)),
        Some(Value::Text(text)) => quoted(alloc, text.as_slice()),
        Some(Value::Marks(marks)) => format!(in alloc; "{marks:b}"),
        Some(Value::Item(item)) => format!(in alloc; "{item}"),
    }
}

fn quoted(alloc: Global, text: &[char]) -> Result<String, AllocError> {
    let mut told = String::from_str(alloc, "\"")?;
    for ch in text {
        told.push(*ch)?;
    }
    told.push('"')?;
    Ok(told)
}

/// Whether nothing is damaged, or a rectangle, or on the largest screen other points than its own.
pub fn damage_told(damage: &Damage, rect: Rect) -> &'static str {
    if damage.rects().is_empty() {
        return "intact";
    }
    for y in 0..60 {
        for x in 0..132 {
            let point = Point { x, y };
            if damage.has(point) != rect.contains(point) {
                return "astray";
            }
        }
    }
    "damaged"
}

/// Adds the cells of a rectangle of the screen, a line for each row between colons: their characters, or their attributes in
/// two hexadecimal digits.
pub fn push_face(
    told: &mut String,
    alloc: Global,
    screen: &Screen,
    rect: Rect,
    is_colors: bool,
) -> Result<(), Fail> {
    if !told.is_empty() && !told.ends_with('\n') {
        told.push('\n')?;
    }
    for y in rect.a.y..rect.b.y {
        told.push(':')?;
        for x in rect.a.x..rect.b.x {
            let cell = screen.at(Point { x, y }).ok_or("off the screen")?;
            if is_colors {
                let attr = format!(in alloc; "{:02x}", cell.attr())?;
                told.push_str(&attr)?;
            } else {
                told.push(cell.ch())?;
            }
        }
        told.push_str(":\n")?;
    }
    Ok(())
}
