//! What a word was meant to be, where it is near to what can stand there.

use crate::fitting::Want;
use crate::forms::{Form, Rest};
use crate::nearest::nearest_of;
use std::alloc::{AllocError, Global};

const COMMANDS: [&str; 8] = ["quit", "menu", "close", "next", "ok", "cancel", "yes", "no"];

const DOMAINS: [&str; 4] = ["any", "filter", "range", "picture"];

// The keys that have a name of their own.
const KEYS: [&str; 17] = [
    "Tab",
    "Shift-Tab",
    "Enter",
    "Esc",
    "Up",
    "Down",
    "Left",
    "Right",
    "Home",
    "End",
    "PgUp",
    "PgDn",
    "Ctrl-PgUp",
    "Ctrl-PgDn",
    "Backspace",
    "Del",
    "Ins",
];

// The key that users call by another name, in lower case.
fn other_key(word: &str) -> Option<&'static str> {
    Some(match word {
        "escape" => "Esc",
        "return" => "Enter",
        "delete" => "Del",
        "insert" => "Ins",
        "pageup" | "page-up" => "PgUp",
        "pagedown" | "page-down" => "PgDn",
        "backtab" => "Shift-Tab",
        _ => return None,
    })
}

// What comes before the letter of a key in lower case, as it is written, and what is behind it.
fn head_of(word: &str) -> Option<(&'static str, &str)> {
    if let Some(tail) = word.strip_prefix("alt") {
        return Some(("Alt", tail));
    }
    let ctrl = word.strip_prefix("ctrl").or(word.strip_prefix("control"));
    let tail = ctrl.or(word.strip_prefix("^"))?;
    Some(("Ctrl", tail))
}

// The letter or digit behind such a head, where nothing but it is left, or a sign between.
fn letter_behind(tail: &str) -> Option<char> {
    let mut chars = tail.chars();
    let (first, second, third) = (chars.next()?, chars.next(), chars.next());
    let letter = match (second, third) {
        (None, _) => first,
        (Some(letter), None) if matches!(first, '-' | '+' | '_') => letter,
        _ => return None,
    };
    letter
        .is_ascii_alphanumeric()
        .then_some(letter.to_ascii_uppercase())
}

// The key of a word in lower case that is a letter's with Alt or Ctrl.
fn lettered_key(alloc: Global, word: &str) -> Result<Option<String>, AllocError> {
    let Some((head, tail)) = head_of(word) else {
        return Ok(None);
    };
    match letter_behind(tail) {
        Some(letter) if head == "Alt" || letter.is_ascii_alphabetic() => {
            Ok(Some(format!(in alloc; "{head}-{letter}")?))
        }
        _ => Ok(None),
    }
}

// The number of a function key that is called by a word in lower case.
fn function_number(word: &str) -> Option<u8> {
    let number = word.strip_prefix("f")?;
    let number = number.strip_prefix("-").unwrap_or(number);
    match number.parse::<u8>() {
        Ok(number) if 1 <= number && number <= 12 => Some(number),
        _ => None,
    }
}

// The key that a word was meant to name.
fn meant_key(alloc: Global, word: &str) -> Result<Option<String>, AllocError> {
    let lower = word.to_ascii_lowercase(alloc)?;
    if let Some(key) = lettered_key(alloc, &lower)? {
        return Ok(Some(key));
    }
    if let Some(number) = function_number(&lower) {
        return Ok(Some(format!(in alloc; "F{number}")?));
    }
    match other_key(&lower) {
        Some(name) => Ok(Some(String::from_str(alloc, name)?)),
        None => meant_among(alloc, word, &KEYS),
    }
}

// The word of these that was meant.
fn meant_among(alloc: Global, word: &str, known: &[&str]) -> Result<Option<String>, AllocError> {
    match nearest_of(alloc, word, known)? {
        Some(known) => Ok(Some(String::from_str(alloc, known)?)),
        None => Ok(None),
    }
}

// The number that was meant, where only its spelling is wrong.
fn meant_number(alloc: Global, word: &str) -> Result<Option<String>, AllocError> {
    let digits = word.strip_suffix(",").unwrap_or(word);
    match digits.parse::<i32>() {
        Ok(number) => Ok(Some(format!(in alloc; "{number}")?)),
        Err(_) => Ok(None),
    }
}

// How a character is written in a name, if it can be.
fn name_char(ch: char) -> Option<char> {
    match ch {
        '_' | '.' | ' ' | '/' => Some('-'),
        'A'..='Z' => Some(ch.to_ascii_lowercase()),
        'a'..='z' | '0'..='9' | '-' => Some(ch),
        _ => None,
    }
}

// The name that was meant: its characters as far as a name can have them.
fn meant_name(alloc: Global, word: &str) -> Result<Option<String>, AllocError> {
    let mut name = String::new(alloc);
    for ch in word.chars() {
        if let Some(ch) = name_char(ch)
            && name.len() < 20
            && (ch.is_ascii_lowercase() || !name.is_empty())
        {
            name.push(ch)?;
        }
    }
    Ok(if name.is_empty() { None } else { Some(name) })
}

// A text between quotes. What looks like a number may be one too many.
fn meant_text(alloc: Global, word: &str) -> Result<Option<String>, AllocError> {
    if word.contains("\\") || word.parse::<i64>().is_ok() {
        return Ok(None);
    }
    Ok(Some(format!(in alloc; "\"{word}\"")?))
}

// The text with its first mark alone, around one character.
fn meant_marks(alloc: Global, text: &str) -> Result<Option<String>, AllocError> {
    let mut meant = String::new(alloc);
    let mut opened = false;
    let mut marked = false;
    for ch in text.chars() {
        if ch == '~' {
            opened = true;
        } else if opened && !marked && ch.is_ascii_alphanumeric() {
            meant.push('~')?;
            meant.push(ch)?;
            meant.push('~')?;
            marked = true;
        } else {
            meant.push(ch)?;
        }
    }
    Ok(Some(meant))
}

/// Returns the words that may follow the first ones of a line, in their order.
pub fn further_words(rest: Rest) -> &'static [&'static str] {
    match rest {
        Rest::Nothing => &[],
        Rest::Button => &["default", "grab"],
        Rest::Domain => &["validate", "optional", "fill"],
        Rest::Ends => &["ok", "cancel", "yes", "no"],
        Rest::Checks | Rest::Radios | Rest::List => &["start"],
        Rest::Rule | Rest::Owner => &["when"],
    }
}

// The further word of a line that was meant, or an item without its quotes.
fn meant_further(alloc: Global, rest: Rest, word: &str) -> Result<Option<String>, AllocError> {
    let meant = meant_among(alloc, word, further_words(rest))?;
    match (meant, rest) {
        (None, Rest::Checks | Rest::Radios | Rest::List) => meant_text(alloc, word),
        (meant, _) => Ok(meant),
    }
}

// A letter of a certificate in upper case.
fn meant_letter(alloc: Global, word: &str) -> Result<Option<String>, AllocError> {
    if word.len() == 1 {
        Ok(Some(word.to_ascii_uppercase(alloc)?))
    } else {
        Ok(None)
    }
}

/// Finds what a word of such a line was meant to be, where this is wanted in its place.
pub fn meant(
    alloc: Global,
    form: &Form,
    want: Want,
    found: &str,
) -> Result<Option<String>, AllocError> {
    let is_quoted = found.starts_with("\"");
    let word = found.trim_matches('"');
    match want {
        Want::Num => meant_number(alloc, word),
        Want::Name => meant_name(alloc, word),
        Want::Marked if is_quoted => meant_marks(alloc, found),
        Want::Str | Want::Marked if further_words(form.rest).contains(&word) => Ok(None),
        Want::Str | Want::Marked => meant_text(alloc, word),
        Want::Command => meant_among(alloc, word, &COMMANDS),
        Want::Key => meant_key(alloc, word),
        Want::Letter => meant_letter(alloc, word),
        Want::Domain => meant_among(alloc, word, &DOMAINS),
        Want::This("ends") => meant_among(alloc, word, &["ends", "opens"]),
        Want::This(_) | Want::Nothing => meant_further(alloc, form.rest, word),
    }
}
