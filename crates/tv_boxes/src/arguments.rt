//! The request that the arguments of `dialog` spell.

ghost use Rattle.std.specs.Prelude.{◌≡◌, ◌++◌, IfOk, map, string_bytes};
ghost use Rattle.std.specs.Str.{chars};
ghost use Rattle.tv_boxes.specs.Arguments.{Reads, box_in, box_named, request_in, with_breaks, words_in};

use crate::asking::{BoxName, kind_of, number};
use crate::misuse::Misuse;
use crate::request::Request;
use crate::settings::{Setting, Settings};
use std::alloc::{AllocError, Global};
use tv_valid::{Chars, Sequence};
use tv_words::is_same;

/// Reads what the arguments of `dialog` ask for: options first, then the option of a box, its text, height and width, and what
/// that box takes behind these.
pub fn read_request(alloc: Global, words: &[Chars]) -> Result<Request, Misuse>
    ensures { Reads (request_in words.now) result }
{
    let mut settings = Settings::standard(alloc)?;
    let mut left = words;
    while let [option, rest @ ..] = left {
        if is_same(option.as_slice(), b"--defaultno") {
            settings.default_no = true;
            left = rest;
        } else if let Some(setting) = Setting::named(option.as_slice()) {
            let [word, rest @ ..] = rest else {
                return Err(Misuse::Missing);
            };
            settings.set(setting, word.copy(alloc)?);
            left = rest;
        } else {
            return read_box(alloc, settings, option, rest);
        }
    }
    Err(Misuse::NoBox)
}

// Reads the arguments behind the option of a box.
fn read_box(
    alloc: Global,
    settings: Settings,
    option: &Chars,
    words: &[Chars],
) -> Result<Request, Misuse>
    ensures { Reads (box_in settings (box_named option.now) words.now) result }
{
    let Some(name) = BoxName::named(option.as_slice()) else {
        return Err(Misuse::NoOption(words.len()));
    };
    let [text, height, width, rest @ ..] = words else {
        return Err(Misuse::Missing);
    };
    let height = number(height, rest.len() + 1)?;
    let width = number(width, rest.len())?;
    let kind = kind_of(alloc, name, &settings.chosen, rest)?;
    let text = with_breaks(alloc, text.as_slice())?;
    let Settings {
        title,
        labels,
        default_no,
        ..
    } = settings;
    Ok(Request {
        title,
        text,
        height,
        width,
        labels,
        default_no,
        kind,
    })
}

// The text, with a line feed for each `\n` that is written out.
fn with_breaks(alloc: Global, text: &[char]) -> Result<Chars, AllocError>
    ensures { IfOk result (λ chars. chars ≡ with_breaks text.now) }
{
    let mut chars = Chars::new(alloc);
    let mut left = text;
    while let [letter, rest @ ..] = left {
        if let ['\\', 'n', behind @ ..] = left {
            chars.push('\n')?;
            left = behind;
        } else {
            chars.push(*letter)?;
            left = rest;
        }
    }
    Ok(chars)
}

/// Returns the characters of these words.
pub fn words_of(alloc: Global, words: &[String]) -> Result<Sequence<Chars>, AllocError>
    ensures { IfOk result (λ list. list ≡ words_in (map string_bytes words.now)) }
{
    let mut list = Sequence::new(alloc);
    for word in words {
        list.push(chars_of(alloc, word)?)?;
    }
    Ok(list)
}

fn chars_of(alloc: Global, word: &String) -> Result<Chars, AllocError>
    ensures { IfOk result (λ list. list ≡ chars (string_bytes word.now)) }
{
    let letters: Vec<char> = word.as_str().chars().collect(alloc)?;
    Ok(Chars::from_vec(letters))
}
