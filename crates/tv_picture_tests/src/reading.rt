//! The short texts that the library reads as pictures, compared with the pictures that the grammar makes.

use crate::grammar::{Made, PICTURE, WRITTEN, pictures};
use crate::texts::{longer, texts};
use std::alloc::{AllocError, Global};
use tv_picture::{Picture, PictureFault};

/// The text with what closes its open brackets.
fn closed(alloc: Global, text: &[char]) -> Result<Vec<char>, AllocError> {
    let mut whole = Vec::from_slice(alloc, text)?;
    let mut closing = Vec::new(alloc);
    let mut quoted = false;
    for ch in text {
        match ch {
            _ if quoted => quoted = false,
            ';' => quoted = true,
            '[' => closing.push(']')?,
            '{' => closing.push('}')?,
            ']' | '}' => drop(closing.pop()),
            _ => {}
        }
    }
    for ch in closing.iter().rev() {
        whole.push(*ch)?;
    }
    Ok(whole)
}

/// Whether a picture begins with the text: it lacks at most what is repeated or quoted, and brackets.
fn begins_picture(alloc: Global, text: &[char]) -> Result<bool, AllocError> {
    let whole = closed(alloc, text)?;
    let with_part = closed(alloc, longer(alloc, text, 'a')?.as_slice())?;
    Ok(
        Picture::from_chars(alloc, whole.as_slice()).is_ok()
            || Picture::from_chars(alloc, with_part.as_slice()).is_ok(),
    )
}

/// Whether the longest beginning of the text with which a picture begins has so many characters.
fn is_fault(alloc: Global, text: &[char], place: usize) -> Result<bool, AllocError> {
    if place > text.len() || !begins_picture(alloc, &text[..place])? {
        return Ok(false);
    }
    Ok(place == text.len() || !begins_picture(alloc, &text[..place + 1])?)
}

fn is_made(pictures: &[Made], text: &[char]) -> bool {
    for made in pictures {
        if made.text.as_slice() == text {
            return true;
        }
    }
    false
}

/// Whether the library says of the text what the pictures that were made say.
fn is_judged(alloc: Global, pictures: &[Made], text: &[char]) -> Result<bool, AllocError> {
    match Picture::from_chars(alloc, text) {
        Ok(_) => Ok(is_made(pictures, text)),
        Err(PictureFault::NoMemory) => Ok(false),
        Err(PictureFault::Syntax(place)) => {
            Ok(!is_made(pictures, text) && is_fault(alloc, text, place)?)
        }
    }
}

#[test]
fn short_pictures_read(rt: HostRuntime) {
    let alloc = rt.alloc();
    let pictures = pictures(alloc).expect(&rt, "memory");
    for text in &texts(alloc, &WRITTEN, PICTURE).expect(&rt, "memory") {
        let judged = is_judged(alloc, pictures.as_slice(), text.as_slice());
        assert!(rt; judged == Ok(true), "{text:?}");
    }
}
