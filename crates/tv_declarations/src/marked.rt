//! Texts of which one letter is marked.

ghost use Rattle.std.specs.Prelude.{◌≡◌, ◌<◌, IfOk, IfSome, length, position};
ghost use Rattle.std.specs.Option.{option_map};
ghost use Rattle.std.specs.Char.{is_ascii_alphanumeric};
ghost use Rattle.std.specs.List.{list_any};
ghost use Rattle.tv_declarations.specs.Spelling.Terms.{is_tilde};
ghost use Rattle.tv_declarations.specs.Reading.Marks.{end_of_mark, marked_text_in};

use std::alloc::{AllocError, Global};
use tv_model::MarkedText;
use tv_valid::Chars;

/// Reads a text and its mark, two `~` around a letter or digit; `None` where another `~` stands in it.
pub fn marked(alloc: Global, text: &[char]) -> Result<Option<MarkedText>, AllocError>
    ensures { IfOk result (λ found. found ≡ marked_text_in text.now) }
{
    let Some(place) = first_tilde(text) else {
        return Ok(Some(MarkedText {
            text: Chars::from_slice(alloc, text)?,
            mark: None,
        }));
    };
    let Some((letter, after)) = end_of_mark(&text[place + 1..]) else {
        return Ok(None);
    };
    let mut chars = Vec::from_slice(alloc, &text[..place])?;
    chars.push(letter)?;
    chars.extend_from_slice(after)?;
    Ok(Some(MarkedText {
        text: Chars::from_vec(chars),
        mark: Some(place),
    }))
}

// What follows a first `~`: the marked letter, and what stands after the second.
fn end_of_mark(text: &[char]) -> Option<(char, &[char])>
    ensures { option_map (λ r. (r.0, r.1.now)) result ≡ end_of_mark text.now }
{
    match text {
        [letter, second, after @ ..]
            if *second == '~' && is_markable(*letter) && !has_tilde(after) => {
            Some((*letter, after))
        }
        _ => None,
    }
}

fn is_markable(ch: char) -> bool
    ensures { result ≡ is_ascii_alphanumeric ch }
{
    ch.is_ascii_alphanumeric()
}

fn first_tilde(text: &[char]) -> Option<usize>
    ensures found { result ≡ position is_tilde text.now }
    ensures within { IfSome result (λ place. place < length text.now) }
{
    text.iter().position(|ch| *ch == '~')
}

fn has_tilde(text: &[char]) -> bool
    ensures { result ≡ list_any is_tilde text.now }
{
    text.iter().any(|ch| *ch == '~')
}
