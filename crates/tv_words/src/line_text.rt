//! Words, written as a line of the canonical text.

ghost use Rattle.std.specs.Prelude.{◌≡◌, ◌∷◌, ◌++◌, encode_utf8_all, flat_map, IfOk, OnOk, string_bytes};
ghost use Rattle.tv_words.specs.Words.{escaped, word_text};
ghost use Rattle.tv_words.specs.Canonical.{canonical_line, ended_line};

use crate::word::Word;
use crate::written::{WrittenText, WrittenWord};
use std::alloc::AllocError;

/// Adds a line to the text: the words with one space between them, and a line end after them.
#[tactic(auto, unfolding(crate::specs::Canonical::ended_line))]
pub fn with_line(mut text: String, words: &[WrittenWord<'_>]) -> Result<String, AllocError>
    ensures { IfOk result (λ longer. string_bytes longer ≡ string_bytes text ++ ended_line words.now) }
{
    push_words(&mut text, words)?;
    text.push('\n')?;
    Ok(text)
}

fn push_words(text: &mut String, words: &[WrittenWord<'_>]) -> Result<(), AllocError>
    ensures { OnOk result (string_bytes text.new ≡ string_bytes text.old ++ encode_utf8_all (canonical_line words.now)) }
{
    match words {
        [] => Ok(()),
        [first, rest @ ..] => {
            push_word(text, first)?;
            push_after_spaces(text, rest)
        }
    }
}

fn push_after_spaces(text: &mut String, words: &[WrittenWord<'_>]) -> Result<(), AllocError>
    ensures { OnOk result (string_bytes text.new ≡ string_bytes text.old ++ encode_utf8_all (flat_map (λ w. 32 ∷ word_text w) words.now)) }
{
    for word in words {
        push_after_space(text, word)?;
    }
    Ok(())
}

fn push_after_space(text: &mut String, word: &WrittenWord<'_>) -> Result<(), AllocError>
    ensures { OnOk result (string_bytes text.new ≡ string_bytes text.old ++ encode_utf8_all (32 ∷ word_text word.now)) }
{
    text.push(' ')?;
    push_word(text, word)
}

fn push_word(text: &mut String, word: &WrittenWord<'_>) -> Result<(), AllocError>
    ensures { OnOk result (string_bytes text.new ≡ string_bytes text.old ++ encode_utf8_all (word_text word.now)) }
{
    match &word.text {
        WrittenText::Ascii(bytes) => push_ascii(text, bytes),
        WrittenText::Bare(chars) => push_chars(text, chars),
        WrittenText::Quoted(chars) => push_quoted(text, chars),
        WrittenText::Own(Word::Bare(chars)) => push_chars(text, chars.as_slice()),
        WrittenText::Own(Word::Quoted(chars)) => push_quoted(text, chars.as_slice()),
    }
}

fn push_ascii(text: &mut String, bytes: &[u8]) -> Result<(), AllocError>
    ensures { OnOk result (string_bytes text.new ≡ string_bytes text.old ++ encode_utf8_all bytes.now) }
{
    for byte in bytes {
        text.push(char::from(*byte))?;
    }
    Ok(())
}

fn push_chars(text: &mut String, chars: &[char]) -> Result<(), AllocError>
    ensures { OnOk result (string_bytes text.new ≡ string_bytes text.old ++ encode_utf8_all chars.now) }
{
    for ch in chars {
        text.push(*ch)?;
    }
    Ok(())
}

fn push_quoted(text: &mut String, chars: &[char]) -> Result<(), AllocError>
    ensures { OnOk result (string_bytes text.new ≡ string_bytes text.old ++ encode_utf8_all (word_text (Word.Quoted chars.now))) }
{
    text.push('"')?;
    push_escaped(text, chars)?;
    text.push('"')
}

fn push_escaped(text: &mut String, chars: &[char]) -> Result<(), AllocError>
    ensures { OnOk result (string_bytes text.new ≡ string_bytes text.old ++ encode_utf8_all (flat_map escaped chars.now)) }
{
    for ch in chars {
        push_escaped_char(text, *ch)?;
    }
    Ok(())
}

fn push_escaped_char(text: &mut String, ch: char) -> Result<(), AllocError>
    ensures { OnOk result (string_bytes text.new ≡ string_bytes text.old ++ encode_utf8_all (escaped ch)) }
{
    match ch {
        '"' => text.push_str("\\\""),
        '\\' => text.push_str("\\\\"),
        '\n' => text.push_str("\\n"),
        _ => text.push(ch),
    }
}
