//! A word of a line, and what it says in a declaration.

ghost use Rattle.std.specs.Prelude.{◌≡◌, ℤ, IfSome, Some};
ghost use Rattle.std.specs.List.{list_all};
ghost use Rattle.std.specs.Option.{option_copied};
ghost use Rattle.std.specs.Str.{bytes_eq};
ghost use Rattle.tv_words.specs.Names.{is_name, is_name_char};
ghost use Rattle.tv_words.specs.Fields.{IsNumber, is_bare_word, name_in, number_word, text_in};
ghost use Rattle.tv_words.specs.Reading.Numbers.{number_in};

use crate::decimal::number;
use tv_valid::{Chars, Sequence};

/// A word of a line.
#[derive(Debug, Drop)]
pub enum Word {
    /// A word that stands as it is: neither empty nor with a space or a quote.
    Bare(Chars),
    /// A text that stands between quotes, its escapes undone.
    Quoted(Chars),
}

/// Words in order.
pub type Words = Sequence<Word>;

impl Word {
    /// Whether this is the bare word of these ASCII characters.
    pub fn is(&self, keyword: &[u8]) -> bool
        ensures { result ≡ is_bare_word self.now keyword.now }
    {
        match self {
            Word::Bare(text) => is_same(text.as_slice(), keyword),
            Word::Quoted(_) => false,
        }
    }

    /// Returns the number that a bare word is the decimal text of, where it is one of an `i32`.
    pub fn number(&self) -> Option<i32>
        ensures read { result ≡ number_in self.now }
        ensures word { IfSome result (λ n. (self.now ≡ number_word n) × IsNumber n) }
        ensures only { (n : ℤ) → IsNumber n → self.now ≡ number_word n → result ≡ Some n }
    {
        match self {
            Word::Bare(text) => number(text.as_slice()),
            Word::Quoted(_) => None,
        }
    }

    /// Returns the characters of a bare word that can be a name.
    pub fn name(&self) -> Option<&Chars>
        ensures { name_in self.now ≡ option_copied result }
    {
        match self {
            Word::Bare(text) if is_name(text.as_slice()) => Some(text),
            _ => None,
        }
    }

    /// Returns the text between the quotes of a quoted word.
    pub fn text(&self) -> Option<&Chars>
        ensures { text_in self.now ≡ option_copied result }
    {
        match self {
            Word::Bare(_) => None,
            Word::Quoted(text) => Some(text),
        }
    }
}

/// Whether the characters are these of ASCII.
pub fn is_same(chars: &[char], ascii: &[u8]) -> bool
    ensures { result ≡ bytes_eq chars.now ascii.now }
{
    chars.len() == ascii.len()
        && chars
            .iter()
            .zip(ascii)
            .all(|(ch, byte)| *ch == char::from(*byte))
}

fn is_name(text: &[char]) -> bool
    ensures { result ≡ is_name text.now }
{
    match text {
        [first, rest @ ..] => first.is_ascii_lowercase()
            && rest.len() < 20
            && can_continue_name(rest),
        [] => false,
    }
}

fn can_continue_name(rest: &[char]) -> bool
    ensures { result ≡ list_all is_name_char rest.now }
{
    rest.iter().all(|ch| is_name_char(*ch))
}

fn is_name_char(ch: char) -> bool
    ensures { result ≡ is_name_char ch }
{
    ch.is_ascii_lowercase() || ch.is_ascii_digit() || ch == '-'
}
