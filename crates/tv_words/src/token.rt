//! The words of a line, as they stand in it.

ghost use Rattle.std.specs.Prelude.{◌≡◌, [], ◌∷◌, false, ◌<◌, ◌≤◌, chars, length, MatchOption};
ghost use Rattle.std.specs.Option.{option_map};
ghost use Rattle.std.specs.Str.{bytes_eq};
ghost use Rattle.tv_words.specs.Fields.{is_bare_word, text_in};
ghost use Rattle.tv_words.specs.Reading.Numbers.{number_in, number_of};
ghost use Rattle.tv_words.specs.TokenTexts.{unescaped, text_from};
ghost use Rattle.tv_words.specs.Tokens.{bare_of, text_left, text_quoted, token_word};
ghost use Rattle.tv_words.specs.Words.{is_bare};

use crate::decimal::number;
use crate::word::is_same;
use arrayvec::ArrayVec;

/// A word of a line, which lends the line.
#[derive(Clone, Copy, Debug)]
pub enum Token<'a> {
    /// A word that stands as it is.
    Bare(BareText<'a>),
    /// A text that stands between quotes.
    Quoted(QuotedText<'a>),
}

/// The characters of a bare word.
#[derive(Clone, Copy, Debug)]
pub struct BareText<'a> {
    // The line from the word on.
    pub(crate) rest: &'a str,
}

/// The text of a quoted word, its escapes undone.
#[derive(Clone, Copy, Debug)]
pub struct QuotedText<'a> {
    // The line after the quote that opens the text.
    pub(crate) rest: &'a str,
}

/// Goes over the characters of a quoted text.
#[derive(Drop)]
pub struct QuotedChars<'a> {
    rest: &'a str,
}

impl<'a> BareText<'a> {
    /// Returns the characters, where there are no more than 12. A longer word is no key, and no number of an `i32`.
    pub fn short(&self) -> Option<ArrayVec<char, 12>>
        ensures { MatchOption result (12 < length (bare_of self.now)) (λ text. text.items ≡ bare_of self.now) }
    {
        let mut text = ArrayVec::new();
        let mut rest = self.rest;
        while let Some((ch, after)) = first_char(rest) {
            if !is_bare(ch) {
                return Some(text);
            }
            text.try_push(ch).ok()?;
            rest = after;
        }
        Some(text)
    }
}

impl<'a> QuotedText<'a> {
    /// Returns the characters, one by one.
    pub fn chars(&self) -> QuotedChars<'a>
        ensures { text_left result ≡ text_quoted self.now }
    {
        QuotedChars { rest: self.rest }
    }

    /// Returns how many characters there are.
    pub fn len(&self) -> usize
        ensures { result ≡ length (text_quoted self.now) }
    {
        count_chars(self.rest)
    }
}

impl<'a> Iterator for QuotedChars<'a> {
    ghost use Rattle.std.specs.Iterator.{YieldsFirst, item_count};
    ghost use Rattle.tv_words.specs.Tokens.{text_left};

    type Item = char;

    ghost next_gives = { YieldsFirst text_left };

    ghost remaining = { item_count text_left };

    fn next(&mut self) -> Option<char> {
        let (ch, after) = first_char(self.rest)?;
        match ch {
            '"' => None,
            '\\' => {
                let (escaped, after) = first_char(after)?;
                self.rest = after;
                Some(meant(escaped))
            }
            _ => {
                self.rest = after;
                Some(ch)
            }
        }
    }
}

impl<'a> Token<'a> {
    /// Whether this is the bare word of these ASCII characters, which are no more than 12.
    pub fn is(&self, keyword: &[u8]) -> bool
        requires { length keyword.now ≤ 12 }
        ensures { result ≡ is_bare_word (token_word self.now) keyword.now }
    {
        match self {
            Token::Bare(text) => is_short(text, keyword),
            Token::Quoted(_) => false,
        }
    }

    /// Returns the number that a bare word is the decimal text of, where it is one of an `i32`.
    pub fn number(&self) -> Option<i32>
        ensures { result ≡ number_in (token_word self.now) }
    {
        match self {
            Token::Bare(text) => short_number(text),
            Token::Quoted(_) => None,
        }
    }

    /// Returns the text between the quotes of a quoted word.
    pub fn text(&self) -> Option<QuotedText<'a>>
        ensures { text_in (token_word self.now) ≡ option_map text_quoted result }
    {
        match self {
            Token::Bare(_) => None,
            Token::Quoted(text) => Some(*text),
        }
    }
}

fn is_short(text: &BareText<'_>, keyword: &[u8]) -> bool
    requires { length keyword.now ≤ 12 }
    ensures { result ≡ bytes_eq (bare_of text.now) keyword.now }
{
    match text.short() {
        Some(chars) => is_same(chars.as_slice(), keyword),
        None => false,
    }
}

fn short_number(text: &BareText<'_>) -> Option<i32>
    ensures { result ≡ number_of (bare_of text.now) }
{
    match text.short() {
        Some(chars) => number(chars.as_slice()),
        None => None,
    }
}

/// Returns the first character of a text, and what follows it.
pub(crate) fn first_char(text: &str) -> Option<(char, &str)>
    ensures { MatchOption result (chars text.now ≡ []) (λ first. chars text.now ≡ first.0 ∷ chars first.1.now) }
{
    let mut chars = text.chars();
    let first = chars.next()?;
    Some((first, chars.as_str()))
}

// There are no more characters than bytes, so their number fits.
fn count_chars(rest: &str) -> usize
    ensures { result ≡ length (text_from false (chars rest.now)) }
{
    QuotedChars { rest }.count()
}

fn is_bare(ch: char) -> bool
    ensures { result ≡ is_bare ch }
{
    ch != ' ' && ch != '"'
}

// What a character stands for after a backslash.
fn meant(ch: char) -> char
    ensures { result ≡ unescaped ch }
{
    if ch == 'n' { '\n' } else { ch }
}
