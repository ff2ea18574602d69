//! The words of a line, put together one by one.

ghost use Rattle.std.specs.Prelude.{◌≡◌, [], ◌∷◌, ◌++◌, map, string_bytes, IfOk};
ghost use Rattle.tv_words.specs.Canonical.{ended_line};
ghost use Rattle.tv_words.specs.Fields.{number_word};
ghost use Rattle.tv_declarations.specs.Spelling.Terms.{word_if};

use std::alloc::{AllocError, Global};
use std::marker::Model;
use tv_valid::{Chars, Sequence};
use tv_words::{Word, WrittenWord, with_line};

/// A line that is put together word by word, and lends the names and texts of what it declares. Contracts see the list of its
/// words.
#[derive(Drop)]
pub struct Line<'a> {
    pub(crate) alloc: Global,
    words: Sequence<WrittenWord<'a>>,
}

impl<'a> Model for Line<'a> {
    ghost use Rattle.std.specs.Prelude.{List};
    ghost use Rattle.tv_words.specs.declared.word.Word.{Word};

    ghost Value = { List Word };

    ghost view = { λ l. l.words };
}

impl<'a> Line<'a> {
    /// Makes a line without words. Takes no memory.
    pub fn new(alloc: Global) -> Line<'a>
        ensures { result ≡ [] }
    {
        Line {
            alloc,
            words: Sequence::new(alloc),
        }
    }

    fn written(mut self, word: WrittenWord<'a>) -> Result<Line<'a>, AllocError>
        ensures { IfOk result (λ line. line ≡ self.entry ++ word.entry ∷ []) }
    {
        self.words.push(word)?;
        Ok(self)
    }

    /// Adds a word to the line.
    pub fn word(self, word: Word) -> Result<Line<'a>, AllocError>
        ensures { IfOk result (λ line. line ≡ self.entry ++ word ∷ []) }
    {
        self.written(WrittenWord::own(word))
    }

    /// Adds a bare word of these ASCII characters.
    pub fn keyword(self, text: &'a [u8]) -> Result<Line<'a>, AllocError>
        ensures { IfOk result (λ line. line ≡ self.entry ++ Word.Bare text.now ∷ []) }
    {
        self.written(WrittenWord::ascii(text))
    }

    /// Adds the keyword, where it is wanted.
    pub fn keyword_if(self, wanted: bool, text: &'a [u8]) -> Result<Line<'a>, AllocError>
        ensures { IfOk result (λ line. line ≡ self.entry ++ word_if wanted text.now) }
    {
        if wanted { self.keyword(text) } else { Ok(self) }
    }

    /// Adds a name, or another bare word of these characters.
    pub fn name(self, name: &'a Chars) -> Result<Line<'a>, AllocError>
        ensures { IfOk result (λ line. line ≡ self.entry ++ Word.Bare name.now ∷ []) }
    {
        self.written(WrittenWord::bare(name.as_slice()))
    }

    /// Adds a quoted text.
    pub fn text(self, text: &'a Chars) -> Result<Line<'a>, AllocError>
        ensures { IfOk result (λ line. line ≡ self.entry ++ Word.Quoted text.now ∷ []) }
    {
        self.written(WrittenWord::quoted(text.as_slice()))
    }

    /// Adds a number in decimal.
    pub fn number(self, number: i32) -> Result<Line<'a>, AllocError>
        ensures { IfOk result (λ line. line ≡ self.entry ++ number_word number ∷ []) }
    {
        let digits = number.to_string(self.alloc)?;
        self.bare(digits.as_bytes())
    }

    // Adds a bare word of these ASCII characters, which the line holds.
    pub(crate) fn bare(self, text: &[u8]) -> Result<Line<'a>, AllocError>
        ensures { IfOk result (λ line. line ≡ self.entry ++ Word.Bare text.now ∷ []) }
    {
        let word = Word::Bare(ascii(self.alloc, text)?);
        self.word(word)
    }

    /// Adds these numbers in decimal.
    pub fn numbers(mut self, numbers: &[i32]) -> Result<Line<'a>, AllocError>
        ensures { IfOk result (λ line. line ≡ self.entry ++ map number_word numbers.now) }
    {
        for number in numbers {
            self = self.number(*number)?;
        }
        Ok(self)
    }

    /// Adds this line to the text.
    pub fn write(&self, text: String) -> Result<String, AllocError>
        ensures { IfOk result (λ longer. string_bytes longer ≡ string_bytes text ++ ended_line self.now) }
    {
        with_line(text, self.words.as_slice())
    }
}

/// Returns the characters of an ASCII text.
pub fn ascii(alloc: Global, text: &[u8]) -> Result<Chars, AllocError>
    ensures { IfOk result (λ chars. chars ≡ text.now) }
{
    let mut chars = Chars::new(alloc);
    for byte in text {
        chars.push(char::from(*byte))?;
    }
    Ok(chars)
}
