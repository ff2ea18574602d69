//! Words that are written.

ghost use Rattle.std.specs.Prelude.{◌≡◌};

use crate::word::Word;
use std::marker::Model;

/// A word that is written. It lends its characters where something else holds them. Contracts see the word.
#[derive(Drop)]
pub struct WrittenWord<'a> {
    pub(crate) text: WrittenText<'a>,
}

/// The characters of a word that is written.
#[derive(Drop)]
pub enum WrittenText<'a> {
    /// A bare word of ASCII characters.
    Ascii(&'a [u8]),
    /// A bare word.
    Bare(&'a [char]),
    /// A text that stands between quotes.
    Quoted(&'a [char]),
    /// A word that nothing else holds.
    Own(Word),
}

impl<'a> Model for WrittenWord<'a> {
    ghost use Rattle.tv_words.specs.declared.word.Word.{Word};
    ghost use Rattle.tv_words.specs.WrittenWords.{written_word};

    ghost Value = { Word };

    ghost view = { λ w. written_word w.text };
}

impl<'a> WrittenWord<'a> {
    /// Makes the bare word of these ASCII characters.
    pub fn ascii(text: &'a [u8]) -> WrittenWord<'a>
        ensures { result ≡ Word.Bare text.now }
    {
        WrittenWord {
            text: WrittenText::Ascii(text),
        }
    }

    /// Makes the bare word of these characters.
    pub fn bare(text: &'a [char]) -> WrittenWord<'a>
        ensures { result ≡ Word.Bare text.now }
    {
        WrittenWord {
            text: WrittenText::Bare(text),
        }
    }

    /// Makes the quoted word of this text.
    pub fn quoted(text: &'a [char]) -> WrittenWord<'a>
        ensures { result ≡ Word.Quoted text.now }
    {
        WrittenWord {
            text: WrittenText::Quoted(text),
        }
    }

    /// Makes this word, which nothing else holds.
    pub fn own(word: Word) -> WrittenWord<'a>
        ensures { result ≡ word }
    {
        WrittenWord {
            text: WrittenText::Own(word),
        }
    }
}
