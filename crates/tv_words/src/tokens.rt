//! The words of a line, judged in place.

ghost use Rattle.std.specs.Prelude.{◌≡◌, ◌∷◌, ◌++◌, ◌≤◌, [], List, chars, length, IfSome, Some, option_and_then, option_to_list};
ghost use Rattle.std.specs.Option.{option_map};
ghost use Rattle.tv_words.specs.declared.tokens.Place.TheVariants.{Between};
ghost use Rattle.tv_words.specs.declared.word.Word.{Word as SeenWord};
ghost use Rattle.tv_words.specs.Reading.LineTokens.{few_after, may_end_line, next_place, word_begun};
ghost use Rattle.tv_words.specs.Reading.LineWords.{line_words};
ghost use Rattle.tv_words.specs.Tokens.{at_most_three, token_word, words_in};
ghost use Rattle.tv_words.specs.Words.{SpellsWords};

use crate::scan::{has_control, is_comment};
use crate::token::{BareText, QuotedText, Token, first_char};

/// The words of a line that has no more than three.
#[derive(Clone, Copy, Debug)]
pub enum Tokens<'a> {
    Zero,
    One(Token<'a>),
    Two(Token<'a>, Token<'a>),
    Three(Token<'a>, Token<'a>, Token<'a>),
}

impl<'a> Tokens<'a> {
    // Adds a word at the end, if there is one. `None` where it would be the fourth.
    fn with(self, token: Option<Token<'a>>) -> Option<Tokens<'a>>
        ensures { option_map words_in result ≡ at_most_three (words_in self.entry ++ option_to_list (option_map token_word token.entry)) }
    {
        let Some(token) = token else {
            return Some(self);
        };
        match self {
            Tokens::Zero => Some(Tokens::One(token)),
            Tokens::One(first) => Some(Tokens::Two(first, token)),
            Tokens::Two(first, second) => Some(Tokens::Three(first, second, token)),
            Tokens::Three(..) => None,
        }
    }
}

// What the characters before a place leave open.
#[derive(Clone, Copy)]
enum Place {
    Between,
    InBare,
    InQuoted,
    // After a backslash.
    InEscape,
    // Right after the closing quote.
    Closed,
}

impl Place {
    // The place after a character, or `None` where the character can't stand there.
    fn next(self, ch: char) -> Option<Place>
        ensures { result ≡ next_place self ch }
    {
        match (self, ch) {
            (Place::Between | Place::InBare | Place::Closed, ' ') => Some(Place::Between),
            (Place::Between, '"') => Some(Place::InQuoted),
            (Place::Between, _) => Some(Place::InBare),
            (Place::InBare, '"') => None,
            (Place::InBare, _) => Some(Place::InBare),
            (Place::InQuoted, '"') => Some(Place::Closed),
            (Place::InQuoted, '\\') => Some(Place::InEscape),
            (Place::InQuoted, _) => Some(Place::InQuoted),
            (Place::InEscape, '"' | '\\' | 'n') => Some(Place::InQuoted),
            (Place::InEscape | Place::Closed, _) => None,
        }
    }

    // Whether a line may end here.
    fn is_end(self) -> bool
        ensures { result ≡ may_end_line self }
    {
        match self {
            Place::Between | Place::InBare | Place::Closed => true,
            Place::InQuoted | Place::InEscape => false,
        }
    }

    // The word that begins with the first character of a text.
    fn token<'a>(self, ch: char, text: &'a str, after: &'a str) -> Option<Token<'a>>
        requires { chars text.now ≡ ch ∷ chars after.now }
        ensures { option_map token_word result ≡ word_begun self ch (chars after.now) }
    {
        match (self, ch) {
            (Place::Between, ' ') => None,
            (Place::Between, '"') => Some(Token::Quoted(QuotedText { rest: after })),
            (Place::Between, _) => Some(Token::Bare(BareText { rest: text })),
            _ => None,
        }
    }
}

fn scan(text: &str) -> Option<Tokens<'_>>
    ensures { option_map words_in result ≡ few_after [] Between (chars text.now) }
{
    let mut tokens = Tokens::Zero;
    let mut place = Place::Between;
    let mut rest = text;
    while let Some((ch, after)) = first_char(rest) {
        tokens = tokens.with(place.token(ch, rest, after))?;
        place = place.next(ch)?;
        rest = after;
    }
    place.is_end().then_some(tokens)
}

/// Returns the words of a line without its line end, which lend the line and take no memory. `None` where the line is faulty,
/// as `words_of` has it, or has more than three words.
pub fn tokens_of(line: &[u8]) -> Option<Tokens<'_>>
    ensures read { option_map words_in result ≡ option_and_then at_most_three (line_words line.now) }
    ensures spelled { IfSome result (λ tokens. SpellsWords line.now (words_in tokens)) }
    ensures only { (words : List SeenWord) → SpellsWords line.now words → length words ≤ 3 → option_map words_in result ≡ Some words }
{
    let Ok(text) = str::from_utf8(line) else {
        return None;
    };
    if has_control(text) {
        return None;
    }
    if is_comment(text) {
        return Some(Tokens::Zero);
    }
    scan(text)
}
