//! The words of a line, read character by character.

ghost use Rattle.std.specs.Prelude.{◌≡◌, ℕ, List, [], ◌∷◌, ◌++◌, chars, find, not, false, ◌==◌, IfOk, IfSome, IsTrue, None, Some, option_map};
ghost use Rattle.std.specs.List.{list_any};
ghost use Rattle.std.specs.Char.{is_control};
ghost use Rattle.tv_words.specs.declared.word.Word.{Word as SeenWord};
ghost use Rattle.tv_words.specs.Reading.Scan.{at, finished, read_on, take_char};
ghost use Rattle.tv_words.specs.Words.{is_comment, SpellsWords};

use crate::word::{Word, Words};
use std::alloc::{AllocError, Global};
use std::mem;
use tv_valid::Chars;

// What the characters so far leave open.
#[derive(Drop)]
enum Mode {
    Between,
    InBare(Chars),
    InQuoted(Chars),
    // After a backslash.
    InEscape(Chars),
    // Right after the closing quote.
    Closed,
}

// A line that is read up to some place.
#[derive(Drop)]
struct Scanner {
    words: Words,
    mode: Mode,
}

impl Scanner {
    fn new(alloc: Global) -> Scanner
        ensures { result ≡ at [] Mode.Between }
    {
        Scanner {
            words: Words::new(alloc),
            mode: Mode::Between,
        }
    }

    // Takes one character more. Returns whether it can stand there: where it can't, no more is read.
    fn take(&mut self, alloc: Global, ch: char) -> Result<bool, AllocError>
        ensures yes { IfOk result (λ took. IsTrue took → take_char self.old ch ≡ Some self.new) }
        ensures no { IfOk result (λ took. took ≡ false → take_char self.old ch ≡ None) }
    {
        match (&mut self.mode, ch) {
            (Mode::Between | Mode::Closed, ' ') => self.mode = Mode::Between,
            (Mode::Between, '"') => self.mode = Mode::InQuoted(room(alloc)?),
            (Mode::Between, _) => self.mode = Mode::InBare(with(room(alloc)?, ch)?),
            (Mode::InBare(text), ' ') => {
                let text = mem::replace(text, Chars::new(alloc));
                self.words.push(Word::Bare(text))?;
                self.mode = Mode::Between;
            }
            (Mode::InBare(_), '"') => return Ok(false),
            (Mode::InBare(text), _) => text.push(ch)?,
            (Mode::InQuoted(text), '"') => {
                let text = mem::replace(text, Chars::new(alloc));
                self.words.push(Word::Quoted(text))?;
                self.mode = Mode::Closed;
            }
            (Mode::InQuoted(text), '\\') => {
                self.mode = Mode::InEscape(mem::replace(text, Chars::new(alloc)));
            }
            (Mode::InQuoted(text), _) => text.push(ch)?,
            (Mode::InEscape(text), _) => {
                let Some(meant) = unescaped(ch) else {
                    return Ok(false);
                };
                let text = mem::replace(text, Chars::new(alloc));
                self.mode = Mode::InQuoted(with(text, meant)?);
            }
            (Mode::Closed, _) => return Ok(false),
        }
        Ok(true)
    }

    // The words at the end of the line.
    fn finish(self) -> Result<Option<Words>, AllocError>
        ensures { IfOk result (λ words. words ≡ finished self) }
    {
        let Scanner { mut words, mode } = self;
        match mode {
            Mode::Between | Mode::Closed => Ok(Some(words)),
            Mode::InBare(text) => {
                words.push(Word::Bare(text))?;
                Ok(Some(words))
            }
            Mode::InQuoted(_) | Mode::InEscape(_) => Ok(None),
        }
    }
}

// A word without characters yet, with room for most words.
fn room(alloc: Global) -> Result<Chars, AllocError>
    ensures { IfOk result (λ text. text ≡ []) }
{
    Ok(Chars::from_vec(Vec::with_capacity(alloc, 16)?))
}

fn with(mut text: Chars, ch: char) -> Result<Chars, AllocError>
    ensures { IfOk result (λ longer. longer ≡ text ++ ch ∷ []) }
{
    text.push(ch)?;
    Ok(text)
}

// What the character after a backslash means.
fn unescaped(ch: char) -> Option<char>
    ensures { (words : List SeenWord) (text : List ℕ)
        → take_char (at words (Mode.InEscape text)) ch
        ≡ option_map (λ meant. at words (Mode.InQuoted (text ++ meant ∷ []))) result }
{
    match ch {
        '"' => Some('"'),
        '\\' => Some('\\'),
        'n' => Some('\n'),
        _ => None,
    }
}

fn first_visible(text: &str) -> Option<char>
    ensures { result ≡ find (λ c. not (c == 32)) (chars text.now) }
{
    text.chars().find(|ch| *ch != ' ')
}

pub(crate) fn is_comment(text: &str) -> bool
    ensures { result ≡ is_comment (chars text.now) }
{
    first_visible(text).is_some_and(|ch| ch == '#')
}

pub(crate) fn has_control(text: &str) -> bool
    ensures { result ≡ list_any is_control (chars text.now) }
{
    text.chars().any(|ch| ch.is_control())
}

fn scan(alloc: Global, text: &str) -> Result<Option<Words>, AllocError>
    ensures { IfOk result (λ words. words ≡ read_on (at [] Mode.Between) (chars text.now)) }
{
    let mut scanner = Scanner::new(alloc);
    for ch in text.chars() {
        let fits = scanner.take(alloc, ch)?;
        if !fits {
            return Ok(None);
        }
    }
    scanner.finish()
}

/// Returns the words of a line without its line end, or `None` where the line is faulty: not UTF-8, with a control character,
/// or with words that can't be told apart. A comment and an empty line have no words.
pub fn words_of(alloc: Global, line: &[u8]) -> Result<Option<Words>, AllocError>
    ensures spelled { IfOk result (λ found. IfSome found (λ words. SpellsWords line.now words)) }
    ensures only { IfOk result (λ found. (words : List SeenWord) → SpellsWords line.now words → found ≡ Some words) }
{
    let Ok(text) = str::from_utf8(line) else {
        return Ok(None);
    };
    if has_control(text) {
        return Ok(None);
    }
    if is_comment(text) {
        return Ok(Some(Words::new(alloc)));
    }
    scan(alloc, text)
}
