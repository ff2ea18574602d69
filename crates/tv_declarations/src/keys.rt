//! Keys as words.

ghost use Rattle.std.specs.Prelude.{◌≡◌, option_copied};
ghost use Rattle.tv_declarations.specs.Spelling.Keys.{key_name};
ghost use Rattle.tv_declarations.specs.Reading.Keys.{key_named, named_key, control_key, control_letter, alt_key, alt_letter, function_in, function_key, key_by_name, key_in};
ghost use Rattle.tv_words.specs.declared.word.Word.TheVariants.{Bare};
ghost use Rattle.tv_words.specs.Tokens.{bare_of, token_word};

use tv_event::Key;
use tv_words::{BareText, Token, Word, is_same, number};

/// The keys that have a name of their own.
const NAMED: [Key; 17] = [
    Key::Tab,
    Key::ShiftTab,
    Key::Enter,
    Key::Esc,
    Key::Up,
    Key::Down,
    Key::Left,
    Key::Right,
    Key::Home,
    Key::End,
    Key::PageUp,
    Key::PageDown,
    Key::CtrlPageUp,
    Key::CtrlPageDown,
    Key::Backspace,
    Key::Delete,
    Key::Insert,
];

/// Returns the key that a word names.
pub fn key(word: &Word) -> Option<Key>
    ensures { result ≡ key_in word.now }
{
    match word {
        Word::Bare(text) => key_of(text.as_slice()),
        Word::Quoted(_) => None,
    }
}

/// Returns the key that a token names.
pub fn token_key(token: &Token<'_>) -> Option<Key>
    ensures { result ≡ key_in (token_word token.now) }
{
    match token {
        Token::Bare(text) => short_key(text),
        Token::Quoted(_) => None,
    }
}

fn short_key(text: &BareText<'_>) -> Option<Key>
    ensures { result ≡ key_in (Bare (bare_of text.now)) }
{
    match text.short() {
        Some(chars) => key_of(chars.as_slice()),
        None => None,
    }
}

/// Returns the key that the bare word of these characters names.
pub fn key_of(text: &[char]) -> Option<Key>
    ensures { result ≡ key_in (Bare text.now) }
{
    match lettered_key(text) {
        Some(key) => Some(key),
        None => named_key(text),
    }
}

fn named_key(text: &[char]) -> Option<Key>
    ensures { result ≡ named_key (Bare text.now) }
{
    first_named(&NAMED, text).copied()
}

fn first_named<'a>(keys: &'a [Key], text: &[char]) -> Option<&'a Key>
    ensures { option_copied result ≡ key_named keys.now (Bare text.now) }
{
    keys.iter().find(|key| is_same(text, key_name(**key)))
}

/// Returns the name of a key that has one of its own. A key with a letter, a digit or a number has none, and gets the empty
/// text.
pub fn key_name(key: Key) -> &'static [u8]
    ensures { result.now ≡ key_name key }
{
    match key {
        Key::Tab => b"Tab",
        Key::ShiftTab => b"Shift-Tab",
        Key::Enter => b"Enter",
        Key::Esc => b"Esc",
        Key::Up => b"Up",
        Key::Down => b"Down",
        Key::Left => b"Left",
        Key::Right => b"Right",
        Key::Home => b"Home",
        Key::End => b"End",
        Key::PageUp => b"PgUp",
        Key::PageDown => b"PgDn",
        Key::CtrlPageUp => b"Ctrl-PgUp",
        Key::CtrlPageDown => b"Ctrl-PgDn",
        Key::Backspace => b"Backspace",
        Key::Delete => b"Del",
        Key::Insert => b"Ins",
        Key::Ctrl(_) | Key::Function(_) | Key::Alt(_) | Key::Char(_) => b"",
    }
}

// `Ctrl-` or `Alt-` and a letter or digit, or `F` and a number.
fn lettered_key(text: &[char]) -> Option<Key>
    ensures { result ≡ key_by_name text.now }
{
    if let Some(letter) = control_letter(text) {
        control_key(letter)
    } else if let Some(letter) = alt_letter(text) {
        alt_key(letter)
    } else {
        function_in(text)
    }
}

// What follows `Ctrl-`.
fn control_letter(text: &[char]) -> Option<char>
    ensures { result ≡ control_letter text.now }
{
    match text {
        ['C', 't', 'r', 'l', '-', letter] => Some(*letter),
        _ => None,
    }
}

// What follows `Alt-`.
fn alt_letter(text: &[char]) -> Option<char>
    ensures { result ≡ alt_letter text.now }
{
    match text {
        ['A', 'l', 't', '-', letter] => Some(*letter),
        _ => None,
    }
}

fn control_key(letter: char) -> Option<Key>
    ensures { result ≡ control_key letter }
{
    letter.is_ascii_uppercase().then_some(Key::Ctrl(letter))
}

fn alt_key(letter: char) -> Option<Key>
    ensures { result ≡ alt_key letter }
{
    (letter.is_ascii_uppercase() || letter.is_ascii_digit()).then_some(Key::Alt(letter))
}

fn function_in(text: &[char]) -> Option<Key>
    ensures { result ≡ function_in text.now }
{
    match text {
        ['F', digits @ ..] => function_key(number(digits)),
        _ => None,
    }
}

fn function_key(number: Option<i32>) -> Option<Key>
    ensures { result ≡ function_key number }
{
    let number = u8::try_from(number?).ok()?;
    (1 <= number && number <= 12).then_some(Key::Function(number))
}
