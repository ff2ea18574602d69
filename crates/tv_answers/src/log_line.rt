//! The lines of a log, by their words.

ghost use Rattle.std.specs.Prelude.{◌≡◌};
ghost use Rattle.std.specs.List.{list_all};
ghost use Rattle.tv_answers.specs.LogLines.{command_in, end_command, is_happening, is_name_word, is_number, is_one_value, is_passed, is_row, is_screen, is_value};

use tv_event::Command;
use tv_words::Word;

// The command that a word names, if a dialog can end by it.
fn end_command(word: &Word) -> Option<Command>
    ensures { result ≡ end_command word.now }
{
    if word.is(b"ok") {
        Some(Command::OK)
    } else if word.is(b"cancel") {
        Some(Command::CANCEL)
    } else if word.is(b"yes") {
        Some(Command::YES)
    } else if word.is(b"no") {
        Some(Command::NO)
    } else {
        None
    }
}

/// Returns the command at the end of an `end` line.
pub fn command_in(words: &[Word]) -> Option<Command>
    ensures { result ≡ command_in words.now }
{
    match words {
        [word] => end_command(word),
        _ => None,
    }
}

fn is_number(word: &Word) -> bool
    ensures { result ≡ is_number word.now }
{
    word.number().is_some()
}

fn is_name(word: &Word) -> bool
    ensures { result ≡ is_name_word word.now }
{
    word.name().is_some()
}

fn are_numbers(words: &[Word]) -> bool
    ensures { result ≡ list_all is_number words.now }
{
    words.iter().all(|word| is_number(word))
}

// Whether it is a text, an item, or `-` for no marks.
fn is_one_value(word: &Word) -> bool
    ensures { result ≡ is_one_value word.now }
{
    word.text().is_some() || word.is(b"-") || is_number(word)
}

/// Whether the words are those of a value, whatever its field is.
pub fn is_value(words: &[Word]) -> bool
    ensures { result ≡ is_value words.now }
{
    match words {
        [] => false,
        [word] => is_one_value(word),
        _ => are_numbers(words),
    }
}

// Whether it says what happened to a window, a dialog or a control.
fn is_happening(word: &Word) -> bool
    ensures { result ≡ is_happening word.now }
{
    word.is(b"open")
        || word.is(b"focus")
        || word.is(b"press")
        || word.is(b"invalid")
        || word.is(b"close")
}

fn is_screen(word: &Word) -> bool
    ensures { result ≡ is_screen word.now }
{
    word.is(b"shot") || word.is(b"colors")
}

/// Whether the words say what happened, and answer nothing.
pub fn is_passed(words: &[Word]) -> bool
    ensures { result ≡ is_passed words.now }
{
    match words {
        [word] => word.is(b"quit"),
        [word, of] => (is_happening(word) && is_name(of)) || (word.is(b"command") && is_number(of)),
        [word, columns, rows] => is_screen(word) && is_number(columns) && is_number(rows),
        [word, name, x, y] => { word.is(b"moved") && is_name(name) && is_number(x) && is_number(y) }
        _ => false,
    }
}

/// Whether the line is a row of a screen.
pub fn is_row(line: &[u8]) -> bool
    ensures { result ≡ is_row line.now }
{
    matches!(line, [b':', ..])
}
