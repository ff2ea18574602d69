//! What some bytes are: the front of a sequence, a whole one, or neither.

ghost use Rattle.std.specs.Prelude.{◌≡◌, ◌≤◌};
ghost use Rattle.tv_terminal.specs.Sequences.{only, meaning, numbers_from, old_row, old_column, old_report, console_from, bracketed, string_from, meaningless, is_heard, after_escape, reading_of};

use crate::action::Action;
use crate::character::character;
use crate::numbers::Numbers;
use crate::table::{alt, console, of_keys, of_mouse, old_mouse};

/// What some bytes are.
#[derive(Clone, Copy, Debug)]
pub(crate) enum Reading {
    /// The front of sequences, and none itself.
    Unfinished,
    /// A sequence, and what it means.
    Whole(Option<Action>),
    /// The front of no sequence.
    Broken,
}

/// What the numbers of a sequence are about.
#[derive(Clone, Copy, Debug)]
pub(crate) enum Kind {
    Keys,
    Mouse,
}

// A sequence that is whole before these bytes.
pub(crate) fn only(action: Option<Action>, bytes: &[u8]) -> Reading
    ensures { result ≡ only action bytes.now }
{
    match bytes {
        [] => Reading::Whole(action),
        _ => Reading::Broken,
    }
}

fn meaning(kind: Kind, numbers: Numbers, last: u8) -> Option<Action>
    ensures { result ≡ meaning kind numbers last }
{
    match kind {
        Kind::Keys => of_keys(numbers, last),
        Kind::Mouse => of_mouse(numbers, last),
    }
}

// The numbers of a sequence and its last byte.
fn numbers_from(kind: Kind, bytes: &[u8]) -> Reading
    ensures { result ≡ numbers_from kind (Numbers.One 0) bytes.now }
{
    let mut numbers = Numbers::One(0);
    let mut rest = bytes;
    while let [byte, after @ ..] = rest {
        match *byte {
            0x20..=0x3f => {
                numbers = numbers.with_byte(*byte);
                rest = after;
            }
            0x40..=0x7e => return only(meaning(kind, numbers, *byte), after),
            _ => return Reading::Broken,
        }
    }
    Reading::Unfinished
}

// Behind ESC [ M: three bytes, each 32 above a number.
fn old_report(bytes: &[u8]) -> Reading
    ensures { result ≡ old_report bytes.now }
{
    match bytes {
        [
            number @ 0x20..=0xff,
            x @ 0x20..=0xff,
            y @ 0x20..=0xff,
            rest @ ..,
        ] => {
            let number = u32::from(*number - 32);
            let x = u32::from(*x - 32);
            let y = u32::from(*y - 32);
            only(old_mouse(number, x, y), rest)
        }
        [] | [0x20..=0xff] | [0x20..=0xff, 0x20..=0xff] => Reading::Unfinished,
        _ => Reading::Broken,
    }
}

// Behind ESC [ [: a letter.
fn console_from(bytes: &[u8]) -> Reading
    ensures { result ≡ console_from bytes.now }
{
    match bytes {
        [] => Reading::Unfinished,
        [last @ 0x40..=0x7e, rest @ ..] => only(console(*last), rest),
        _ => Reading::Broken,
    }
}

// Behind ESC [.
fn bracketed(bytes: &[u8]) -> Reading
    ensures { result ≡ bracketed bytes.now }
{
    match bytes {
        [b'<', rest @ ..] => numbers_from(Kind::Mouse, rest),
        [b'M', rest @ ..] => old_report(rest),
        [b'[', rest @ ..] => console_from(rest),
        _ => numbers_from(Kind::Keys, bytes),
    }
}

// Behind ESC ]: a text up to BEL.
fn string_from(bytes: &[u8]) -> Reading
    ensures { result ≡ string_from bytes.now }
{
    let mut rest = bytes;
    while let [byte, after @ ..] = rest {
        match *byte {
            0x07 => return only(None, after),
            0x00..=0x1f => return Reading::Broken,
            _ => rest = after,
        }
    }
    Reading::Unfinished
}

fn meaningless(reading: Reading) -> Reading
    ensures { result ≡ meaningless reading }
{
    match reading {
        Reading::Whole(_) => Reading::Whole(None),
        _ => reading,
    }
}

// Behind ESC.
fn after_escape(bytes: &[u8]) -> Reading
    ensures { result ≡ after_escape bytes.now }
{
    match bytes {
        [] => Reading::Unfinished,
        [0x03 | 0x1b | 0x1c, ..] => Reading::Broken,
        [b'O', rest @ ..] => numbers_from(Kind::Keys, rest),
        [b'[', rest @ ..] => bracketed(rest),
        [b']', rest @ ..] => string_from(rest),
        [byte @ 0x00..=0x7f, rest @ ..] => only(alt(*byte), rest),
        [first, rest @ ..] => meaningless(character(*first, rest)),
    }
}

/// Tells what the bytes are.
pub(crate) fn reading_of(bytes: &[u8]) -> Reading
    ensures { result ≡ reading_of bytes.now }
{
    match bytes {
        [] => Reading::Unfinished,
        [0x1b, rest @ ..] => after_escape(rest),
        [first, rest @ ..] => character(*first, rest),
    }
}
