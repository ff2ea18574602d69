//! The table: what whole sequences mean.

ghost use Rattle.std.specs.Prelude.{◌≡◌, ◌<◌, option_map, pos};
ghost use Rattle.tv_terminal.specs.Table.{alt, ascii, bare, by_code, by_letter, by_tilde, coded, console, corner_report, ctrl_coded, ctrl_key_of_number, held, is_left, key_action, key_of_number, lettered, mouse, near_place, of_keys, of_mouse, old_mouse, plain_code, point, ready_report, size_report, typed_char, typed_code};

use crate::action::{Action, Size};
use crate::numbers::Numbers;
use tv_cells::{Point, is_narrow};
use tv_event::{Event, Key};

const ESC: u32 = 0x1b;

fn key_action(key: Key) -> Action
    ensures { result ≡ Action.Event (Event.Key key) }
{
    Action::Event(Event::Key(key))
}

fn key_action_of(key: Option<Key>) -> Option<Action>
    ensures { result ≡ option_map key_action key }
{
    match key {
        Some(key) => Some(key_action(key)),
        None => None,
    }
}

fn typed_char(ch: char) -> Option<Action>
    ensures { result ≡ typed_char ch }
{
    is_narrow(ch).then_some(key_action(Key::Char(ch)))
}

// The character of this number.
pub(crate) fn typed_code(code: u32) -> Option<Action>
    ensures { result ≡ typed_code code }
{
    match char::from_u32(code) {
        Some(ch) => typed_char(ch),
        None => None,
    }
}

// A byte below 128 that stands for itself.
pub(crate) fn ascii(byte: u8) -> Option<Action>
    requires { byte < 128 }
    ensures { result ≡ ascii byte }
{
    match byte {
        0x09 => Some(key_action(Key::Tab)),
        0x0a | 0x0d => Some(key_action(Key::Enter)),
        0x08 | 0x7f => Some(key_action(Key::Backspace)),
        0x1c => Some(Action::Quit),
        1..=26 => Some(key_action(Key::Ctrl(char::from(byte + 64)))),
        _ => typed_char(char::from(byte)),
    }
}

// ESC and a letter or a digit.
pub(crate) fn alt(byte: u8) -> Option<Action>
    ensures { result ≡ alt byte }
{
    match byte {
        b'a'..=b'z' => Some(key_action(Key::Alt(char::from(byte - 32)))),
        b'A'..=b'Z' | b'0'..=b'9' => Some(key_action(Key::Alt(char::from(byte)))),
        _ => None,
    }
}

// Ctrl with the character of a number.
fn ctrl_coded(code: u32) -> Option<Action>
    ensures { result ≡ ctrl_coded code }
{
    match u8::try_from(code) {
        Ok(letter @ b'a'..=b'z') => Some(key_action(Key::Ctrl(char::from(letter - 32)))),
        Ok(letter @ b'A'..=b'Z') => Some(key_action(Key::Ctrl(char::from(letter)))),
        Ok(b'\\') => Some(Action::Quit),
        _ => None,
    }
}

fn alt_code(code: u32) -> Option<Action>
    ensures { result ≡ alt code }
{
    match u8::try_from(code) {
        Ok(byte) => alt(byte),
        Err(_) => None,
    }
}

// No other key is held with the character of a number.
fn plain_code(code: u32) -> Option<Action>
    ensures { result ≡ plain_code code }
{
    if code == ESC {
        Some(key_action(Key::Esc))
    } else if code < 128 {
        ascii(code as u8)
    } else {
        typed_code(code)
    }
}

// A key by the number of its character and that of the keys held with it.
fn coded(code: u32, held: u32) -> Option<Action>
    ensures { result ≡ coded code held }
{
    if code == 9 && held == 2 {
        return Some(key_action(Key::ShiftTab));
    }
    match held {
        0..=2 => plain_code(code),
        3 => alt_code(code),
        5 => ctrl_coded(code),
        _ => None,
    }
}

fn key_of_number(number: u32) -> Option<Key>
    ensures { result ≡ key_of_number number }
{
    match number {
        1 | 7 => Some(Key::Home),
        2 => Some(Key::Insert),
        3 => Some(Key::Delete),
        4 | 8 => Some(Key::End),
        5 => Some(Key::PageUp),
        6 => Some(Key::PageDown),
        11..=15 => Some(Key::Function((number - 10) as u8)),
        17..=21 => Some(Key::Function((number - 11) as u8)),
        23..=24 => Some(Key::Function((number - 12) as u8)),
        _ => None,
    }
}

fn ctrl_key_of_number(number: u32) -> Option<Key>
    ensures { result ≡ ctrl_key_of_number number }
{
    match number {
        5 => Some(Key::CtrlPageUp),
        6 => Some(Key::CtrlPageDown),
        _ => None,
    }
}

fn lettered(last: u8) -> Option<Key>
    ensures { result ≡ lettered last }
{
    match last {
        b'A' => Some(Key::Up),
        b'B' => Some(Key::Down),
        b'C' => Some(Key::Right),
        b'D' => Some(Key::Left),
        b'F' => Some(Key::End),
        b'H' => Some(Key::Home),
        _ => None,
    }
}

// A letter with no number before it.
fn bare(last: u8) -> Option<Key>
    ensures { result ≡ bare last }
{
    match last {
        b'P'..=b'S' => Some(Key::Function(last - 79)),
        b'Z' => Some(Key::ShiftTab),
        b'M' => Some(Key::Enter),
        _ => lettered(last),
    }
}

// F1 to F5 of the Linux console.
pub(crate) fn console(last: u8) -> Option<Action>
    ensures { result ≡ option_map key_action (console last) }
{
    match last {
        b'A'..=b'E' => Some(key_action(Key::Function(last - 64))),
        _ => None,
    }
}

fn by_tilde(numbers: Numbers) -> Option<Action>
    ensures { result ≡ by_tilde numbers }
{
    match numbers {
        Numbers::One(number) => key_action_of(key_of_number(number)),
        Numbers::Two(number, 0..=1) => key_action_of(key_of_number(number)),
        Numbers::Two(number, 5) => key_action_of(ctrl_key_of_number(number)),
        Numbers::Three(27, held, code) => coded(code, held),
        _ => None,
    }
}

fn by_code(numbers: Numbers) -> Option<Action>
    ensures { result ≡ by_code numbers }
{
    match numbers {
        Numbers::One(code) => coded(code, 1),
        Numbers::Two(code, held) => coded(code, held),
        _ => None,
    }
}

fn by_letter(numbers: Numbers, last: u8) -> Option<Key>
    ensures { result ≡ by_letter numbers last }
{
    match numbers {
        Numbers::One(0) => bare(last),
        Numbers::One(1) | Numbers::Two(0..=1, 0..=1) => lettered(last),
        _ => None,
    }
}

// The report of where a terminal's cursor stands, which is in its corner when it is asked for its size.
fn corner_report(numbers: Numbers) -> Option<Action>
    ensures { result ≡ corner_report numbers }
{
    match numbers {
        Numbers::Two(rows, columns) if rows > 1 => Some(Action::Resized(Size { columns, rows })),
        _ => key_action_of(by_letter(numbers, b'R')),
    }
}

// The report of a terminal's size in cells.
fn size_report(numbers: Numbers) -> Option<Action>
    ensures { result ≡ size_report numbers }
{
    match numbers {
        Numbers::Three(8, rows, columns) => Some(Action::Resized(Size { columns, rows })),
        _ => None,
    }
}

// The report that a terminal is ready.
fn ready_report(numbers: Numbers) -> Option<Action>
    ensures { result ≡ ready_report numbers }
{
    match numbers {
        Numbers::One(0) => Some(Action::Ready),
        _ => None,
    }
}

// The numbers and the last byte of a sequence behind ESC [.
pub(crate) fn of_keys(numbers: Numbers, last: u8) -> Option<Action>
    ensures { result ≡ of_keys numbers last }
{
    match last {
        b'~' => by_tilde(numbers),
        b'u' => by_code(numbers),
        b't' => size_report(numbers),
        b'n' => ready_report(numbers),
        b'R' => corner_report(numbers),
        _ => key_action_of(by_letter(numbers, last)),
    }
}

// A column or a row, which a terminal counts from 1.
fn place(number: u32) -> i32
    ensures { result ≡ pos (near_place number) }
{
    number.saturating_sub(1).min(9999) as i32
}

fn point(x: u32, y: u32) -> Point
    ensures { result ≡ point x y }
{
    Point {
        x: place(x),
        y: place(y),
    }
}

fn is_left(number: u32) -> bool
    ensures { result ≡ is_left number }
{
    number < 64 && number % 4 == 0
}

// The left button is down, and was before if the mouse moved.
fn held(number: u32, point: Point) -> Action
    ensures { result ≡ held number point }
{
    if number < 32 {
        Action::Event(Event::Down(point))
    } else {
        Action::Event(Event::Move(point))
    }
}

fn mouse(number: u32, point: Point, last: u8) -> Option<Action>
    ensures { result ≡ mouse number point last }
{
    if !is_left(number) {
        return None;
    }
    match last {
        b'M' => Some(held(number, point)),
        b'm' if number < 32 => Some(Action::Event(Event::Up(point))),
        _ => None,
    }
}

// The numbers and the last byte of a mouse's report.
pub(crate) fn of_mouse(numbers: Numbers, last: u8) -> Option<Action>
    ensures { result ≡ of_mouse numbers last }
{
    match numbers {
        Numbers::Three(number, x, y) => mouse(number, point(x, y), last),
        _ => None,
    }
}

// The number, the column and the row of a report in three bytes.
pub(crate) fn old_mouse(number: u32, x: u32, y: u32) -> Option<Action>
    ensures { result ≡ old_mouse number x y }
{
    if number < 32 && number % 4 == 3 {
        Some(Action::Event(Event::Up(point(x, y))))
    } else {
        mouse(number, point(x, y), b'M')
    }
}
