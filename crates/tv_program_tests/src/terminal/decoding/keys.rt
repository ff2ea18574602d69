//! The keys, one by one.

use super::gives;
use tv_event::{Event, Key};
use tv_terminal::Action;

fn is_key(text: &str, key: Key) -> bool {
    gives(text.as_bytes(), &[Action::Event(Event::Key(key))])
}

const NAMED: [(&str, Key); 22] = [
    ("\t", Key::Tab),
    ("\x1b[Z", Key::ShiftTab),
    ("\r", Key::Enter),
    ("\n", Key::Enter),
    ("\x1b", Key::Esc),
    ("\x1b[A", Key::Up),
    ("\x1bOA", Key::Up),
    ("\x1b[B", Key::Down),
    ("\x1b[D", Key::Left),
    ("\x1bOC", Key::Right),
    ("\x1b[H", Key::Home),
    ("\x1b[1~", Key::Home),
    ("\x1bOF", Key::End),
    ("\x1b[4~", Key::End),
    ("\x1b[5~", Key::PageUp),
    ("\x1b[6~", Key::PageDown),
    ("\x1b[5;5~", Key::CtrlPageUp),
    ("\x1b[6;5~", Key::CtrlPageDown),
    ("\x7f", Key::Backspace),
    ("\x08", Key::Backspace),
    ("\x1b[3~", Key::Delete),
    ("\x1b[2~", Key::Insert),
];

#[test]
fn named_keys(rt: HostRuntime) {
    for &(text, key) in &NAMED {
        assert!(rt; is_key(text, key), "{text:?}");
    }
}

const FUNCTIONS: [(&str, u8); 14] = [
    ("\x1bOP", 1),
    ("\x1b[[A", 1),
    ("\x1b[12~", 2),
    ("\x1bOR", 3),
    ("\x1b[[D", 4),
    ("\x1b[15~", 5),
    ("\x1b[[E", 5),
    ("\x1b[17~", 6),
    ("\x1b[18~", 7),
    ("\x1b[19~", 8),
    ("\x1b[20~", 9),
    ("\x1b[21~", 10),
    ("\x1b[23~", 11),
    ("\x1b[24~", 12),
];

#[test]
fn function_keys(rt: HostRuntime) {
    for &(text, number) in &FUNCTIONS {
        assert!(rt; is_key(text, Key::Function(number)), "{text:?}");
    }
}

const LETTERS: [(&str, Key); 14] = [
    ("\x03", Key::Ctrl('C')),
    ("\x1a", Key::Ctrl('Z')),
    ("\x1b[104;5u", Key::Ctrl('H')),
    ("\x1b[27;5;109~", Key::Ctrl('M')),
    ("\x1bx", Key::Alt('X')),
    ("\x1bX", Key::Alt('X')),
    ("\x1bo", Key::Alt('O')),
    ("\x1bO", Key::Alt('O')),
    ("\x1b7", Key::Alt('7')),
    (" ", Key::Char(' ')),
    ("~", Key::Char('~')),
    ("é", Key::Char('é')),
    ("€", Key::Char('€')),
    ("𝄞", Key::Char('𝄞')),
];

#[test]
fn letters(rt: HostRuntime) {
    for &(text, key) in &LETTERS {
        assert!(rt; is_key(text, key), "{text:?}");
    }
}
