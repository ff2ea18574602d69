//! The mouse, the wish to leave, and what means nothing.

use super::gives;
use tv_cells::Point;
use tv_event::{Event, Key};
use tv_terminal::{Action, Size};

const fn key(key: Key) -> Action {
    Action::Event(Event::Key(key))
}

#[test]
fn mouse(rt: HostRuntime) {
    let start = Point { x: 0, y: 0 };
    let middle = Point { x: 9, y: 4 };
    let far = Point { x: 9999, y: 24 };
    assert!(rt;
        gives(
            b"\x1b[<0;1;1M\x1b[<32;10;5M\x1b[<16;123456789012;25m",
            &[
                Action::Event(Event::Down(start)),
                Action::Event(Event::Move(middle)),
                Action::Event(Event::Up(far)),
            ],
        )
    );
    assert!(rt;
        gives(
            b"\x1b[M !!\x1b[M#*%",
            &[
                Action::Event(Event::Down(start)),
                Action::Event(Event::Up(middle)),
            ],
        )
    );
    assert!(rt; gives(b"\x1b[<2;1;1M\x1b[<64;1;1M\x1b[<35;1;1M", &[]));
}

#[test]
fn escapes(rt: HostRuntime) {
    assert!(rt; gives(b"\x1b\x1b", &[key(Key::Esc), key(Key::Esc)]));
    assert!(rt; gives(b"\x1b\x1b[A", &[key(Key::Esc), key(Key::Up)]));
    assert!(rt; gives(b"\x1b[1;\x1c\x1b\x03", &[Action::Quit, key(Key::Ctrl('C'))]));
    assert!(rt; gives(b"\x1b[92;5u", &[Action::Quit]));
}

#[test]
fn pastes(rt: HostRuntime) {
    let typed = [key(Key::Char('a')), key(Key::Char('b')), key(Key::Enter)];
    assert!(rt;
        gives(
            b"\x1b[200~a\t\r\n\x1bx\x03\x1b[Z\x1b[<0;1;1Mb\x1b[201~\r",
            &typed
        )
    );
    assert!(rt; gives(b"\x1b[201~\x1b[200~\r\x1c\r", &[Action::Quit]));
}

const SIZE: Size = Size {
    columns: 80,
    rows: 24,
};

#[test]
fn reports(rt: HostRuntime) {
    assert!(rt;
        gives(
            b"\x1b[8;24;80t\x1b[4;600;800t\x1b[24;80R\x1b[8;24t\x1b[3n\x1b[0n",
            &[Action::Resized(SIZE), Action::Resized(SIZE), Action::Ready]
        )
    );
}

const UNHEARD: [&str; 13] = [
    "\x1b[1;1R",
    "\x1b[1;2A",
    "\x1b[200~",
    "\x1b[?1;2c",
    "\x1b;",
    "\x1bé",
    "\x1b]11;rgb:ffff/ffff/ffff\x07",
    "\x1b[00000000000000000000000000000000000000001A",
    "\x1b[",
    "\u{301}",
    "中",
    "😀",
    "\u{85}",
];

#[test]
fn nothing(rt: HostRuntime) {
    for text in &UNHEARD {
        assert!(rt; gives(text.as_bytes(), &[]), "{text:?}");
    }
    assert!(rt;
        gives(
            b"\xc0\xaf\xed\xa0\x80\xf5\xff\xe2\x82A",
            &[key(Key::Char('A'))]
        )
    );
}
