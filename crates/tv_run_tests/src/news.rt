//! What a program is told in a terminal that is in memory, and how its run ends.

use arrayvec::ArrayVec;
use std::alloc::Global;
use std::test::Fail;
use tv_app::{App, Event, Key, Point, open};
use tv_live::{News, Next, Parting, Piece, Pieces, PlayFault, Program, live};
use tv_test_support::Memory;

const DESCRIPTION: &str = r#"tvd 1
screen 30 10
status "F2 Ask" F2 100
status "Alt-X Exit" Alt-X quit
dialog ask 2 2 20 6 "Ask" opens 100 ends cancel
button no 2 2 10 "~C~ancel" cancel
end
"#;

// What comes at a read: bytes, or nothing for a while. Behind the last the reader fails, or is at its end.
#[derive(Drop)]
struct Sent {
    pieces: &'static [&'static [u8]],
    place: usize,
    fails: bool,
    failures: u64,
    is_ended: bool,
}

impl Pieces for Sent {
    ghost use Rattle.std.specs.Prelude.{None};

    ghost heard = { λ s. record { left = None; failures = s.failures; is_ended = s.is_ended } };

    fn next(&mut self, room: &mut [u8]) -> Option<Piece> {
        self.is_ended = false;
        if let Some(bytes) = self.pieces.get(self.place) {
            self.place = self.place.saturating_add(1);
            let count = room.len().min(bytes.len());
            room[..count].copy_from_slice(&bytes[..count]);
            return Some(if count == 0 {
                Piece::Pause
            } else {
                Piece::Bytes(count)
            });
        }
        if self.fails {
            self.failures = self.failures.saturating_add(1);
            return None;
        }
        self.is_ended = true;
        Some(Piece::End)
    }
}

// A program that keeps what it is told, and leaves with the event of a key.
#[derive(Drop)]
struct Recorder {
    news: ArrayVec<News, 16>,
}

impl Program for Recorder {
    fn act(&mut self, _app: &mut App, news: &News) -> Next {
        if !self.news.is_full() {
            self.news.push(*news);
        }
        if matches!(
            news,
            News::Event {
                event: Event::Key(Key::Char('q')),
                is_left: true
            }
        ) {
            return Next::Leave;
        }
        Next::Wait
    }
}

// What is sent, whether the reader then fails, how much the screen's writer takes, what the program is told, and the end.
struct Run {
    sent: &'static [&'static [u8]],
    fails: bool,
    room: usize,
    news: &'static [News],
    ended: Result<Parting, PlayFault>,
}

// More than any of these runs writes.
const ROOM: usize = 65_536;

const TAB: News = News::Event {
    event: Event::Key(Key::Tab),
    is_left: true,
};

const RUNS: [Run; 9] = [
    Run {
        sent: &[b"\t"],
        fails: false,
        room: ROOM,
        news: &[News::Begin, TAB, News::Turn, News::Turn],
        ended: Ok(Parting::Ended),
    },
    // What a status item or the open dialog takes isn't left.
    Run {
        sent: &[b"\x1bOQ\t"],
        fails: false,
        room: ROOM,
        news: &[
            News::Begin,
            News::Event {
                event: Event::Key(Key::Function(2)),
                is_left: false,
            },
            News::Event {
                event: Event::Key(Key::Tab),
                is_left: false,
            },
            News::Turn,
            News::Turn,
        ],
        ended: Ok(Parting::Ended),
    },
    // The program leaves, and what comes after that isn't heard.
    Run {
        sent: &[b"xqz"],
        fails: false,
        room: ROOM,
        news: &[
            News::Begin,
            News::Event {
                event: Event::Key(Key::Char('x')),
                is_left: true,
            },
            News::Event {
                event: Event::Key(Key::Char('q')),
                is_left: true,
            },
        ],
        ended: Ok(Parting::Over),
    },
    Run {
        sent: &[b"\x1bx"],
        fails: false,
        room: ROOM,
        news: &[
            News::Begin,
            News::Event {
                event: Event::Key(Key::Alt('X')),
                is_left: false,
            },
        ],
        ended: Ok(Parting::Over),
    },
    Run {
        sent: &[b"\x03"],
        fails: false,
        room: ROOM,
        news: &[News::Begin],
        ended: Ok(Parting::Left),
    },
    // A report of the terminal is no event.
    Run {
        sent: &[b"\x1b[0n", b""],
        fails: false,
        room: ROOM,
        news: &[News::Begin, News::Turn, News::Turn, News::Turn],
        ended: Ok(Parting::Ended),
    },
    // A down beside the screen comes to its corner.
    Run {
        sent: &[b"\x1b[<0;99;99M"],
        fails: false,
        room: ROOM,
        news: &[
            News::Begin,
            News::Event {
                event: Event::Down(Point { x: 0, y: 0 }),
                is_left: true,
            },
            News::Turn,
            News::Turn,
        ],
        ended: Ok(Parting::Ended),
    },
    Run {
        sent: &[b""],
        fails: true,
        room: ROOM,
        news: &[News::Begin, News::Turn],
        ended: Err(PlayFault::Read),
    },
    Run {
        sent: &[b"x"],
        fails: false,
        room: 100,
        news: &[News::Begin],
        ended: Err(PlayFault::Screen),
    },
];

fn expect_run(alloc: Global, run: &Run) -> Result<(), Fail> {
    let mut app = open(alloc, DESCRIPTION.as_bytes())?;
    let mut sent = Sent {
        pieces: run.sent,
        place: 0,
        fails: run.fails,
        failures: 0,
        is_ended: false,
    };
    let mut screen = Memory::new(alloc, run.room, run.room)?;
    let mut program = Recorder {
        news: ArrayVec::new(),
    };
    let ended = live(alloc, &mut app, &mut sent, &mut screen, &mut program);
    let news = program.news.as_slice();
    if ended == run.ended && news == run.news {
        return Ok(());
    }
    Err(Fail::new(format_args!("{ended:?} after {news:?}")))
}

#[test]
fn told_programs(rt: HostRuntime) -> Result<(), Fail> {
    for run in &RUNS {
        expect_run(rt.alloc(), run)?;
    }
    Ok(())
}
