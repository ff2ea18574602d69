//! The order form in a terminal that is in memory.

use crate::making::views;
use crate::running::{lines, ran};
use std::alloc::Global;
use std::test::Fail;
use tv_check::Checked;
use tv_play::{NoTape, Outputs, Parting, Piece, Pieces};
use tv_program::play;
use tv_terminal::Colours;
use tv_test_support::Memory;
use tv_test_support::descriptions::ORDER;

// What a terminal sends, as many bytes at a read as there is room for.
#[derive(Drop)]
struct Sent<'a> {
    left: &'a [u8],
    is_ended: bool,
}

impl Pieces for Sent<'_> {
    ghost use Rattle.std.specs.Prelude.{None};

    ghost heard = { λ s. record { left = None; failures = 0; is_ended = s.is_ended } };

    fn next(&mut self, room: &mut [u8]) -> Option<Piece> {
        let count = room.len().min(self.left.len());
        let (piece, left) = self.left.split_at(count);
        room[..count].copy_from_slice(piece);
        self.left = left;
        self.is_ended = count == 0;
        if self.is_ended {
            return Some(Piece::End);
        }
        Some(Piece::Bytes(count))
    }
}

// More than any of these runs writes.
const ROOM: usize = 65_536;

// Plays the form to the end of what is sent.
fn play_into(alloc: Global, sent: &[u8], screen: &mut Memory, log: &mut Memory) -> bool {
    let make = move |alloc: Global, checked: &Checked| views(alloc, checked, None);
    let mut sent = Sent {
        left: sent,
        is_ended: false,
    };
    let mut tape = NoTape;
    let mut outputs = Outputs {
        screen,
        colours: Colours::Sixteen,
        log,
        tape: &mut tape,
    };
    let ended = play(alloc, ORDER.as_bytes(), &mut sent, &make, &mut outputs);
    matches!(ended, Ok(Parting::Ended))
}

// What a terminal sends, the script of the same events, and what brings the cursor to its place at the end, if it shows.
struct Session {
    sent: &'static [u8],
    script: &'static str,
    cursor: Option<&'static [u8]>,
}

const SESSIONS: [Session; 6] = [
    Session {
        sent: b"9\t\x7f2\t \x1b[B \t3\x1bl\x1bo\x1bOR\x1b",
        script: "type \"9\"; key Tab; key Backspace; type \"2\"; key Tab; type \" \"; key Down; type \" \"; key Tab; type \"3\"; key Alt-L; key Alt-O; key F3; key Esc",
        cursor: None,
    },
    Session {
        sent: b"\x1b[<0;6;6M\x1b[<0;6;6m\x1b[<0;6;7M\x1b[<0;6;7m\x1b[<0;6;8M\x1b[<0;6;8m3\x1b[<0;6;10M\x1b[<0;6;10m\x1bOR\x1b[<0;6;3M\x1b[<0;6;3m",
        script: "down 5 5; up 5 5; down 5 6; up 5 6; down 5 7; up 5 7; type \"3\"; down 5 9; up 5 9; key F3; down 5 2; up 5 2",
        cursor: None,
    },
    // The cursor of the input with the focus.
    Session {
        sent: b"",
        script: "",
        cursor: Some(b"\x1b[4;17H"),
    },
    Session {
        sent: b"\x1b[D",
        script: "key Left",
        cursor: Some(b"\x1b[4;16H"),
    },
    Session {
        sent: b"\t",
        script: "key Tab",
        cursor: None,
    },
    Session {
        sent: b"\t \x1b[B \t",
        script: "key Tab; type \" \"; key Down; type \" \"; key Tab",
        cursor: Some(b"\x1b[8;6H"),
    },
];

// What a terminal is told at the end.
const END: &[u8] =
    b"\x1b[0m\x1b[2J\x1b[?25h\x1b[?2004l\x1b[?1039l\x1b[?1036l\x1b[?1006l\x1b[?1002l\x1b[?1049l";

// Whether the frames leave the cursor so: it shows or is hidden by the last word on that, and shows where the last frame ends.
fn has_cursor(screen: &[u8], cursor: Option<&[u8]>) -> bool {
    let Some(frames) = screen.strip_suffix(END) else {
        return false;
    };
    let is_shown = match str::from_utf8(frames) {
        Ok(text) => text
            .rsplit_once("\x1b[?25")
            .is_some_and(|(_, mode)| mode.starts_with('h')),
        Err(_) => false,
    };
    let frames = frames.strip_suffix(b"\x1b[?25h").unwrap_or(frames);
    match cursor {
        Some(place) => is_shown && frames.ends_with(place),
        None => !is_shown,
    }
}

// Fails where the log isn't that of the script's run, or the cursor stands elsewhere.
fn expect_session(alloc: Global, session: &Session) -> Result<(), Fail> {
    let script = lines(alloc, session.script)?;
    let mut screen = Memory::new(alloc, ROOM, ROOM)?;
    let mut log = Memory::new(alloc, ROOM, ROOM)?;
    if !play_into(alloc, session.sent, &mut screen, &mut log) {
        return Err(Fail::new(format_args!("no end of {script}")));
    }
    if !has_cursor(screen.taken(), session.cursor) {
        return Err(Fail::new(format_args!("another cursor after {script}")));
    }
    let wanted = ran(alloc, ORDER, &script)?;
    if log.taken() == wanted.taken() {
        return Ok(());
    }
    let found = str::from_utf8(log.taken())?;
    Err(Fail::new(format_args!("{found}in a terminal, by {script}")))
}

#[test]
fn order_by_keys_and_mouse(rt: HostRuntime) -> Result<(), Fail> {
    for session in &SESSIONS {
        expect_session(rt.alloc(), session)?;
    }
    Ok(())
}
