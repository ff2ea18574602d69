//! The program's calls.

ghost use Rattle.std.specs.Prelude.{None};

use super::ending::{Ending, expect, expect_whole, refused};
use std::alloc::Global;
use std::test::Fail;
use tv_io::{FileReader, ReadFault, read_text};
use tv_play::{NoTape, Outputs, Parting, Piece, Pieces};
use tv_program::{RunFault, Trouble, accept_files, check, play, run};
use tv_terminal::Colours;
use tv_test_support::Memory;
use tv_test_support::button_views::buttons;
use tv_test_support::certificates::CANCEL_CERTIFICATE;
use tv_test_support::descriptions::CANCEL;

const START: &str = "open a\nfocus c\n";

const ENDED: &str = "open a\nfocus c\npress c\nend a cancel\n";

// What a call came to that is to write this. Where memory was refused it wrote nothing, or what comes before the script.
fn written(end: Result<(), Trouble>, out: &Memory, wanted: &str) -> Result<(), Ending> {
    match end {
        Ok(()) => expect(out.taken() == wanted.as_bytes(), "another text"),
        Err(Trouble::NoMemory) => {
            let is_unbegun = out.taken().is_empty() || out.taken() == START.as_bytes();
            expect(is_unbegun, "a part of the text")?;
            Err(Ending::NoMemory)
        }
        Err(_) => Err(Ending::Other("another fault")),
    }
}

fn check_into(alloc: Global, out: &mut Memory) -> Result<(), Trouble> {
    Ok(check(alloc, CANCEL.as_bytes(), out)?)
}

fn checked(alloc: Global) -> Result<(), Ending> {
    let mut out = Memory::ample(alloc)?;
    let end = check_into(alloc, &mut out);
    written(end, &out, CANCEL_CERTIFICATE)
}

#[test]
fn checking(rt: HostRuntime) -> Result<(), Fail> {
    expect_whole(checked(rt.alloc()))
}

fn accept_into(alloc: Global, out: &mut Memory) -> Result<(), Trouble> {
    let certificate = CANCEL_CERTIFICATE.as_bytes();
    Ok(accept_files(alloc, CANCEL.as_bytes(), certificate, out)?)
}

fn accepted(alloc: Global) -> Result<(), Ending> {
    let mut out = Memory::ample(alloc)?;
    let end = accept_into(alloc, &mut out);
    written(end, &out, "accepted\n")
}

#[test]
fn accepting(rt: HostRuntime) -> Result<(), Fail> {
    expect_whole(accepted(rt.alloc()))
}

fn run_into(alloc: Global, out: &mut Memory) -> Result<(), Trouble> {
    let mut script = FileReader::new(b"key Tab\ntype \"c\"\n".as_slice());
    run(alloc, CANCEL.as_bytes(), &mut script, &buttons, out)?;
    Ok(())
}

fn ran(alloc: Global) -> Result<(), Ending> {
    let mut out = Memory::ample(alloc)?;
    let end = run_into(alloc, &mut out);
    written(end, &out, ENDED)
}

#[test]
fn running(rt: HostRuntime) -> Result<(), Fail> {
    expect_whole(ran(rt.alloc()))
}

// Types a letter, and then nothing.
#[derive(Drop)]
struct Letter {
    reads: u32,
    is_ended: bool,
}

impl Pieces for Letter {
    ghost heard = { λ letter. record { left = None; failures = 0; is_ended = letter.is_ended } };

    fn next(&mut self, room: &mut [u8]) -> Option<Piece> {
        self.reads = self.reads.saturating_add(1);
        self.is_ended = self.reads > 1;
        if self.is_ended {
            return Some(Piece::End);
        }
        room[0] = b'c';
        Some(Piece::Bytes(1))
    }
}

fn play_into(
    alloc: Global,
    letter: &mut Letter,
    screen: &mut Memory,
    log: &mut Memory,
) -> Result<Parting, RunFault> {
    let mut tape = NoTape;
    let mut outputs = Outputs {
        screen,
        colours: Colours::Sixteen,
        log,
        tape: &mut tape,
    };
    play(alloc, CANCEL.as_bytes(), letter, &buttons, &mut outputs)
}

// Where memory was refused nothing was read or written, and a second call plays the dialog to its end.
fn played(alloc: Global) -> Result<(), Ending> {
    let mut letter = Letter {
        reads: 0,
        is_ended: false,
    };
    let mut screen = Memory::ample(alloc)?;
    let mut log = Memory::ample(alloc)?;
    let mut end = play_into(alloc, &mut letter, &mut screen, &mut log);
    let again = matches!(end, Err(RunFault::NoMemory));
    if again {
        let is_untouched = letter.reads == 0 && screen.taken().is_empty() && log.taken().is_empty();
        expect(is_untouched, "it was begun")?;
        end = play_into(alloc, &mut letter, &mut screen, &mut log);
    }
    let is_over = matches!(end, Ok(Parting::Over)) && log.taken() == ENDED.as_bytes();
    if again {
        refused(is_over)
    } else {
        expect(is_over, "it ends otherwise")
    }
}

#[test]
fn playing(rt: HostRuntime) -> Result<(), Fail> {
    expect_whole(played(rt.alloc()))
}

// A text of more than one piece.
fn gathered(alloc: Global) -> Result<(), Ending> {
    let bytes = [b'#'; 5000];
    let mut reader = FileReader::new(bytes.as_slice());
    match read_text(alloc, &mut reader, 262_144) {
        Ok(text) => expect(text.len() == 5000, "another text"),
        Err(ReadFault::NoMemory) => Err(Ending::NoMemory),
        Err(ReadFault::Read) => Err(Ending::Other("it can't be read")),
    }
}

#[test]
fn gathering(rt: HostRuntime) -> Result<(), Fail> {
    expect_whole(gathered(rt.alloc()))
}
