//! Runs into writers in memory.

use super::sent::Sent;
use std::alloc::Global;
use std::test::Fail;
use tv_check::Checked;
use tv_io::FileReader;
use tv_play::{Outputs, Parting, PlayFault, play};
use tv_program::{read_checked, run};
use tv_session::{SessionOf, Views};
use tv_terminal::Colours;
use tv_test_support::Memory;
use tv_test_support::button_views::buttons;
use tv_view::View;

/// How a run ends.
pub type Outcome = Result<Parting, PlayFault>;

// None where there is no session of these views.
fn play_over<V: View>(
    alloc: Global,
    checked: Checked,
    views: Views<V>,
    sent: &mut Sent<'_>,
    outputs: &mut Outputs<Memory, Memory, Memory>,
) -> Option<Outcome> {
    let Views { windows, bodies } = views;
    match SessionOf::new(alloc, checked, windows, bodies) {
        Ok(mut session) => Some(play(alloc, &mut session, sent, outputs)),
        Err(_) => None,
    }
}

// Plays a description whose controls are buttons.
fn play_into(
    alloc: Global,
    desc: &str,
    sent: &mut Sent<'_>,
    outputs: &mut Outputs<Memory, Memory, Memory>,
) -> Result<Outcome, Fail> {
    let Ok(checked) = read_checked(alloc, desc.as_bytes()) else {
        return Err("no sound description".into());
    };
    let Ok(views) = buttons(alloc, &checked) else {
        return Err("no buttons".into());
    };
    match play_over(alloc, checked, views, sent, outputs) {
        Some(outcome) => Ok(outcome),
        None => Err("no session".into()),
    }
}

/// What a run came to.
#[derive(Drop)]
pub struct Ran {
    pub outcome: Outcome,
    pub log: Memory,
    pub screen: Memory,
    pub tape: Memory,
}

/// How many bytes each writer takes before it fails.
#[derive(Clone, Copy)]
pub struct Rooms {
    pub log: usize,
    pub screen: usize,
    pub tape: usize,
}

/// More than any of these runs writes.
pub const ROOM: usize = 16_384;

/// Room for all that a run writes.
pub const AMPLE: Rooms = Rooms {
    log: ROOM,
    screen: ROOM,
    tape: ROOM,
};

/// Plays a description whose controls are buttons.
pub fn played(alloc: Global, desc: &str, sent: &mut Sent<'_>) -> Result<Ran, Fail> {
    played_with(alloc, desc, sent, AMPLE)
}

/// Plays it into writers that fail after so many bytes.
pub fn played_with(
    alloc: Global,
    desc: &str,
    sent: &mut Sent<'_>,
    rooms: Rooms,
) -> Result<Ran, Fail> {
    let mut log = Memory::new(alloc, rooms.log, ROOM)?;
    let mut screen = Memory::new(alloc, rooms.screen, ROOM)?;
    let mut tape = Memory::new(alloc, rooms.tape, ROOM)?;
    let mut outputs = Outputs {
        screen: &mut screen,
        colours: Colours::Sixteen,
        log: &mut log,
        tape: &mut tape,
    };
    let outcome = play_into(alloc, desc, sent, &mut outputs)?;
    Ok(Ran {
        outcome,
        log,
        screen,
        tape,
    })
}

fn run_into(alloc: Global, desc: &str, script: &str, log: &mut Memory) -> bool {
    let mut script = FileReader::new(script.as_bytes());
    run(alloc, desc.as_bytes(), &mut script, &buttons, log).is_ok()
}

/// What the program's run of a script logs.
pub fn logged(alloc: Global, desc: &str, script: &str) -> Result<Memory, Fail> {
    let mut log = Memory::new(alloc, ROOM, ROOM)?;
    if run_into(alloc, desc, script, &mut log) {
        return Ok(log);
    }
    Err(Fail::new(format_args!("no run of:\n{script}")))
}

/// Fails where it ended otherwise than so, or logged something else.
pub fn expect_ran(ran: &Ran, outcome: Outcome, log: &[u8]) -> Result<(), Fail> {
    if ran.outcome == outcome && ran.log.taken() == log {
        return Ok(());
    }
    let found = str::from_utf8(ran.log.taken())?;
    let wanted = str::from_utf8(log)?;
    Err(Fail::new(format_args!(
        "{:?} after:\n{found}wanted: {outcome:?} after:\n{wanted}",
        ran.outcome
    )))
}

/// Fails where something else was recorded.
pub fn expect_taped(ran: &Ran, script: &str) -> Result<(), Fail> {
    if ran.tape.taken() == script.as_bytes() {
        return Ok(());
    }
    let found = str::from_utf8(ran.tape.taken())?;
    Err(Fail::new(format_args!("recorded:\n{found}wanted:\n{script}")))
}

/// Fails where the two didn't end in the same way, log the same and write the same for the terminal.
pub fn expect_same(ran: &Ran, other: &Ran) -> Result<(), Fail> {
    expect_ran(ran, other.outcome, other.log.taken())?;
    if ran.screen.taken() == other.screen.taken() {
        return Ok(());
    }
    Err("another screen".into())
}
