//! Whether a session asks its views.

use crate::probes::{Call, Journal};
use crate::running::{lines, run_into};
use std::alloc::Global;
use std::process::Abort;
use std::rc::Rc;
use std::test::Fail;
use tv_event::{Command, Event, Key, Phase};
use tv_test_support::Memory;

// Two panes with a button each, the second of which gives a command of its own.
const GO: &str = r#"tvd 1
screen 20 10
start a
dialog a 0 1 20 8 "" ends cancel
pane p 1 1 10 1
button x 0 0 10 "~C~ancel" cancel
end
pane q 1 3 10 1
button y 0 0 10 "~G~o" 120
end
end
"#;

const SCRIPT: &str = "key Alt-G; type \"g\"; key Tab; key Up; key Enter";

const LOG: &str =
    "open a; focus x; press y; command 120; press y; command 120; focus y; press y; command 120";

// The calls of the button `y` in a run, from its making to its end.
fn calls(alloc: Global, journal: &Rc<Journal>) -> Result<Vec<Call>, Fail> {
    let script = lines(alloc, SCRIPT)?;
    let mut out = Memory::ample(alloc)?;
    if run_into(alloc, GO, &script, Some(journal), &mut out).is_err() {
        return Err("it isn't run".into());
    }
    if out.taken() != lines(alloc, LOG)?.as_bytes() {
        return Err("it writes something else".into());
    }
    journal.take(alloc)
}

fn times(calls: &[Call], wanted: Call) -> usize {
    calls.iter().filter(|call| **call == wanted).count()
}

const PHASES: [Phase; 3] = [Phase::Pre, Phase::Focused, Phase::Post];

// How often the event is handed in, in each phase.
fn handed(calls: &[Call], event: Event) -> [usize; 3] {
    PHASES.map(|phase| times(calls, Call::Handed(event, phase)))
}

// How often Enter is handed in, as the broadcast that it becomes.
fn broadcasts(calls: &[Call]) -> usize {
    calls
        .iter()
        .filter(|call| matches!(call, Call::Handed(Event::Broadcast(Command::DEFAULT), _)))
        .count()
}

// Each key with how often it is handed in, in each phase: with Alt the letter is taken at first, and without after the button
// with the focus has passed it on. `Up` comes while the focus is here, and is no letter.
const KEYS: [(Key, [usize; 3]); 3] = [
    (Key::Alt('G'), [1, 0, 0]),
    (Key::Char('g'), [0, 0, 1]),
    (Key::Up, [0, 1, 0]),
];

// This refuses a session that keeps a flat copy of what its views stand for, with which it answers right and never asks
// them: then the button is told nothing but that it is dropped.
#[test]
fn flat_copy_inside(rt: HostRuntime) -> Result<(), Fail> {
    let journal = Journal::new(rt.alloc())?;
    let calls = calls(rt.alloc(), &journal)?;
    let calls = calls.as_slice();
    assert_eq!(rt; calls.first(), Some(&Call::Drawn));
    for &(key, wanted) in &KEYS {
        assert_eq!(rt; handed(calls, Event::Key(key)), wanted, "{key:?}");
    }
    assert_eq!(rt; broadcasts(calls), 1);
    assert_eq!(rt; times(calls, Call::Dropped), 1);
    assert_eq!(rt; calls.last(), Some(&Call::Dropped));
    Ok(())
}
