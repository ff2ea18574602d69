//! A view of these tests by itself and among the members of a group, from its making to its end.

use crate::forms::{LEAVES, form, text, text_probe};
use crate::journal::{Call, Journal};
use crate::samples::{body, env, reads, sized};
use std::alloc::Global;
use std::process::Abort;
use std::rc::Rc;
use std::test::Fail;
use tv_cells::{Damage, Point, Screen};
use tv_event::{Command, CommandSet, Event, Key, Phase};
use tv_group::Group;
use tv_palette::{Chain, Owner};
use tv_view::{Reaction, View};

// The line of a text that stands alone.
const ALONE: u32 = 2;

const EVENTS: [Event; 3] = [
    Event::Key(Key::Char('a')),
    Event::Broadcast(Command::DEFAULT),
    Event::Down(Point { x: 1, y: 1 }),
];

#[test]
fn it_notes_each_event(rt: HostRuntime) -> Result<(), Fail> {
    let journal = Journal::new(rt.alloc())?;
    let mut probe = text_probe(rt.alloc(), ALONE, "ab", &journal)?;
    let chain = Chain::of_window();
    let commands = CommandSet::all();
    for event in &EVENTS {
        let env = env(Owner::Window, &chain, &commands, &[]);
        let reaction = probe.handle(event, Phase::Post, &env, &mut Damage::new());
        assert_eq!(rt; reaction, Reaction::Pass);
        journal.expect(&[(ALONE, Call::Handed(*event, Phase::Post))])?;
    }
    Ok(())
}

// A cell of the row in which a text stands alone.
struct Shown {
    x: i32,
    ch: char,
    attr: u8,
}

// Before the text, the text, what is left of its columns, and behind it.
const CELLS: [Shown; 5] = [
    Shown {
        x: 0,
        ch: ' ',
        attr: 0,
    },
    Shown {
        x: 1,
        ch: 'a',
        attr: 0x1e,
    },
    Shown {
        x: 2,
        ch: 'b',
        attr: 0x1e,
    },
    Shown {
        x: 3,
        ch: ' ',
        attr: 0x1e,
    },
    Shown {
        x: 10,
        ch: ' ',
        attr: 0,
    },
];

#[test]
fn it_is_drawn_alone(rt: HostRuntime) -> Result<(), Fail> {
    let alloc = rt.alloc();
    let journal = Journal::new(alloc)?;
    let body = body(alloc, sized(16, 6), text(alloc, ALONE, "ab", &journal)?)?;
    let chain = Chain::of_window();
    let commands = CommandSet::all();
    let mut screen = Screen::new(alloc, 20, 10)?;
    let canvas = screen.canvas();
    body.draw(
        &mut screen,
        canvas,
        &env(Owner::Window, &chain, &commands, &[]),
    );
    for shown in &CELLS {
        let is_shown = match screen.at(Point { x: shown.x, y: 1 }) {
            Some(cell) => cell.ch() == shown.ch && cell.attr() == shown.attr,
            None => false,
        };
        assert!(rt; is_shown, "at {}", shown.x);
    }
    Ok(())
}

// Each leaf is told to draw itself, and what the control behind it shows is on the screen. It is dropped with its group, and once;
// only then.
#[test]
fn it_is_drawn_and_dropped(rt: HostRuntime) -> Result<(), Fail> {
    let alloc = rt.alloc();
    let journal = Journal::new(alloc)?;
    expect_drawn(alloc, &journal)?;
    journal.expect(&LEAVES.map(|id| (id, Call::Dropped)))
}

fn expect_drawn(alloc: Global, journal: &Rc<Journal>) -> Result<(), Fail> {
    let form = form(alloc, journal)?;
    journal.expect(&[])?;
    let screen = drawn(alloc, &form)?;
    journal.expect(&LEAVES.map(|id| (id, Call::Drawn)))?;
    let has_both = reads(&screen, 1, 1, "Amount") && reads(&screen, 2, 3, "[ Save ]");
    if has_both {
        Ok(())
    } else {
        Err("it is drawn otherwise")?
    }
}

fn drawn(alloc: Global, form: &Group) -> Result<Screen, Fail> {
    let chain = Chain::of_dialog();
    let commands = CommandSet::all();
    let mut screen = Screen::new(alloc, 40, 12)?;
    let canvas = screen.canvas();
    form.draw(
        &mut screen,
        canvas,
        &env(Owner::Dialog, &chain, &commands, &[]),
    );
    Ok(screen)
}
