//! What dialogs log while events come.

use crate::bodies::{checked, first_body, first_dialog};
use crate::opening::open;
use crate::running::lines;
use crate::telling::push_lines;
use std::alloc::Global;
use std::test::Fail;
use tv_cells::{Damage, Point};
use tv_check::Checked;
use tv_dialog::Dialog;
use tv_event::{Command, CommandSet, Event, Key};
use tv_machine::Item;
use tv_model::{Dialog as Declared, Record};
use tv_palette::{Chain, Owner};
use tv_script::Script;
use tv_test_support::descriptions::{COLOUR, ORDER};
use tv_view::Env;

// A part of a script, and what is logged of it, with how the dialog stands then as the last line. The log of the opening stands
// before that of the first part.
type Part = (&'static str, &'static str);

// What is done each time that the first dialog of a description opens: at first with the values that its views have, and then
// with those that it was left with.
type Case = (&'static str, &'static [&'static [Part]]);

const CASES: [Case; 5] = [
    (
        ORDER,
        &[&[(
            "key Esc",
            "focus amount; end b cancel; field amount \"1\"; field opts -; field qty \"\"; closed",
        )]],
    ),
    // With the values that an end by `ok` leaves, both items are marked, and so the quantity is shown.
    (
        ORDER,
        &[
            &[(
                "key F2; key Alt-G; key F2; key Alt-N; key F2; type \"0\"; key F2; key Backspace; type \"07\"; key F2",
                "focus amount; focus opts; invalid qty; invalid qty; focus qty; invalid qty; end b ok; field amount \"1\"; field opts 1 2; field qty \"07\"; closed",
            )],
            &[(
                "key Tab; key Tab; key Esc",
                "focus amount; focus opts; focus qty; end b cancel; field amount \"1\"; field opts 1 2; field qty \"07\"; closed",
            )],
        ],
    ),
    (
        ORDER,
        &[&[(
            "type \"9\"; key Tab; key Alt-G; down 16 9; up 16 9",
            "focus amount; invalid amount; invalid amount; press no; end b cancel; field amount \"9\"; field opts -; field qty \"\"; closed",
        )]],
    ),
    (
        ORDER,
        &[&[(
            "key Enter; key Alt-G; key Enter; key Tab; key Shift-Tab; key Shift-Tab; key Shift-Tab; key Enter",
            "focus amount; focus opts; press ok; invalid qty; focus ok; focus opts; focus amount; focus log; press log; command 120; open",
        )]],
    ),
    // A dialog whose button is held ignores keys and another press, and a release elsewhere presses nothing.
    (
        COLOUR,
        &[&[
            ("down 4 5; key Esc", "focus r; held"),
            ("move 25 9; down 5 3; up 25 9", "open"),
            ("key Esc", "end d cancel; field r 2; closed"),
        ]],
    ),
];

// The events of a script, in one line.
fn events(alloc: Global, script: &str) -> Result<Vec<Event>, Fail> {
    let text = lines(alloc, script)?;
    let script = Script::parse(alloc, text.as_bytes(), 132, 60)?;
    let mut events = Vec::new(alloc);
    for item in script.items() {
        if let Item::Event(event) = item {
            events.push(*event)?;
        }
    }
    Ok(events)
}

// A point of the screen, seen from a corner on it.
fn seen_from(corner: Point, point: &Point) -> Point {
    Point {
        x: point.x.saturating_sub(corner.x),
        y: point.y.saturating_sub(corner.y),
    }
}

// What a dialog is handed of an event: its point is seen from the dialog's corner, and the key of the status line, of which only
// the order form makes use, is `ok` where that is enabled.
fn seen_by(dialog: &Dialog, event: &Event) -> Event {
    let corner = dialog.bounds().a;
    match event {
        Event::Key(Key::Function(2)) if dialog.commands().has(Command::OK) => {
            Event::Command(Command::OK)
        }
        Event::Down(point) => Event::Down(seen_from(corner, point)),
        Event::Up(point) => Event::Up(seen_from(corner, point)),
        Event::Move(point) => Event::Move(seen_from(corner, point)),
        _ => *event,
    }
}

// Hands the open dialog an event, whose point is in screen coordinates.
fn hand_in(dialog: &mut Dialog, declared: &Declared, event: &Event) -> Result<(), Fail> {
    if !dialog.is_open() {
        return Err("the dialog isn't open".into());
    }
    let event = seen_by(dialog, event);
    let env = Env {
        owner: Owner::Dialog,
        chain: &Chain::of_dialog(),
        views: declared.views.as_slice(),
        commands: &CommandSet::all(),
        focus: None,
        default_now: None,
        is_active: true,
    };
    dialog.step(&event, &env, &mut Damage::new());
    Ok(())
}

fn state_of(dialog: &Dialog) -> &'static str {
    if !dialog.is_open() {
        return "closed\n";
    }
    if dialog.held() {
        return "held\n";
    }
    "open\n"
}

// Hands in the events of a script, and adds what is logged, and how the dialog stands then.
fn push_part(
    told: &mut String,
    alloc: Global,
    dialog: &mut Dialog,
    declared: &Declared,
    script: &str,
) -> Result<(), Fail> {
    for event in &events(alloc, script)? {
        hand_in(dialog, declared, event)?;
        push_lines(told, alloc, declared, dialog.log())?;
    }
    Ok(told.push_str(state_of(dialog))?)
}

// Fails where something else is logged, or the dialog stands otherwise after some part.
fn expect_parts(
    alloc: Global,
    dialog: &mut Dialog,
    declared: &Declared,
    parts: &[Part],
) -> Result<(), Fail> {
    let mut told = String::new(alloc);
    push_lines(&mut told, alloc, declared, dialog.log())?;
    for (script, wanted) in parts {
        push_part(&mut told, alloc, dialog, declared, script)?;
        let wanted = lines(alloc, wanted)?;
        if told != wanted {
            return Err(Fail::new(format_args!("logged:\n{told}wanted:\n{wanted}in: {script}")));
        }
        told = String::new(alloc);
    }
    Ok(())
}

// The values of a dialog's fields when it is taken apart.
fn gathered(dialog: Dialog) -> Record {
    let body = dialog.into_body();
    let mut values = Record::new();
    body.gather(&mut values);
    values
}

// The values that the first dialog is left with, after it was opened with these.
fn left(
    alloc: Global,
    checked: &Checked,
    values: Option<&Record>,
    parts: &[Part],
) -> Result<Record, Fail> {
    let declared = first_dialog(checked)?;
    let mut dialog = open(alloc, declared, first_body(alloc, checked)?, values)?;
    expect_parts(alloc, &mut dialog, declared, parts)?;
    Ok(gathered(dialog))
}

fn expect_case(alloc: Global, case: &Case) -> Result<(), Fail> {
    let (desc, openings) = *case;
    let checked = checked(alloc, desc)?;
    let mut values = None;
    for parts in openings {
        values = Some(left(alloc, &checked, values.as_ref(), parts)?);
    }
    Ok(())
}

#[test]
fn steps(rt: HostRuntime) -> Result<(), Fail> {
    for case in &CASES {
        expect_case(rt.alloc(), case)?;
    }
    Ok(())
}
