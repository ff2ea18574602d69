//! Windows and dialogs that are dragged by events for which a script has no line.

ghost use Rattle.tv_machine.specs.Run.{Session as Standing};
ghost use Rattle.tv_session.specs.Session.{StandsFor};

use crate::bodies::checked;
use crate::making::views;
use crate::stepping::is_given;
use std::alloc::Global;
use std::test::Fail;
use tv_cells::Point;
use tv_check::Checked;
use tv_event::{Command, Event, Key};
use tv_model::LogLine;
use tv_script::Stage;
use tv_session::{SessionOf, Views};
use tv_test_support::descriptions::{CANCEL, WINDOWS};
use tv_view::View;

// An event, and what is logged of it: nothing, or that the frame of a line came to a column and a row.
type Told = (Event, Option<(u32, i32, i32)>);

// Where the one line of the log says that a frame came to.
fn moved(log: &[LogLine]) -> Result<Option<(u32, i32, i32)>, Fail> {
    match log {
        [] => Ok(None),
        [LogLine::Moved(id, corner)] => Ok(Some((id.0, corner.x, corner.y))),
        _ => Err(Fail::new(format_args!("{log:?}"))),
    }
}

fn expect_moves<V: View>(session: &mut SessionOf<V>, events: &[Told]) -> Result<(), Fail>
    requires { (s : Standing) × StandsFor V.meaning session.old s }
{
    for (event, wanted) in events {
        if !is_given(event) {
            return Err("a point far away".into());
        }
        session.step(event);
        let found = moved(session.log())?;
        if found != *wanted {
            return Err(Fail::new(format_args!("{found:?} for {wanted:?} of {event:?}")));
        }
    }
    Ok(())
}

fn expect_moves_over<V: View>(
    alloc: Global,
    checked: Checked,
    views: Views<V>,
    events: &[Told],
) -> Result<(), Fail> {
    let Views { windows, bodies } = views;
    match SessionOf::new(alloc, checked, windows, bodies) {
        Ok(mut session) => expect_moves(&mut session, events),
        Err(refused) => Err(Fail::new(format_args!("{}", refused.fault))),
    }
}

fn expect_moves_of(alloc: Global, desc: &str, events: &[Told]) -> Result<(), Fail> {
    let checked = checked(alloc, desc)?;
    let views = views(alloc, &checked, None)?;
    expect_moves_over(alloc, checked, views, events)
}

// While the dialog is held nothing but moves and ups does anything. A point off the screen counts as the nearest on it.
const DIALOG: [Told; 17] = [
    (Event::Down(Point { x: 8, y: 2 }), None),
    (Event::Command(Command::CANCEL), None),
    (Event::Command(Command::QUIT), None),
    (Event::Broadcast(Command::DEFAULT), None),
    (Event::Key(Key::Esc), None),
    (Event::Down(Point { x: -5, y: -5 }), None),
    (Event::Down(Point { x: 200, y: 100 }), None),
    (Event::Down(Point { x: 6, y: 3 }), None),
    (Event::Up(Point { x: -3, y: 40 }), Some((4, -6, 8))),
    // The column that was held is the first of the screen now.
    (Event::Down(Point { x: 0, y: 8 }), None),
    (
        Event::Move(Point {
            x: 10_000,
            y: 10_000,
        }),
        None,
    ),
    (
        Event::Up(Point {
            x: 10_000,
            y: -10_000,
        }),
        Some((4, 13, 1)),
    ),
    // Off the screen nothing is held, and what is moved back and forth hasn't moved.
    (Event::Down(Point { x: 20, y: 1 }), None),
    (Event::Up(Point { x: 0, y: 5 }), None),
    (Event::Down(Point { x: 19, y: 1 }), None),
    (Event::Move(Point { x: -10_000, y: 5 }), None),
    (Event::Up(Point { x: 19, y: -1 }), None),
];

const WINDOW: [Told; 11] = [
    (Event::Down(Point { x: 13, y: 3 }), None),
    (Event::Command(Command::CLOSE), None),
    (Event::Command(Command::NEXT), None),
    (Event::Key(Key::Alt('1')), None),
    (Event::Down(Point { x: -1, y: 5 }), None),
    (Event::Down(Point { x: 3, y: 1 }), None),
    (
        Event::Up(Point {
            x: -10_000,
            y: 10_000,
        }),
        Some((6, -5, 8)),
    ),
    (Event::Down(Point { x: 0, y: 8 }), None),
    (Event::Up(Point { x: 30, y: 0 }), Some((6, 18, 1))),
    (Event::Down(Point { x: 24, y: 1 }), None),
    (Event::Up(Point { x: 0, y: 5 }), None),
];

const TABLE: [(&str, &[Told]); 2] = [(CANCEL, &DIALOG), (WINDOWS, &WINDOW)];

#[test]
fn off_screen(rt: HostRuntime) -> Result<(), Fail> {
    for &(desc, events) in &TABLE {
        expect_moves_of(rt.alloc(), desc, events)?;
    }
    Ok(())
}
