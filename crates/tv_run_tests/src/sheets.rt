//! Sheets in windows and in a dialog, and events that are left.

ghost use Rattle.tv_app.specs.Running.{Runs, Session};
ghost use Rattle.tv_dialogs.specs.Handed.{IsPointGiven};

use std::alloc::Global;
use std::test::Fail;
use tv_app::{App, Cell, Command, Event, Key, Point, Record, Rect, Screen, Value, open};

const DESCRIPTION: &str = r#"tvd 1
screen 40 14
menu "~F~ile"
item "E~x~it" quit
end
status "F6 Next" F6 next
window one 1 1 14 6 1 "One"
end
window two 10 4 20 7 2 "Two"
end
dialog ask 5 3 24 8 "Ask" opens 100 ends ok cancel
pane bar 2 1 10 1
end
input word 2 3 10 8 any "abc"
button ok 6 5 10 "~O~K" ok default
end
"#;

// A step, with what is wanted of it.
enum Act {
    // Lays the sheet in what has the name, if that is open.
    Lay(&'static str, bool),
    Key(Key),
    Down(u8, u8),
    Up(u8, u8),
    Command(u8),
    // The screen has the character in a column and a row.
    Shows(u32, u32, char),
    // Whether a key, or a down in a column and a row, is left.
    LeavesKey(Key, bool),
    LeavesDown(u8, u8, bool),
    IsFront(&'static str, bool),
    // The columns and rows of an interior, from the first on and before the last.
    Place(&'static str, Option<(i32, i32, i32, i32)>),
    // The text of the open dialog's input.
    Text(&'static str),
}

const WINDOWS: [Act; 25] = [
    Act::IsFront("one", false),
    Act::IsFront("two", true),
    Act::IsFront("ask", false),
    Act::Place("one", Some((2, 2, 14, 6))),
    Act::Place("ask", None),
    Act::Lay("ask", false),
    Act::Lay("three", false),
    Act::Lay("one", true),
    Act::Shows(2, 2, 'A'),
    Act::Shows(14, 2, '|'),
    Act::Shows(2, 6, '-'),
    // Window `two` lies over it, and then under it.
    Act::Shows(13, 5, ' '),
    Act::Key(Key::Function(6)),
    Act::Shows(13, 5, 'Z'),
    Act::Shows(2, 6, '='),
    // It goes along where the window is dragged.
    Act::Down(7, 1),
    Act::Up(12, 3),
    Act::Place("one", Some((7, 4, 19, 8))),
    Act::Shows(7, 4, 'A'),
    Act::Shows(18, 7, 'Z'),
    Act::LeavesKey(Key::PageDown, true),
    Act::LeavesKey(Key::Function(6), false),
    Act::LeavesDown(8, 5, true),
    Act::LeavesDown(9, 3, false),
    Act::LeavesDown(25, 9, false),
];

const DIALOG: [Act; 14] = [
    Act::Command(100),
    Act::IsFront("two", false),
    Act::IsFront("ask", true),
    Act::LeavesKey(Key::PageDown, false),
    Act::Lay("ask", true),
    Act::Shows(6, 4, 'A'),
    Act::Text("abc"),
    Act::Key(Key::Char('x')),
    Act::Text("x"),
    // What is typed is shown again, and the sheet with it.
    Act::Shows(6, 4, 'A'),
    Act::Key(Key::Esc),
    Act::Lay("ask", false),
    Act::Command(100),
    Act::Shows(6, 4, ' '),
];

const TABLE: [&[Act]; 2] = [&WINDOWS, &DIALOG];

// Takes a step that changes something, and returns whether it went as is wanted.
fn take(alloc: Global, app: &mut App, sheet: &Screen, act: &Act) -> bool
    requires { (s : Session) × Runs app.old s }
    ensures { (s : Session) × Runs app.new s }
{
    match act {
        Act::Lay(name, is_open) => lays(alloc, app, sheet, name) == *is_open,
        Act::Command(number) => app.command(Command(*number)),
        Act::Key(key) => {
            app.step(&Event::Key(*key));
            true
        }
        Act::Down(x, y) => {
            app.step(&Event::Down(point(*x, *y)));
            true
        }
        Act::Up(x, y) => {
            app.step(&Event::Up(point(*x, *y)));
            true
        }
        _ => true,
    }
}

fn lays(alloc: Global, app: &mut App, sheet: &Screen, name: &str) -> bool
    requires { (s : Session) × Runs app.old s }
    ensures { (s : Session) × Runs app.new s }
{
    app.lay(alloc, name, sheet).is_ok()
}

fn point(x: u8, y: u8) -> Point
    ensures { IsPointGiven result }
{
    Point {
        x: i32::from(x),
        y: i32::from(y),
    }
}

// Whether what is seen is as is wanted.
fn is_seen(app: &App, act: &Act) -> bool {
    match act {
        Act::Shows(column, row, ch) => shows(app.screen(), *column, *row, *ch),
        Act::LeavesKey(key, is_left) => app.leaves(&Event::Key(*key)) == *is_left,
        Act::LeavesDown(x, y, is_left) => app.leaves(&Event::Down(point(*x, *y))) == *is_left,
        Act::IsFront(name, is_front) => app.is_front(name) == *is_front,
        Act::Place(name, wanted) => sides(app.place(name)) == *wanted,
        _ => true,
    }
}

fn shows(screen: &Screen, column: u32, row: u32, ch: char) -> bool {
    column < screen.width() && row < screen.height() && screen.get(column, row).ch() == ch
}

fn sides(place: Option<Rect>) -> Option<(i32, i32, i32, i32)> {
    let place = place?;
    Some((place.a.x, place.a.y, place.b.x, place.b.y))
}

// Whether the open dialog's input has the text, which no end has saved.
fn has_text(app: &App, wanted: &str) -> bool
    requires { (s : Session) × Runs app.now s }
{
    let mut values = Record::new();
    if !app.current(&mut values) {
        return false;
    }
    match app.field("ask", "word") {
        Some(word) => match values.value(word) {
            Some(Value::Text(text)) => text.as_slice().iter().copied().eq(wanted.chars()),
            _ => false,
        },
        None => false,
    }
}

fn expect_acts(alloc: Global, app: &mut App, sheet: &Screen, acts: &[Act]) -> Result<(), Fail>
    requires { (s : Session) × Runs app.old s }
{
    for (place, act) in acts.iter().enumerate() {
        let is_taken = take(alloc, app, sheet, act);
        let has_text = match act {
            Act::Text(wanted) => has_text(app, wanted),
            _ => true,
        };
        if !is_taken || !has_text || !is_seen(app, act) {
            return Err(Fail::new(format_args!("act {place}")));
        }
    }
    Ok(())
}

// A stands in the first cell, and Z in the last for which window `one` has room; X and Y stand beyond.
fn write(sheet: &mut Screen) {
    for (x, y, ch) in [(0, 0, 'A'), (11, 3, 'Z'), (12, 0, 'X'), (0, 4, 'Y')] {
        sheet.canvas().put(sheet, x, y, Cell::shown(ch, 0x1e));
    }
}

#[test]
fn laid_sheets(rt: HostRuntime) -> Result<(), Fail> {
    for acts in TABLE {
        let mut app = open(rt.alloc(), DESCRIPTION.as_bytes())?;
        let mut sheet = app.sheet(rt.alloc(), "one")?;
        write(&mut sheet);
        expect_acts(rt.alloc(), &mut app, &sheet, acts)?;
    }
    Ok(())
}
