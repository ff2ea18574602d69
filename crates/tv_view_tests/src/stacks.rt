//! A stack of windows, from which one is taken out.

ghost use Rattle.std.specs.Prelude.{◌≤◌};

use crate::forms::text;
use crate::journal::{Call, Journal};
use crate::samples::{body, env, sized};
use crate::windows::{expect_rows, window_node, window_round};
use std::alloc::Global;
use std::rc::Rc;
use std::test::Fail;
use tv_cells::{Point, Screen};
use tv_event::CommandSet;
use tv_group::Stack;
use tv_palette::{Chain, Owner};
use tv_valid::Chars;
use tv_window::{Window, draw_stack};

// The leaves of the windows, from front to back.
const FIRST: u32 = 11;

const SECOND: u32 = 12;

const THIRD: u32 = 13;

// The same with their texts.
const LEAVES: [(u32, &str); 3] = [(FIRST, "first"), (SECOND, "second"), (THIRD, "third")];

// Each row of the screen that the windows are drawn on, with all three and without the second.
const THREE: [&str; 10] = [
    "                                ",
    " +=[x]===1==+                   ",
    " |first     |                   ",
    " |          |---2--+            ",
    " +==========+nd    |            ",
    "        |          |---3--+     ",
    "        +----------+d     |     ",
    "               |          |     ",
    "               +----------+     ",
    "                                ",
];

const TWO: [&str; 10] = [
    "                                ",
    " +=[x]===1==+                   ",
    " |first     |                   ",
    " |          |                   ",
    " +==========+                   ",
    "               +-------3--+     ",
    "               |third     |     ",
    "               |          |     ",
    "               +----------+     ",
    "                                ",
];

// The window at a place: those further back stand further to the right and down. Its text notes what it is told.
fn window(alloc: Global, journal: &Rc<Journal>, place: u8) -> Result<Window, Fail>
    requires { place ≤ 2 }
{
    let (leaf, shown) = LEAVES[usize::from(place)];
    let body = body(alloc, sized(12, 4), text(alloc, leaf, shown, journal)?)?;
    let place = i32::from(place);
    let corner = Point {
        x: 1 + 7 * place,
        y: 1 + 2 * place,
    };
    let title = Chars::new(alloc);
    window_round(&window_node(alloc, 1, 1 + place, corner, 12, title), body)
}

fn windows(alloc: Global, journal: &Rc<Journal>) -> Result<Vec<Window>, Fail> {
    let mut windows = Vec::new(alloc);
    for place in 0u8..3 {
        windows.push(window(alloc, journal, place)?)?;
    }
    Ok(windows)
}

// Draws windows on a blank screen, of which the first is active.
fn drawn(alloc: Global, windows: &[Window]) -> Result<Screen, Fail> {
    let mut screen = Screen::new(alloc, 32, 10)?;
    let canvas = screen.canvas();
    let chain = Chain::of_window();
    let commands = CommandSet::all();
    let env = env(Owner::Window, &chain, &commands, &[]);
    draw_stack(windows, &mut screen, canvas, &env);
    Ok(screen)
}

// Whether two screens have the same characters and attributes.
fn is_same(one: &Screen, other: &Screen) -> bool {
    for y in 0..10 {
        for x in 0..32 {
            let point = Point { x, y };
            if one.at(point) != other.at(point) {
                return false;
            }
        }
    }
    true
}

// One of the windows, alone.
fn drawn_alone(alloc: Global, windows: &[Window], place: usize) -> Result<Screen, Fail> {
    let rest = windows.get(place..).ok_or("no such window")?;
    drawn(alloc, rest.get(..1).ok_or("no such window")?)
}

fn expect_drawn(alloc: Global, windows: &[Window], rows: &[&str; 10]) -> Result<(), Fail> {
    let screen = drawn(alloc, windows)?;
    expect_rows(&screen, rows)
}

// Fails unless a window is drawn as on the screen.
fn expect_as(screen: &Screen, alloc: Global, windows: &[Window], place: usize) -> Result<(), Fail> {
    let other = drawn_alone(alloc, windows, place)?;
    if is_same(screen, &other) {
        return Ok(());
    }
    Err("it is drawn otherwise".into())
}

// Fails unless it is the second window, whose leaf was told nothing yet. It is dropped then.
fn drop_taken(taken: Option<Window>, journal: &Journal) -> Result<(), Fail> {
    match taken {
        Some(window) if window.number() == 2 => journal.expect(&[]),
        _ => Err("not the second".into()),
    }
}

// The second window is dropped with its leaf, once, when it is given up.
fn drop_second(stack: &mut Stack<Window>, journal: &Journal) -> Result<(), Fail> {
    let taken = stack.remove(1);
    drop_taken(taken, journal)?;
    journal.expect(&[(SECOND, Call::Dropped)])
}

// The others stay as they were: each is drawn as before.
fn take_from(
    alloc: Global,
    journal: &Journal,
    stack: &mut Stack<Window>,
    front: &Screen,
    rear: &Screen,
) -> Result<(), Fail> {
    journal.taken()?;
    drop_second(stack, journal)?;
    expect_drawn(alloc, &stack.items, &TWO)?;
    journal.expect(&[(THIRD, Call::Drawn), (FIRST, Call::Drawn)])?;
    expect_as(front, alloc, &stack.items, 0)?;
    expect_as(rear, alloc, &stack.items, 1)?;
    journal.taken()?;
    Ok(())
}

fn take_drawn(alloc: Global, journal: &Journal, stack: &mut Stack<Window>) -> Result<(), Fail> {
    expect_drawn(alloc, &stack.items, &THREE)?;
    let front = drawn_alone(alloc, &stack.items, 0)?;
    let rear = drawn_alone(alloc, &stack.items, 2)?;
    take_from(alloc, journal, stack, &front, &rear)
}

#[test]
fn one_of_three_is_dropped(rt: HostRuntime) -> Result<(), Fail> {
    let journal = Journal::new(rt.alloc())?;
    {
        let mut stack = Stack::new(windows(rt.alloc(), &journal)?);
        take_drawn(rt.alloc(), &journal, &mut stack)?;
    }
    journal.expect(&[(FIRST, Call::Dropped), (THIRD, Call::Dropped)])
}
