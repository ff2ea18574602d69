//! Two windows over groups of boxed texts, one over the other.

ghost use Rattle.std.specs.Prelude.{◌≤ℤ◌, pos};
ghost use Rattle.tv_model.specs.Description.Rectangles.{place_of_node, IsSmallRect};

use crate::samples::{body, chars, env, sized, text_node};
use crate::windows::{expect_rows, window_node, window_round};
use std::alloc::Global;
use std::process::Abort;
use std::test::Fail;
use tv_cells::{Canvas, Point, Rect, Screen, lay};
use tv_controls::StaticText;
use tv_event::CommandSet;
use tv_faces::{Background, LabelFace};
use tv_group::{Group, Member};
use tv_model::Node;
use tv_palette::{Chain, Owner};
use tv_window::{Window, draw_stack};

// The bar and the status line, with nothing in them.
const BAR: LabelFace<'static> = LabelFace {
    text: &[],
    mark: None,
    letter: 0x70,
    rest: 0x70,
};

/// The characters of the screen, row by row.
const SHOT: [&str; 10] = [
    "                        ",
    ".+---- One --1--+.......",
    ".|abcdefghi     |.......",
    ".|      +=[x]== Two ====",
    ".+------|second         ",
    "........|               ",
    "........+===============",
    "........................",
    "........................",
    "                        ",
];

// Row 5: the background, the shadow of the window behind, the edge of the one in front, and what that surrounds.
const ROW_5: [(i32, u8); 4] = [(3, 0x71), (8, 0x08), (9, 0x1f), (24, 0x1e)];

// Row 7: the background, and the shadow of the window in front.
const ROW_7: [(i32, u8); 2] = [(10, 0x71), (24, 0x08)];

// What a window stands round: one boxed text.
fn body_of(alloc: Global, width: i32, node: &Node) -> Result<Group, Fail>
    requires text { IsSmallRect (place_of_node node.now) }
    requires across { (pos 0 ≤ℤ width) × (width ≤ℤ pos 50) }
{
    let text = StaticText::new(alloc, node)?;
    body(alloc, sized(width, 4), Member::Leaf(Box::new(alloc, text)?))
}

// The same by the text's columns. Of two functions, so that no node is alive over a call that may fail, as in `forms`.
fn text_body(alloc: Global, width: i32, columns: i32, text: &str) -> Result<Group, Fail>
    requires across { (pos 0 ≤ℤ width) × (width ≤ℤ pos 50) }
    requires columns { (pos 0 ≤ℤ columns) × (columns ≤ℤ pos 50) }
{
    let node = text_node(alloc, columns, text)?;
    body_of(alloc, width, &node)
}

fn first(alloc: Global) -> Result<Window, Fail> {
    let title = chars(alloc, "One")?;
    let body = text_body(alloc, 16, 9, "abcdefghij")?;
    let corner = Point { x: 1, y: 1 };
    window_round(&window_node(alloc, 1, 1, corner, 16, title), body)
}

fn second(alloc: Global) -> Result<Window, Fail> {
    let title = chars(alloc, "Two")?;
    let body = text_body(alloc, 20, 18, "second")?;
    let corner = Point { x: 8, y: 3 };
    window_round(&window_node(alloc, 3, 2, corner, 20, title), body)
}

// The front window first.
fn windows(alloc: Global) -> Result<Vec<Window>, Fail> {
    let mut windows = Vec::new(alloc);
    windows.push(second(alloc)?)?;
    windows.push(first(alloc)?)?;
    Ok(windows)
}

// A canvas of rows of the screen, with the origin in its corner.
fn rows(from: i32, to: i32) -> Canvas {
    Canvas {
        clip: Rect {
            a: Point { x: 0, y: from },
            b: Point { x: 24, y: to },
        },
        origin: Point { x: 0, y: from },
    }
}

fn paint(screen: &mut Screen, windows: &[Window]) {
    lay(screen, rows(0, 1), 24, 1, &BAR);
    lay(screen, rows(1, 9), 24, 8, &Background);
    lay(screen, rows(9, 10), 24, 1, &BAR);
    let desktop = Canvas {
        clip: rows(1, 9).clip,
        origin: Point { x: 0, y: 0 },
    };
    let chain = Chain::of_window();
    let commands = CommandSet::all();
    let env = env(Owner::Window, &chain, &commands, &[]);
    draw_stack(windows, screen, desktop, &env);
}

// The screen with the windows on it.
fn painted(alloc: Global) -> Result<Screen, Fail> {
    let windows = windows(alloc)?;
    let mut screen = Screen::new(alloc, 24, 10)?;
    paint(&mut screen, windows.as_slice());
    Ok(screen)
}

#[test]
fn two_windows(rt: HostRuntime) -> Result<(), Fail> {
    let screen = painted(rt.alloc())?;
    expect_rows(&screen, &SHOT)?;
    assert!(rt; row_has(&screen, 5, &ROW_5));
    assert!(rt; row_has(&screen, 7, &ROW_7));
    Ok(())
}

// The attributes of a row: each up to a column.
fn row_has(screen: &Screen, y: i32, parts: &[(i32, u8)]) -> bool {
    let mut from = 0;
    for (end, attr) in parts {
        for x in from..*end {
            match screen.at(Point { x, y }) {
                Some(cell) if cell.attr() == *attr => {}
                _ => return false,
            }
        }
        from = *end;
    }
    true
}
