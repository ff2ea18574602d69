//! What of the screen an event has painted again.

use crate::running::{lines, played};
use std::alloc::Global;
use std::test::Fail;
use tv_cells::{Point, Rect};
use tv_session::Session;
use tv_test_support::descriptions::{CANCEL, COLOUR, MENUS, ORDER, WINDOWS};

// The corners of a rectangle: the columns and rows of the first, and of the one after the last cell.
type Corners = [i32; 4];

// A script, in one line, with the rectangles of what its last event has painted again.
type Row = (&'static str, &'static [Corners]);

const CANCEL_ROWS: [Row; 14] = [
    // The start paints the screen, and isn't an event.
    ("", &[]),
    // The only control has the focus already, so nothing is painted.
    ("key Tab", &[]),
    ("key Tab; key Tab", &[]),
    // A held button shows what it showed.
    ("down 5 3", &[]),
    ("down 5 3; key Esc", &[]),
    // The dialog ends: its bounds and its shadow.
    ("key Esc", &[[2, 2, 16, 6], [4, 3, 18, 7]]),
    // A dialog that is held shows what it showed, and so does one that is moved to where it stands.
    ("down 8 2", &[]),
    ("down 8 2; key Esc", &[]),
    ("down 8 2; move 8 2", &[]),
    ("down 8 2; move 9 4; up 9 4", &[]),
    ("down 8 2; move 0 8; up 0 9", &[]),
    // Moved by a move, or by an up: its bounds and its shadow, as they were and as they are then.
    ("down 8 2; move 9 4", &CANCEL_MOVED),
    ("down 8 2; up 9 4", &CANCEL_MOVED),
    // What lies off the screen is left out.
    (
        "down 8 2; up 0 9",
        &[[2, 2, 16, 6], [4, 3, 18, 7], [0, 8, 8, 10], [0, 9, 10, 10]],
    ),
];

const CANCEL_MOVED: [Corners; 4] = [[2, 2, 16, 6], [4, 3, 18, 7], [3, 4, 17, 8], [5, 5, 19, 9]];

// A button that cancels the dialog, and one below it.
const TWO_BUTTONS: &str = r#"tvd 1
screen 20 10
start a
dialog a 2 2 14 4 "Q" ends cancel
button c 2 1 10 "~C~ancel" cancel
button g 2 2 10 "~G~o" 120
end
"#;

const TWO_BUTTONS_ROWS: [Row; 3] = [
    // The focus goes from one to the other.
    ("key Tab", &[[4, 3, 14, 4], [4, 4, 14, 5]]),
    ("key Tab; key Shift-Tab", &[[4, 3, 14, 4], [4, 4, 14, 5]]),
    ("down 5 4; up 5 4", &[]),
];

const ORDER_ROWS: [Row; 5] = [
    // An edit, and a step of the cursor.
    ("type \"2\"", &[[14, 3, 22, 4]]),
    ("key Home", &[[14, 3, 22, 4]]),
    // The focus goes from the input with its label to the check boxes.
    ("key Tab", &[[4, 3, 12, 4], [14, 3, 22, 4], [4, 5, 18, 7]]),
    // The mark enables the command of a button and of a status item.
    (
        "key Tab; type \" \"",
        &[[4, 5, 18, 7], [4, 9, 12, 10], [0, 13, 40, 14]],
    ),
    // The mark shows the input in the pane.
    (
        "key Tab; key Down; type \" \"",
        &[[4, 5, 18, 7], [4, 7, 12, 8]],
    ),
];

// The chosen item disables the command of a button.
const COLOUR_ROWS: [Row; 1] = [("key Up", &[[3, 2, 15, 4], [3, 5, 11, 6]])];

// Shadows end at the right edge of the screen.
const WINDOW_ROWS: [Row; 13] = [
    // The first window comes to the front, and the second is active no longer.
    ("down 3 1", &[[1, 1, 17, 5], [3, 2, 19, 6], [8, 3, 24, 7]]),
    ("key Alt-1", &[[1, 1, 17, 5], [3, 2, 19, 6], [8, 3, 24, 7]]),
    ("key Alt-2", &[]),
    ("down 12 5", &[]),
    ("move 3 1", &[]),
    // The second window is closed by its mark, and the first becomes active.
    ("down 11 3", &[[8, 3, 24, 7], [10, 4, 24, 8], [1, 1, 17, 5]]),
    ("down 11 3; down 4 1", &[[1, 1, 17, 5], [3, 2, 19, 6]]),
    // The second window is held, moved to where it stands, and dragged over the left edge and the last row.
    ("down 13 3", &[]),
    ("down 13 3; key Alt-1", &[]),
    ("down 13 3; down 3 1", &[]),
    ("down 13 3; move 13 3", &[]),
    ("down 13 3; move 2 9; up 2 9", &[]),
    (
        "down 13 3; up 2 9",
        &[
            [8, 3, 24, 7],
            [10, 4, 24, 8],
            [0, 8, 17, 10],
            [0, 9, 19, 10],
        ],
    ),
];

// A dialog at the right edge of the screen, over two windows.
const QUESTION: &str = r#"tvd 1
screen 30 12
status "F3 Ask" F3 100
window one 1 1 16 4 1 "One"
end
window two 8 3 20 5 2 "Two"
end
dialog d 18 5 12 4 "D" opens 100 ends cancel
button c 1 1 10 "~C~ancel" cancel
end
"#;

const QUESTION_ROWS: [Row; 5] = [
    // The dialog opens, and the front window is active no longer.
    ("key F3", &[[18, 5, 30, 9], [20, 6, 30, 10], [8, 3, 28, 8]]),
    // The dialog ends, and the front window is active again.
    (
        "key F3; key Esc",
        &[[18, 5, 30, 9], [20, 6, 30, 10], [8, 3, 28, 8]],
    ),
    // The dialog is dragged over the windows, which stay as they are; it ends there, and opens where it is declared.
    (
        "key F3; down 26 5; up 10 3",
        &[
            [18, 5, 30, 9],
            [20, 6, 30, 10],
            [2, 3, 14, 7],
            [4, 4, 16, 8],
        ],
    ),
    (
        "key F3; down 26 5; up 10 3; key Esc",
        &[[2, 3, 14, 7], [4, 4, 16, 8], [8, 3, 28, 8]],
    ),
    (
        "key F3; down 26 5; up 10 3; key Esc; key F3",
        &[[18, 5, 30, 9], [20, 6, 30, 10], [8, 3, 28, 8]],
    ),
];

// The box of the first menu lies in 1 1 9 5, and that of the second in 7 1 14 4.
const MENU_ROWS: [Row; 9] = [
    ("key F10", &[[0, 0, 30, 1], [1, 1, 9, 5], [3, 2, 11, 6]]),
    ("key F10; key Tab", &[]),
    ("key F10; key Down", &[[1, 1, 9, 5], [3, 2, 11, 6]]),
    (
        "key F10; key Right",
        &[
            [0, 0, 30, 1],
            [1, 1, 9, 5],
            [3, 2, 11, 6],
            [7, 1, 14, 4],
            [9, 2, 16, 5],
        ],
    ),
    (
        "key F10; key Right; key Enter",
        &[[0, 0, 30, 1], [7, 1, 14, 4], [9, 2, 16, 5]],
    ),
    (
        "key F10; key Esc",
        &[[0, 0, 30, 1], [1, 1, 9, 5], [3, 2, 11, 6]],
    ),
    ("down 20 6", &[]),
    // The event that quits closes the menu.
    (
        "key F10; key Up; key Enter",
        &[[0, 0, 30, 1], [1, 1, 9, 5], [3, 2, 11, 6]],
    ),
    // After that no event does anything.
    ("key F10; key Up; key Enter; key F10", &[]),
];

// A screen of which a menu's row and box and a dialog are most.
const SMALL: &str = r#"tvd 1
screen 20 10
menu "~M~enu"
item "~O~pen" 100
item "~A~gain" 100
item "~Q~uit" quit
end
status "F10" F10 menu
dialog d 8 4 12 5 "D" opens 100 ends cancel
button c 1 1 10 "~C~ancel" cancel
end
"#;

// The dialog opens from the menu, which closes: to paint the screen costs less than to paint the row, the box and the dialog.
const SMALL_ROWS: [Row; 2] = [
    ("key F10; key Down", &[[1, 1, 10, 6], [3, 2, 12, 7]]),
    ("key F10; key Enter", &[[0, 0, 20, 10]]),
];

const TABLE: [(&str, &[Row]); 8] = [
    (CANCEL, &CANCEL_ROWS),
    (TWO_BUTTONS, &TWO_BUTTONS_ROWS),
    (ORDER, &ORDER_ROWS),
    (COLOUR, &COLOUR_ROWS),
    (WINDOWS, &WINDOW_ROWS),
    (QUESTION, &QUESTION_ROWS),
    (MENUS, &MENU_ROWS),
    (SMALL, &SMALL_ROWS),
];

fn rect_of(corners: &Corners) -> Rect {
    let [left, top, right, bottom] = *corners;
    Rect {
        a: Point { x: left, y: top },
        b: Point {
            x: right,
            y: bottom,
        },
    }
}

// What the last event of a session has painted again, which a second call lends too.
fn lent(alloc: Global, session: &Session) -> Result<Vec<Rect>, Fail> {
    let mut rects = Vec::new(alloc);
    rects.extend_from_slice(session.repainted())?;
    if session.repainted() != rects.as_slice() {
        return Err("a second call lends others".into());
    }
    Ok(rects)
}

// How many cells more neighbours may have that are merged, for each rectangle less.
const SLACK: usize = 40;

// The smallest rectangle round all of them.
fn hull_of(wanted: &[Corners]) -> Option<Rect> {
    let (first, others) = wanted.split_first()?;
    let mut hull = rect_of(first);
    for corners in others {
        hull = hull.hull(rect_of(corners));
    }
    Some(hull)
}

// Fails unless the rectangles have all cells that are wanted, none outside the hull of these, none off the largest screen, and
// few cells more. So one that is wanted is matched exactly, and two whose hull has no other cell. Where none is wanted there is
// none.
fn expect_cells(found: &[Rect], wanted: &[Corners], script: &str) -> Result<(), Fail> {
    let hull = hull_of(wanted);
    let mut count = 0usize;
    let mut most = SLACK.saturating_mul(wanted.len().saturating_sub(1));
    for y in -4..64 {
        for x in -4..136 {
            let cell = Point { x, y };
            let is_found = found.iter().any(|rect| rect.contains(cell));
            let times = wanted
                .iter()
                .filter(|corners| rect_of(corners).contains(cell))
                .count();
            let may_be = match hull {
                Some(hull) => hull.contains(cell),
                None => false,
            };
            if (times > 0 && !is_found) || (is_found && !may_be) {
                return Err(Fail::new(format_args!("{x} {y} of {found:?} after {script}")));
            }
            count = count.saturating_add(usize::from(is_found));
            most = most.saturating_add(times);
        }
    }
    if count > most || (wanted.is_empty() && !found.is_empty()) {
        return Err(Fail::new(format_args!("{found:?} after {script}")));
    }
    Ok(())
}

fn expect_repainted(alloc: Global, desc: &str, row: &Row) -> Result<(), Fail> {
    let (script, wanted) = *row;
    let session = played(alloc, desc, &lines(alloc, script)?)?;
    let found = lent(alloc, &session)?;
    expect_cells(found.as_slice(), wanted, script)
}

/// Runs each script from the start, and looks at what its last event had painted again.
///
/// A session that paints the whole screen again at each event shows the same, and no cell is left of which it would promise
/// anything. The first rows refuse it: nothing changes there, so nothing is to be painted.
#[test]
fn repainted(rt: HostRuntime) -> Result<(), Fail> {
    for &(desc, rows) in &TABLE {
        for row in rows {
            expect_repainted(rt.alloc(), desc, row)?;
        }
    }
    Ok(())
}
