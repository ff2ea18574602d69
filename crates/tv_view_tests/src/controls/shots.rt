//! What bars show on a screen over a background.

ghost use Rattle.tv_cells.specs.Rectangle.{IsPointNear};

use super::bars::{Bars, MENUS, NO_MENUS};
use super::telling::push_face;
use std::alloc::Global;
use std::test::Fail;
use tv_cells::{Canvas, Point, Rect, Screen, lay};
use tv_event::{Command, CommandSet, Event, Key};
use tv_faces::Background;

const F10: Event = Event::Key(Key::Function(10));

const LINE: &str = " F10 Menu                     ";

const LINE_COLOURS: &str = "707070707070707070707070707070707070707070707070707070707070";

// A row of the screen: its characters, or its attributes in two hexadecimal digits each.
struct Row {
    y: i32,
    is_colours: bool,
    told: &'static str,
}

// What the bars of a description show, perhaps with a disabled command and after F10.
struct Shown {
    description: &'static str,
    disabled: Option<Command>,
    is_opened: bool,
    rows: &'static [Row],
}

// The first menu is open. The colours of the row of its first item: the current item, and the shadow of the box.
const OPEN: Shown = Shown {
    description: MENUS,
    disabled: None,
    is_opened: true,
    rows: &[
        Row {
            y: 0,
            is_colours: false,
            told: "  File  Edit                  ",
        },
        Row {
            y: 1,
            is_colours: false,
            told: ".+------+.....................",
        },
        Row {
            y: 2,
            is_colours: false,
            told: ".| New  |.....................",
        },
        Row {
            y: 3,
            is_colours: false,
            told: ".| Quit |.....................",
        },
        Row {
            y: 4,
            is_colours: false,
            told: ".+------+.....................",
        },
        Row {
            y: 2,
            is_colours: true,
            told: "717020242020202070080871717171717171717171717171717171717171",
        },
        Row {
            y: 11,
            is_colours: false,
            told: LINE,
        },
        Row {
            y: 11,
            is_colours: true,
            told: LINE_COLOURS,
        },
    ],
};

const NO_MENU: Shown = Shown {
    description: NO_MENUS,
    disabled: None,
    is_opened: true,
    rows: &[
        Row {
            y: 0,
            is_colours: true,
            told: LINE_COLOURS,
        },
        Row {
            y: 1,
            is_colours: false,
            told: "..............................",
        },
        Row {
            y: 11,
            is_colours: false,
            told: LINE,
        },
    ],
};

// The item of the status line is disabled.
const DISABLED: Shown = Shown {
    description: MENUS,
    disabled: Some(Command::MENU),
    is_opened: false,
    rows: &[
        Row {
            y: 1,
            is_colours: false,
            told: "..............................",
        },
        Row {
            y: 11,
            is_colours: false,
            told: LINE,
        },
        Row {
            y: 11,
            is_colours: true,
            told: "787878787878787878787070707070707070707070707070707070707070",
        },
    ],
};

fn desktop() -> Canvas
    ensures { IsPointNear result.origin }
{
    Canvas {
        clip: Rect {
            a: Point { x: 0, y: 1 },
            b: Point { x: 30, y: 11 },
        },
        origin: Point { x: 0, y: 0 },
    }
}

fn expect_row(alloc: Global, screen: &Screen, row: &Row) -> Result<(), Fail> {
    let place = Rect {
        a: Point { x: 0, y: row.y },
        b: Point {
            x: 30,
            y: row.y.saturating_add(1),
        },
    };
    let mut told = String::new(alloc);
    push_face(&mut told, alloc, screen, place, row.is_colours)?;
    let wanted = format!(in alloc; ":{}:\n", row.told)?;
    if told == wanted {
        return Ok(());
    }
    Err(Fail::new(format_args!("{told}in row {}", row.y)))
}

fn shot(alloc: Global, shown: &Shown) -> Result<Screen, Fail> {
    let mut enabled = CommandSet::all();
    if let Some(command) = shown.disabled {
        enabled.disable(command);
    }
    let mut screen = Screen::new(alloc, 30, 12)?;
    let whole = screen.canvas();
    let mut bars = Bars::new(alloc, shown.description)?;
    if shown.is_opened {
        bars.offer(&F10, &enabled);
    }
    lay(&mut screen, desktop(), 30, 12, &Background);
    bars.bar.draw_box(&mut screen, desktop());
    bars.line.draw(&mut screen, whole, &enabled);
    bars.bar.draw(&mut screen, whole);
    Ok(screen)
}

fn expect_shown(alloc: Global, shown: &Shown) -> Result<(), Fail> {
    let screen = shot(alloc, shown)?;
    for row in shown.rows {
        expect_row(alloc, &screen, row)?;
    }
    Ok(())
}

#[test]
fn bars_are_shown(rt: HostRuntime) -> Result<(), Fail> {
    expect_shown(rt.alloc(), &OPEN)?;
    expect_shown(rt.alloc(), &NO_MENU)?;
    expect_shown(rt.alloc(), &DISABLED)
}
