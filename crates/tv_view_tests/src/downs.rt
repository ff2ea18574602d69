//! How often a mouse down reaches the view at its point.

use crate::dialogs::{BUTTONS, LOG, OWN, SAVE, Step, expect_steps};
use crate::journal::{Call, Told};
use std::test::Fail;
use tv_cells::Point;
use tv_event::{Event, Phase};

// On the button at the left of the first pane, and of the second one.
const FIRST: Point = Point { x: 3, y: 1 };

const SECOND: Point = Point { x: 3, y: 4 };

// The same points, seen from the corner of a pane.
const INSIDE: Point = Point { x: 2, y: 0 };

const DOWN: Call = Call::Handed(Event::Down(INSIDE), Phase::Focused);

const UP: Call = Call::Handed(Event::Up(INSIDE), Phase::Focused);

// A button without the focus asks for it, and the same down then takes hold of the mouse.
const TWICE: [Step; 1] = [Step {
    event: Event::Down(SECOND),
    log: "[Focus(Id(6))]",
    told: &[
        Told {
            call: DOWN,
            views: &[SAVE],
        },
        Told {
            call: Call::Focused,
            views: &[SAVE],
        },
        Told {
            call: DOWN,
            views: &[SAVE],
        },
    ],
    is_held: true,
    ended: None,
}];

// One with the focus takes hold of it at once. The up goes from leaf to leaf, up to the one that holds the mouse.
const ONCE: [Step; 2] = [
    Step {
        event: Event::Down(FIRST),
        log: "[]",
        told: &[Told {
            call: DOWN,
            views: &[LOG],
        }],
        is_held: true,
        ended: None,
    },
    Step {
        event: Event::Up(FIRST),
        log: "[Press(Id(3)), Command(120)]",
        told: &[
            Told {
                call: UP,
                views: &[LOG],
            },
            Told {
                call: Call::Handed(Event::Command(OWN), Phase::Pre),
                views: &BUTTONS,
            },
            Told {
                call: Call::Handed(Event::Command(OWN), Phase::Focused),
                views: &[LOG],
            },
            Told {
                call: Call::Handed(Event::Command(OWN), Phase::Post),
                views: &BUTTONS,
            },
        ],
        is_held: false,
        ended: None,
    },
];

// Where no view is, none is told.
const BESIDE: [Step; 1] = [Step {
    event: Event::Down(Point { x: 25, y: 8 }),
    log: "[]",
    told: &[],
    is_held: false,
    ended: None,
}];

#[test]
fn downs_reach_the_view_at_their_point(rt: HostRuntime) -> Result<(), Fail> {
    expect_steps(rt.alloc(), &TWICE)?;
    expect_steps(rt.alloc(), &ONCE)?;
    expect_steps(rt.alloc(), &BESIDE)
}
