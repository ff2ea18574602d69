//! What a dialog makes of an event is done when it returns: no posted event is left over.

use crate::dialogs::{BUTTONS, LOG, OWN, Step, expect_steps};
use crate::journal::{Call, Told};
use std::test::Fail;
use tv_event::{Command, Event, Key, Phase};

// What no button takes.
const QUIET: Event = Event::Key(Key::Function(5));

const SPACE: Event = Event::Key(Key::Char(' '));

const ENTER: Event = Event::Broadcast(Command::DEFAULT);

const LETTER: Event = Event::Key(Key::Char('c'));

const POSTED: Event = Event::Command(OWN);

const CANCELLED: Event = Event::Command(Command::CANCEL);

// The button with the focus is handed a key. The command that it then gives goes to the buttons, and from there to the dialog,
// before the key is done with.
const SPACE_TOLD: [Told; 4] = [
    Told {
        call: Call::Handed(SPACE, Phase::Focused),
        views: &[LOG],
    },
    Told {
        call: Call::Handed(POSTED, Phase::Pre),
        views: &BUTTONS,
    },
    Told {
        call: Call::Handed(POSTED, Phase::Focused),
        views: &[LOG],
    },
    Told {
        call: Call::Handed(POSTED, Phase::Post),
        views: &BUTTONS,
    },
];

// Enter is a broadcast, which the button in the focus takes.
const ENTER_TOLD: [Told; 4] = [
    Told {
        call: Call::Handed(ENTER, Phase::Focused),
        views: &[LOG],
    },
    Told {
        call: Call::Handed(POSTED, Phase::Pre),
        views: &BUTTONS,
    },
    Told {
        call: Call::Handed(POSTED, Phase::Focused),
        views: &[LOG],
    },
    Told {
        call: Call::Handed(POSTED, Phase::Post),
        views: &BUTTONS,
    },
];

// The button with the focus doesn't mark the letter, and the one that cancels gives its command.
const LETTER_TOLD: [Told; 5] = [
    Told {
        call: Call::Handed(LETTER, Phase::Focused),
        views: &[LOG],
    },
    Told {
        call: Call::Handed(LETTER, Phase::Post),
        views: &BUTTONS,
    },
    Told {
        call: Call::Handed(CANCELLED, Phase::Pre),
        views: &BUTTONS,
    },
    Told {
        call: Call::Handed(CANCELLED, Phase::Focused),
        views: &[LOG],
    },
    Told {
        call: Call::Handed(CANCELLED, Phase::Post),
        views: &BUTTONS,
    },
];

// A key that is no letter goes to the button with the focus, and nothing else does.
const NOTHING_LEFT: Step = Step {
    event: QUIET,
    log: "[]",
    told: &[Told {
        call: Call::Handed(QUIET, Phase::Focused),
        views: &[LOG],
    }],
    is_held: false,
    ended: None,
};

const SPACE_PRESSES: Step = Step {
    event: SPACE,
    log: "[Press(Id(3)), Command(120)]",
    told: &SPACE_TOLD,
    is_held: false,
    ended: None,
};

const BY_SPACE: [Step; 4] = [SPACE_PRESSES, NOTHING_LEFT, SPACE_PRESSES, NOTHING_LEFT];

const BY_ENTER: [Step; 2] = [
    Step {
        event: Event::Key(Key::Enter),
        log: "[Press(Id(3)), Command(120)]",
        told: &ENTER_TOLD,
        is_held: false,
        ended: None,
    },
    NOTHING_LEFT,
];

// The command of the button that cancels ends the dialog in the same step.
const BY_LETTER: [Step; 1] = [Step {
    event: LETTER,
    log: "[Press(Id(7)), End(Id(1), Command(11))]",
    told: &LETTER_TOLD,
    is_held: false,
    ended: Some(Command::CANCEL),
}];

#[test]
fn no_posted_event_is_left(rt: HostRuntime) -> Result<(), Fail> {
    expect_steps(rt.alloc(), &BY_SPACE)?;
    expect_steps(rt.alloc(), &BY_ENTER)?;
    expect_steps(rt.alloc(), &BY_LETTER)
}
