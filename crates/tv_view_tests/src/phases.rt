//! Which leaves a group hands a key to, in each phase.

use crate::forms::{FIRST, INNER, INPUT, LABEL};
use crate::steps::{Handing, Step, expect_steps};
use std::test::Fail;
use tv_event::{Command, Event, Key, Phase};
use tv_model::Id;
use tv_view::Reaction;

// What no leaf takes: a key that none knows, and a command.
const KEY: Event = Event::Key(Key::Function(5));

const COMMAND: Event = Event::Command(Command(120));

// Without a current leaf, the phase of the focus has none.
const NO_CURRENT: [Step; 2] = [
    Step::Pass {
        event: KEY,
        current: &[],
    },
    Step::Pass {
        event: COMMAND,
        current: &[],
    },
];

// The leaves that ask for it are handed the event before the current one and after it, those of the pane too, and in the
// same phase.
const EACH_CURRENT: [Step; 12] = [
    Step::Focus {
        id: FIRST,
        is_taken: true,
    },
    Step::Pass {
        event: KEY,
        current: &[FIRST],
    },
    Step::Focus {
        id: INNER,
        is_taken: true,
    },
    Step::Pass {
        event: KEY,
        current: &[INNER],
    },
    Step::Focus {
        id: INPUT,
        is_taken: true,
    },
    Step::Pass {
        event: KEY,
        current: &[INPUT],
    },
    Step::Focus {
        id: FIRST,
        is_taken: true,
    },
    Step::Pass {
        event: COMMAND,
        current: &[FIRST],
    },
    Step::Focus {
        id: INNER,
        is_taken: true,
    },
    Step::Pass {
        event: COMMAND,
        current: &[INNER],
    },
    Step::Focus {
        id: INPUT,
        is_taken: true,
    },
    Step::Pass {
        event: COMMAND,
        current: &[INPUT],
    },
];

// Two buttons mark the letter, and the one in the pane comes first. It takes the key, which only those before it that mark
// letters are handed.
const TAKEN: [Step; 2] = [
    Step::Hand(Handing {
        event: Event::Key(Key::Alt('S')),
        phase: Phase::Pre,
        is_enabled: true,
        default_now: None,
        reached: &[LABEL, FIRST, INNER],
        reaction: Reaction::Post(Id(INNER), Command(120)),
    }),
    Step::Hand(Handing {
        event: Event::Key(Key::Char('s')),
        phase: Phase::Post,
        is_enabled: true,
        default_now: None,
        reached: &[LABEL, FIRST, INNER],
        reaction: Reaction::Post(Id(INNER), Command(120)),
    }),
];

#[test]
fn each_phase_has_its_leaves(rt: HostRuntime) -> Result<(), Fail> {
    expect_steps(rt.alloc(), &NO_CURRENT)?;
    expect_steps(rt.alloc(), &EACH_CURRENT)?;
    expect_steps(rt.alloc(), &TAKEN)
}
