//! Which leaves broadcasts reach.

use crate::forms::{FIRST, INPUT, LABEL, LAST, LEAVES, TEXT};
use crate::steps::{Handing, Step, expect_steps};
use std::test::Fail;
use tv_event::{Command, Event, Key, Phase};
use tv_model::Id;
use tv_view::Reaction;

const KEY: Event = Event::Key(Key::Function(5));

const TOLD: Event = Event::Broadcast(Command::RECEIVED_FOCUS);

const ENTER: Event = Event::Broadcast(Command::DEFAULT);

// A key reaches what is shown and enabled, which is the label alone, and a broadcast every leaf, hidden and disabled ones too.
const HEARD: [Step; 5] = [
    Step::Rule {
        shown: &[Id(LABEL), Id(FIRST), Id(TEXT), Id(INPUT)],
        is_enabled: false,
    },
    Step::Hand(Handing {
        event: KEY,
        phase: Phase::Pre,
        is_enabled: false,
        default_now: None,
        reached: &[LABEL],
        reaction: Reaction::Pass,
    }),
    Step::Hand(Handing {
        event: TOLD,
        phase: Phase::Pre,
        is_enabled: false,
        default_now: None,
        reached: &LEAVES,
        reaction: Reaction::Pass,
    }),
    Step::Hand(Handing {
        event: KEY,
        phase: Phase::Post,
        is_enabled: false,
        default_now: None,
        reached: &[LABEL],
        reaction: Reaction::Pass,
    }),
    Step::Hand(Handing {
        event: TOLD,
        phase: Phase::Post,
        is_enabled: false,
        default_now: None,
        reached: &LEAVES,
        reaction: Reaction::Pass,
    }),
];

// Enter's broadcast presses the default button, where it is enabled, though it is hidden.
const PRESSED: [Step; 4] = [
    Step::Rule {
        shown: &[],
        is_enabled: true,
    },
    Step::Hand(Handing {
        event: ENTER,
        phase: Phase::Focused,
        is_enabled: true,
        default_now: Some(Id(LAST)),
        reached: &LEAVES,
        reaction: Reaction::Post(Id(LAST), Command(120)),
    }),
    Step::Rule {
        shown: &[],
        is_enabled: false,
    },
    Step::Hand(Handing {
        event: ENTER,
        phase: Phase::Focused,
        is_enabled: false,
        default_now: Some(Id(LAST)),
        reached: &LEAVES,
        reaction: Reaction::Pass,
    }),
];

#[test]
fn broadcasts_reach_every_leaf(rt: HostRuntime) -> Result<(), Fail> {
    expect_steps(rt.alloc(), &HEARD)?;
    expect_steps(rt.alloc(), &PRESSED)
}
