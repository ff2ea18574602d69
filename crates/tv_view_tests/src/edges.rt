//! How the focus goes through a group, and where it stops.

use crate::forms::{FIRST, INNER, INPUT, LABEL, LAST};
use crate::steps::{Step, expect_steps};
use std::test::Fail;
use tv_group::Dir;
use tv_model::Id;

// By the controls in description order, panes opened out, and back.
const BOTH_WAYS: [Step; 2] = [
    Step::Walk(Dir::Forward, &[FIRST, INNER, INPUT, LAST]),
    Step::Walk(Dir::Backward, &[LAST, INPUT, INNER, FIRST]),
];

const NO_CURRENT: [Step; 2] = [Step::Edge(Dir::Forward), Step::Edge(Dir::Backward)];

// Hidden controls are no stops, and with none shown there is nothing to enter.
const PAST_HIDDEN: [Step; 6] = [
    Step::Rule {
        shown: &[Id(INNER), Id(INPUT)],
        is_enabled: true,
    },
    Step::Walk(Dir::Forward, &[INNER, INPUT]),
    Step::Walk(Dir::Backward, &[INPUT, INNER]),
    Step::Rule {
        shown: &[],
        is_enabled: true,
    },
    Step::Shut(Dir::Forward),
    Step::Shut(Dir::Backward),
];

// The focus is told to the control that has it, wherever that stands. A label takes none.
const TOLD: [Step; 4] = [
    Step::Focus {
        id: INNER,
        is_taken: true,
    },
    Step::Focus {
        id: LAST,
        is_taken: true,
    },
    Step::Focus {
        id: FIRST,
        is_taken: true,
    },
    Step::Focus {
        id: LABEL,
        is_taken: false,
    },
];

#[test]
fn the_focus_goes_to_the_edge(rt: HostRuntime) -> Result<(), Fail> {
    expect_steps(rt.alloc(), &BOTH_WAYS)?;
    expect_steps(rt.alloc(), &NO_CURRENT)?;
    expect_steps(rt.alloc(), &PAST_HIDDEN)?;
    expect_steps(rt.alloc(), &TOLD)
}
